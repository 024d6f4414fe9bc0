// Tree order: one numbering of the coefficients under which a pass needs no place. Definitions and laws, in specs. There is no code here.
#![tactic(auto)]
