// The format's home, both ways: reading a record, walking over its parts, and writing its header and heads.
#![tactic(auto)]

ghost use Rattle.std.specs.Prelude.{◌≡◌};

pub mod read;
pub mod walk;
pub mod write;

use rules::{Level, Part, Plane};

// A part's plane and level, ordered by the plane first. Elsewhere the two go side by side: 01 counts them apart, and contracts speak of each.
#[derive(Clone, Copy, PartialEq, Eq, PartialOrd, Ord)]
pub struct Name {
    pub plane: Plane,
    pub level: Level,
}

impl From<Part> for Name {
    ghost from_gives = { λ p name. name ≡ record { plane = p.plane; level = p.level } };

    fn from(p: Part) -> Name {
        Name {
            plane: p.plane,
            level: p.level,
        }
    }
}
