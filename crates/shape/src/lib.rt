// Leaves over document 01's pyramid, where its coefficients stand: legal sizes, levels and how many coefficients they have.
#![tactic(auto)]

ghost use Rattle.std.specs.Prelude.{◌≡◌, true, ◌+◌, ◌≤◌};
ghost use Rattle.rules.specs.Document.Pyramid.{most_decompositions, legal_side, legal_size};
ghost use Rattle.rules.specs.Document.Pyramid.{levels};
ghost use Rattle.rules.specs.Document.Numbers.{most_bits};
ghost use Rattle.rules.specs.Document.Calls.{work_for};
ghost use Rattle.rules.specs.Laws.Family.Sizes.{span, level_start, level_end, level_size};

use rules::{GREATEST_SIDE, Level, Size};

const LEAST_SIDE: usize = 4;

const MOST_DECOMPOSITIONS: usize = 5;

// How many times a stretch of the pyramid was halved: where a coefficient lies, whatever level its bits are coded with.
#[derive(Clone, Copy)]
pub struct Depth(pub usize);

fn legal_side(n: usize, side: usize) -> bool
    requires { n ≤ most_decompositions }
    ensures { result ≡ legal_side n side }
{
    (LEAST_SIDE..=GREATEST_SIDE).contains(&side) && side.is_multiple_of(1 << (n + 1))
}

// N is judged before 2^(N+1) is formed.
pub fn legal_size(z: Size) -> bool
    ensures { result ≡ legal_size z }
{
    (1..=MOST_DECOMPOSITIONS).contains(&z.n) && legal_side(z.n, z.w) && legal_side(z.n, z.h)
}

// All below ask that a plain Size is legal, and that a plain Level is one of its: the crates above do too, and a type that carries the facts would be made
// and opened again at each of their calls.

// Four for each coefficient: no part has more bits, and that many numbers of workspace are enough. Contracts cite the two rules by these names.
pub fn most_bits(z: Size) -> usize
    requires { legal_size z ≡ true }
    ensures { result ≡ most_bits z }
{
    4 * (z.w * z.h)
}

pub fn work_for(z: Size) -> usize
    requires { legal_size z ≡ true }
    ensures { result ≡ work_for z }
{
    most_bits(z)
}

// How many coefficients lie in the first H / 2^k rows and W / 2^k columns.
pub fn span_of(z: Size, k: Depth) -> usize
    requires { (legal_size z ≡ true) × (k.0 ≤ z.n + 3) }
    ensures { result ≡ span z k.0 }
{
    let m = k.0;
    (z.h >> m) * (z.w >> m)
}

// Counted coarsest level first, the coefficients of level k are those from level_start up to level_end.
// Three functions and no Range: contracts above cite the three numbers one by one.
pub fn level_start(z: Size, k: Level) -> usize
    requires { (legal_size z ≡ true) × (1 ≤ k.0) × (k.0 ≤ levels z) }
    ensures { result ≡ level_start z k.0 }
{
    if z.n < k.0 { 0 } else { span_of(z, Depth(k.0)) }
}

pub fn level_end(z: Size, k: Level) -> usize
    requires { (legal_size z ≡ true) × (1 ≤ k.0) × (k.0 ≤ levels z) }
    ensures { result ≡ level_end z k.0 }
{
    span_of(z, Depth(k.0 - 1))
}

pub fn level_size(z: Size, k: Level) -> usize
    requires { (legal_size z ≡ true) × (1 ≤ k.0) × (k.0 ≤ levels z) }
    ensures { result ≡ level_size z k.0 }
{
    level_end(z, k) - level_start(z, k)
}
