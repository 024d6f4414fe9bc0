// A level's stretch of the workspace: where it lies, and what stands in it beside the lists: the level's values as words, and the maxima of sets.
#![tactic(auto)]

ghost use Rattle.std.specs.Prelude.{◌≡◌, true, ◌+◌, ◌*◌, ◌^◌, ◌≤◌, ◌<◌, length, get_or};
ghost use Rattle.rules.specs.Document.Pyramid.{legal_size, levels};
ghost use Rattle.rules.specs.Document.Calls.{work_for};
ghost use Rattle.rules.specs.Laws.Family.Sizes.{level_start, level_size};
ghost use Rattle.stretches.specs.Levels.{lent_to};
ghost use Rattle.stretches.specs.Cut.{maxima_from, values_in, maxima_in, ValueSet, SetOr, MaximumSet};

use rules::{Level, Size};
use std::hint;

// Where a level's stretch begins and where it ends.
// No range of both: placing asks for the beginning alone, parts and largest for the beginning of one level and the end of another.
pub fn stretch_from(z: Size, k: Level) -> usize
    requires { (legal_size z ≡ true) × (1 ≤ k.0) × (k.0 ≤ levels z) }
    ensures { (result ≡ 4 * level_start z k.0) × (result + 4 * level_size z k.0 ≤ work_for z) × (result < 2 ^ 32) }
{
    4 * shape::level_start(z, k)
}

pub fn stretch_to(z: Size, k: Level) -> usize
    requires { (legal_size z ≡ true) × (1 ≤ k.0) × (k.0 ≤ levels z) }
    ensures { (result ≡ 4 * level_start z k.0 + 4 * level_size z k.0) × (result ≤ work_for z) × (result < 2 ^ 32) }
{
    4 * shape::level_end(z, k)
}

// Where a level's stretch and the next finer level's end, which lies right behind; level 1 has no next.
pub fn lent_to(z: Size, k: Level) -> usize
    requires { (legal_size z ≡ true) × (1 ≤ k.0) × (k.0 ≤ levels z) }
    ensures { (result ≡ lent_to z k.0) × (4 * level_start z k.0 + 4 * level_size z k.0 ≤ result) × (result ≤ work_for z) × (result < 2 ^ 32) }
{
    if k.0 < 2 {
        stretch_to(z, k)
    } else {
        stretch_to(z, Level(k.0 - 1))
    }
}

// The i-th value of a stretch for n coefficients. Slices here may go on behind the stretch, so n stands beside them.
// A read and a store of their own: they say which of the values it is, ValueSet for testing's contracts, where s[i] says a number's place alone.
pub fn value_at(s: &[u32], n: usize, i: usize) -> u32
    requires { (4 * n ≤ length s.now) × (i < n) }
    ensures { result ≡ get_or (values_in n s.now) i 0 }
{
    s[i]
}

pub fn set_value(s: &mut [u32], n: usize, i: usize, word: u32)
    requires { (4 * n ≤ length s.old) × (i < n) }
    ensures { ValueSet n s.old i word s.new }
{
    s[i] = word;
}

// The i-th value is set if a bit is 1; if it is 0, the word goes to a place where it doesn't matter. The place is chosen as a number: the bits of a
// body are hard to foresee, and no branch waits for this one.
pub fn set_value_or(s: &mut [u32], n: usize, i: usize, word: u32, bit: bool, spare: usize)
    requires { (4 * n ≤ length s.old) × (i < n) × (spare < length s.old) }
    ensures { SetOr bit n s.old i word spare s.new }
{
    s[hint::select_unpredictable(bit, i, spare)] = word;
}

#[tactic(auto, unfolding(crate::specs::Cut::maxima_from))]
pub fn maxima_from(n: usize) -> usize
    requires { n < 2 ^ 32 }
    ensures { result ≡ maxima_from n }
{
    n + n + n + 3 * n / 4
}

// The maximum of block i; 0 past their end.
#[tactic(auto, unfolding(crate::specs::Cut::maxima_from))]
pub fn maximum_at(s: &[u32], n: usize, i: usize) -> u32
    requires { (4 * n ≤ length s.now) × (n < 2 ^ 32) }
    ensures { result ≡ get_or (maxima_in n s.now) i 0 }
{
    if i < n / 4 { s[maxima_from(n) + i] } else { 0 }
}

// Nothing past their end.
#[tactic(auto, unfolding(crate::specs::Cut::maxima_from))]
pub fn set_maximum(s: &mut [u32], n: usize, i: usize, maximum: u32)
    requires { (4 * n ≤ length s.old) × (n < 2 ^ 32) }
    ensures { MaximumSet n s.old i maximum s.new }
{
    if i < n / 4 {
        s[maxima_from(n) + i] = maximum;
    }
}
