// Zeroing whole slices, copying and comparing stretches of bytes. What would fall past the end of a slice is left out.
#![tactic(auto)]

ghost use Rattle.std.specs.Prelude.{◌≡◌, true, ◌↔◌, ◌+◌, ◌-◌, min, length, replicate, take, drop, pos};
ghost use Rattle.std.proofs.lemmas.List.Edits.{sets};

// A number that lent memory is made of, and the one that it is cleared to.
pub trait Word: Copy {
    ghost ZERO: { Self };

    const ZERO: Self;
}

impl Word for u8 {
    ghost ZERO = { 0 };

    const ZERO: u8 = 0;
}

impl Word for u32 {
    ghost ZERO = { 0 };

    const ZERO: u32 = 0;
}

impl Word for u64 {
    ghost ZERO = { 0 };

    const ZERO: u64 = 0;
}

impl Word for i32 {
    ghost ZERO = { pos 0 };

    const ZERO: i32 = 0;
}

pub fn zero<T: Word>(s: &mut [T])
    ensures { s.new ≡ replicate (length s.old) T.ZERO }
{
    // A for: `fill` asks that a clone can't fail, which the bound doesn't say.
    for i in 0..s.len() {
        s[i] = T::ZERO;
    }
}

// The `count` bytes from `start` on, as far as they are there.
fn stretch(bytes: &[u8], start: usize, count: usize) -> &[u8]
    ensures { result.now ≡ take count (drop start bytes.now) }
{
    let from = start.min(bytes.len());
    let to = from + count.min(bytes.len() - from);
    &bytes[from..to]
}

// Places and counts beside the slices, here and below: a part is copied from where its head says that it stands, and nothing past an end.
// The `count` bytes of `from` at `start` are copied to `to`, from `at` on.
pub fn copy(from: &[u8], start: usize, count: usize, to: &mut [u8], at: usize)
    ensures { to.new ≡ sets to.old at (take count (drop start from.now)) }
{
    let bytes = stretch(from, start, count);
    let first = at.min(to.len());
    let fitting = bytes.len().min(to.len() - first);
    // A for: copy_from_slice needs memmove of the C library, which the archive asks for nowhere else.
    for i in 0..fitting {
        to[first + i] = bytes[i];
    }
}

// Whether the `count` bytes of `one` at `start` are the same as the `many` bytes of `other` at `from`.
pub fn same(one: &[u8], start: usize, count: usize, other: &[u8], from: usize, many: usize) -> bool
    ensures { (result ≡ true) ↔ (take count (drop start one.now) ≡ take many (drop from other.now)) }
{
    stretch(one, start, count) == stretch(other, from, many)
}

// The `count` bytes at `start` move `by` places to the right; they may lie over their new place.
pub fn move_right(bytes: &mut [u8], start: usize, count: usize, by: usize)
    ensures { bytes.new ≡ sets bytes.old (start + by) (take count (drop start bytes.old)) }
{
    let room = bytes.len().saturating_sub(start).saturating_sub(by);
    let fitting = count.min(room);
    if 0 < fitting {
        bytes.copy_within(start..start + fitting, start + by);
    }
}
