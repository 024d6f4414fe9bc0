// Writing: a record's header and the head of a part, from a place of the output on. What falls past its end is left out; the place goes on counting.
ghost use Rattle.std.specs.Prelude.{◌≡◌, [], ◌∷◌, true, ◌≤◌, ◌<◌, length, All};
ghost use Rattle.rules.specs.Document.Pyramid.{legal_size, most_planes};
ghost use Rattle.rules.specs.Document.Layout.{version};
ghost use Rattle.rules.specs.Laws.Bytes.Numbers.{too_large};
ghost use Rattle.record.specs.Write.{place_most, Wrote, HeadFits, Headed};

use rules::{Level, Plane, Size, VERSION};

// Bytes of a part's head whose bit count takes one byte.
pub const SHORT_HEAD: usize = 3;

// Numbers, one after the other. Answers the place after them.
fn all(out: &mut [u8], at: usize, values: &[usize]) -> usize
    requires { (at ≤ place_most) × (length values.now ≤ 5) × All (λ v. v < too_large) values.now }
    ensures { Wrote out.old at values.now result out.new }
{
    let mut place = at;
    for value in values {
        place = numbers::write_number(out, place, *value);
    }
    place
}

// The header, at the front. Answers the place after it.
pub fn header(z: Size, planes: usize, out: &mut [u8]) -> usize
    requires { (legal_size z ≡ true) × (planes ≤ most_planes) }
    ensures { Wrote out.old 0 (version ∷ z.w ∷ z.h ∷ z.n ∷ planes ∷ []) result out.new }
{
    all(out, 0, &[VERSION, z.w, z.h, z.n, planes])
}

// The head of a part. Answers the place after it.
pub fn head(out: &mut [u8], place: usize, plane: Plane, level: Level, bits: usize) -> usize
    requires { HeadFits place plane level bits }
    ensures { Wrote out.old place (plane.0 ∷ level.0 ∷ bits ∷ []) result out.new }
{
    all(out, place, &[plane.0, level.0, bits])
}

// Puts the head before a body that stands behind the place of a short head: where the head is longer, the body first makes way. Answers the
// place after the part.
pub fn put_head(out: &mut [u8], place: usize, plane: Plane, level: Level, bits: usize) -> usize
    requires { HeadFits place plane level bits }
    ensures { Headed out.old place plane.0 level.0 bits result out.new }
{
    let bytes = bits.div_ceil(8);
    memory::move_right(
        out,
        place + SHORT_HEAD,
        bytes,
        numbers::number_length(bits) - 1,
    );
    head(out, place, plane, level, bits) + bytes
}
