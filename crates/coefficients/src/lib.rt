// Leaves over document 01's pyramid, what its coefficients are: sign and magnitude, as a value and as a word; the largest of them, the count of planes.
#![tactic(auto)]

ghost use Rattle.std.specs.Prelude.{◌≡◌, cond, ◌+◌, ◌*◌, ◌^◌, ◌<◌, get_or, pos, nat_abs};
ghost use Rattle.rules.specs.Document.Notation.{greatest};
ghost use Rattle.rules.specs.Document.Pyramid.{planes_of};
ghost use Rattle.rules.specs.Document.Passes.{signed};
ghost use Rattle.rules.specs.Document.Calls.{first_over};
ghost use Rattle.coefficients.specs.Words.{word_of, worded, value_of};

use rules::Plane;

pub fn signed_of(negative: bool, magnitude: u32) -> i32
    requires { magnitude < 2 ^ 31 }
    ensures { result ≡ signed negative magnitude }
{
    let value = magnitude as i32;
    if negative { -value } else { value }
}

// 2^n, from which on a magnitude is significant at plane n.
pub fn threshold_of(plane: Plane) -> u32
    requires { plane.0 < 32 }
    ensures { result ≡ 2 ^ plane.0 }
{
    1 << plane.0
}

// 0 past the end.
pub fn coefficient_at(pyramid: &[i32], q: usize) -> i32
    ensures { result ≡ get_or pyramid.now q (pos 0) }
{
    pyramid.get(q).copied().unwrap_or(0)
}

// A coefficient as a word: magnitude x 2, and 1 more where it is negative. Sign and bit are added as numbers: neither can be foretold.
// No type of its own with From: words stand as plain u32 in the workspace that C lends.
fn word_with(negative: bool, magnitude: u32) -> u32
    requires { magnitude < 2 ^ 31 }
    ensures { result ≡ word_of negative magnitude }
{
    2 * magnitude + u32::from(negative)
}

pub fn word_of(v: i32) -> u32
    requires { nat_abs v < 2 ^ 31 }
    ensures { result ≡ worded v }
{
    word_with(v.is_negative(), v.unsigned_abs())
}

pub fn value_of(w: u32) -> i32
    ensures { result ≡ value_of w }
{
    signed_of(w % 2 == 1, w / 2)
}

pub fn found_word(negative: bool, plane: Plane) -> u32
    requires { plane.0 < 30 }
    ensures { result ≡ word_of negative (2 ^ plane.0) }
{
    word_with(negative, threshold_of(plane))
}

pub fn refined_word(w: u32, bit: bool, plane: Plane) -> u32
    requires { (w < 2 ^ 31) × (plane.0 < 30) }
    ensures { result ≡ w + cond bit (2 * 2 ^ plane.0) 0 }
{
    let n = plane.0 + 1;
    w + (u32::from(bit) << n)
}

// The first index whose magnitude is over a limit; the pyramid's length if there is none, as the document's first_over has it, and no Option.
pub fn first_over(pyramid: &[i32], most: u32) -> usize
    ensures { result ≡ first_over most pyramid.now }
{
    pyramid
        .iter()
        .position(|v| most < v.unsigned_abs())
        .unwrap_or(pyramid.len())
}

pub fn largest_magnitude(pyramid: &[i32]) -> u32
    ensures { result ≡ greatest nat_abs pyramid.now }
{
    pyramid.iter().map(|v| v.unsigned_abs()).max().unwrap_or(0)
}

// How many planes a largest magnitude of m has.
pub fn planes_of(m: u32) -> usize
    ensures { result ≡ planes_of m }
{
    (u32::BITS - m.leading_zeros()) as usize
}
