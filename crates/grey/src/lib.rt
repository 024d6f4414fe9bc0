// Grey pictures: from a binary grey file to a pyramid, from a pyramid to a file, and how large the picture in a file is.
#![tactic(auto)]

ghost use Rattle.std.specs.Prelude.{◌≡◌, map, true, ◌+◌, ◌≤◌, ◌<◌, length};
ghost use Rattle.std.proofs.lemmas.List.Edits.{sets};
ghost use Rattle.rules.specs.Document.Notation.{zeros};
ghost use Rattle.rules.specs.Document.Pyramid.{legal_size, area};
ghost use Rattle.pictures.specs.Document.Answers.{as_grey_read, as_grey_written};
ghost use Rattle.pictures.specs.Document.Netpbm.{grey_lines};
ghost use Rattle.pictures.specs.Document.Lifting.{picture_of};
ghost use Rattle.pictures.specs.Laws.Tones.{toned};
ghost use Rattle.pictures.specs.Document.Calls.{clip, outside, clipped_in};
ghost use Rattle.pictures.specs.Document.Calls.{GreyIn, GreyOut, GreySize};
ghost use Rattle.grey.specs.Pixels.{Loaded};
ghost use Rattle.grey.specs.Outcomes.{judged_in, judged_out, Printing, WayIn, WayBack};

use lifting::BIAS;
use pictures::{Picture, Printed, Sides};
use rules::{Refusal, Size};

const GREATEST_PIXEL: u32 = 255;

// The greatest magnitude that decoding can write.
const MOST_DECODED: u32 = 131071;

fn tone_of(pixel: u8) -> u32
    ensures { result ≡ 268435456 + pixel }
{
    BIAS + u32::from(pixel)
}

// The pixels as tones at the front of the workspace. By index, here and below: of what iter_mut wrote a proof knows nothing.
fn load_pixels(pixels: &[u8], work: &mut [u32])
    requires { length pixels.now ≤ length work.old }
    ensures { Loaded pixels.now work.old work.new }
{
    for (q, pixel) in pixels.iter().enumerate() {
        work[q] = tone_of(*pixel);
    }
}

// A tone as a pixel, set to the nearer end where it lies outside.
#[tactic(auto, using(crate::proofs::Laws::clip_tone))]
fn clipped_pixel(tone: u32) -> u8
    ensures { result ≡ clip (toned tone) }
{
    tone.saturating_sub(BIAS).min(GREATEST_PIXEL) as u8
}

#[tactic(auto, using(crate::proofs::Laws::outside_under, crate::proofs::Laws::outside_over))]
fn lies_outside(tone: u32) -> bool
    ensures { result ≡ outside (toned tone) }
{
    tone < BIAS || GREATEST_PIXEL < tone - BIAS
}

// Tones as pixels. Answers how many were set to the nearer end.
fn store_pixels(tones: &[u32], pixels: &mut [u8]) -> usize
    requires { length pixels.old ≡ length tones.now }
    ensures { (result ≡ clipped_in (map toned tones.now)) × (pixels.new ≡ map clip (map toned tones.now)) }
{
    let mut clipped = 0;
    for (q, tone) in tones.iter().enumerate() {
        pixels[q] = clipped_pixel(*tone);
        clipped += usize::from(lies_outside(*tone));
    }
    clipped
}

// What a size, the length of a pyramid and that of a workspace are refused for: 1, 2, 3 in this order.
#[tactic(auto, using(crate::proofs::Judged::area_fits), unfolding(crate::specs::Outcomes::judged_in))]
fn judged_in(z: Size, length: usize, work: usize) -> Result<(), Refusal>
    ensures { result ≡ judged_in z length work }
{
    if !shape::legal_size(z) {
        Err(Refusal::Size)
    } else if length != z.w * z.h {
        Err(Refusal::Length)
    } else if work < shape::work_for(z) {
        Err(Refusal::Work)
    } else {
        Ok(())
    }
}

// And 4 for a pyramid.
#[tactic(auto, unfolding(crate::specs::Outcomes::judged_out, crate::specs::Outcomes::unless_over))]
fn judged_out(pyramid: &[i32], z: Size, work: usize) -> Result<(), Refusal>
    ensures { result ≡ judged_out pyramid.now z work }
{
    judged_in(z, pyramid.len(), work)?;
    let over = coefficients::first_over(pyramid, MOST_DECODED);
    if over != pyramid.len() {
        return Err(Refusal::Range(over));
    }
    Ok(())
}

// The pyramid of the picture in a file. What a refusal leaves in the output counts for nothing.
fn lift(file: &[u8], n: usize, out: &mut [i32], work: &mut [u32]) -> Result<Sides, Refusal>
    ensures { WayIn file.now n out.old work.old result out.new }
{
    let Picture { w, h, at } = netpbm::read_grey(file).ok_or(Refusal::Grey)?;
    let z = Size { w, h, n };
    judged_in(z, out.len(), work.len())?;
    load_pixels(&file[at..at + z.w * z.h], work);
    lifting::split_picture(z, work, out);
    Ok(Sides { w: z.w, h: z.h })
}

// From a file to a pyramid.
pub fn grey_in(file: &[u8], n: usize, out: &mut [i32], work: &mut [u32]) -> Result<Sides, Refusal>
    ensures { GreyIn file.now n out.old work.old (as_grey_read result) out.new work.new }
{
    let lifted = lift(file, n, out, work);
    if lifted.is_err() {
        memory::zero(out);
    }
    memory::zero(work);
    lifted
}

// The lines in front of the pixels, in an output that is 0 behind them. Answers how many bytes they are.
#[tactic(auto, using(crate::proofs::Printing::sides_short))]
fn write_lines(z: Size, out: &mut [u8]) -> usize
    requires { legal_size z ≡ true }
    ensures { (result ≡ length (grey_lines z)) × (result ≤ 17) × (out.new ≡ sets (zeros (length out.old)) 0 (grey_lines z)) }
{
    memory::zero(out);
    netpbm::write_header(z, out)
}

// The pixels that a pyramid gives. Answers how many were set to the nearer end.
fn print_pixels(pyramid: &[i32], z: Size, pixels: &mut [u8], work: &mut [u32]) -> usize
    requires { Printing pyramid.now z work.old × (length pixels.old ≡ area z) }
    ensures { (result ≡ clipped_in (picture_of z pyramid.now)) × (pixels.new ≡ map clip (picture_of z pyramid.now)) }
{
    lifting::join_pyramid(z, pyramid, work);
    store_pixels(&work[..z.w * z.h], pixels)
}

// The file of the picture that a pyramid gives, where there is room for it. What a refusal leaves in the output counts for nothing.
fn print(pyramid: &[i32], z: Size, out: &mut [u8], work: &mut [u32]) -> Result<Printed, Refusal>
    ensures { WayBack pyramid.now z out.old work.old result out.new }
{
    judged_out(pyramid, z, work.len())?;
    let at = write_lines(z, out);
    let length = at + z.w * z.h;
    if out.len() < length {
        return Err(Refusal::Room);
    }
    let clipped = print_pixels(pyramid, z, &mut out[at..length], work);
    Ok(Printed { length, clipped })
}

// From a pyramid to a file.
pub fn grey_out(
    pyramid: &[i32],
    z: Size,
    out: &mut [u8],
    work: &mut [u32],
) -> Result<Printed, Refusal>
    ensures { GreyOut pyramid.now z out.old work.old (as_grey_written result) out.new work.new }
{
    let printed = print(pyramid, z, out, work);
    if printed.is_err() {
        memory::zero(out);
    }
    memory::zero(work);
    printed
}

// How large the picture in a file is, legal or not.
pub fn grey_size(file: &[u8]) -> Result<Sides, Refusal>
    ensures { GreySize file.now (as_grey_read result) }
{
    let Picture { w, h, .. } = netpbm::read_grey(file).ok_or(Refusal::Grey)?;
    Ok(Sides { w, h })
}
