// Binary grey files: the header of a file read, and that of a picture written.
#![tactic(auto)]

ghost use Rattle.std.specs.Prelude.{◌≡◌, true, ◌+◌, ◌-◌, ◌*◌, ◌^◌, ◌≤◌, ◌<◌, leb, length, get_or, MatchOption};
ghost use Rattle.pictures.specs.Document.Netpbm.{line_end, blank, gap_byte, digit, after_comment, after_gap, number};
ghost use Rattle.pictures.specs.Document.Netpbm.{last_blank, read_grey, told, decimal, grey_lines};
ghost use Rattle.netpbm.specs.Rests.{Rest, ToldOf, Missing, EndTold};
ghost use Rattle.netpbm.specs.Told.{Tells};
ghost use Rattle.netpbm.specs.Wrote.{Wrote, width_line, side_lines};

use pictures::Picture;
use rules::Size;

// What begins some bytes; with none there it is 0, which no header has: the definitions' get_or has it so, and no Option.
fn first_of(rest: &[u8]) -> u8
    ensures { result ≡ get_or rest.now 0 0 }
{
    rest.first().copied().unwrap_or(0)
}

#[tactic(auto, unfolding(pictures::specs::Document::Netpbm::line_end))]
fn is_line_end(b: u8) -> bool
    ensures { result ≡ line_end b }
{
    matches!(b, b'\n' | b'\r')
}

#[tactic(auto, unfolding(pictures::specs::Document::Netpbm::blank))]
fn is_blank(b: u8) -> bool
    ensures { result ≡ blank b }
{
    is_line_end(b) || matches!(b, b' ' | b'\t')
}

#[tactic(auto, unfolding(pictures::specs::Document::Netpbm::gap_byte))]
fn in_gap(b: u8) -> bool
    ensures { result ≡ gap_byte b }
{
    is_blank(b) || b == b'#'
}

#[tactic(auto, unfolding(pictures::specs::Document::Netpbm::digit))]
fn is_digit(b: u8) -> bool
    ensures { result ≡ digit b }
{
    b.is_ascii_digit()
}

// From inside a comment to the line end behind it.
fn past_comment(bytes: &[u8]) -> &[u8]
    ensures { result.now ≡ after_comment bytes.now }
{
    let mut rest = bytes;
    while let [b, behind @ ..] = rest {
        if is_line_end(*b) {
            break;
        }
        rest = behind;
    }
    rest
}

// Past all blanks and comments.
fn past_gap(bytes: &[u8]) -> &[u8]
    ensures { result.now ≡ after_gap bytes.now }
{
    let mut rest = bytes;
    while let [b, behind @ ..] = rest {
        if !in_gap(*b) {
            break;
        }
        rest = if *b == b'#' {
            past_comment(behind)
        } else {
            behind
        };
    }
    rest
}

// A value with one digit more, where that can be told.
#[tactic(auto, unfolding(pictures::specs::Document::Netpbm::told))]
fn with_digit(value: usize, digit: usize) -> usize
    requires { digit < 10 }
    ensures { result ≡ told (10 * value + digit) }
{
    value.saturating_mul(10).saturating_add(digit)
}

#[tactic(auto, unfolding(pictures::specs::Document::Netpbm::digit))]
fn digit_of(b: u8) -> usize
    requires { digit b ≡ true }
    ensures { (result ≡ b - 48) × (result < 10) }
{
    (b - b'0') as usize
}

// What digits are worth, and what is behind them. By hand: `parse` has no answer for a number that is told as the greatest.
fn read_digits(bytes: &[u8]) -> (usize, &[u8])
    ensures { (result.0 ≡ told (number 0 bytes.now).value) × (result.1.now ≡ (number 0 bytes.now).behind) }
{
    let mut rest = bytes;
    let mut value = 0;
    while let [b, behind @ ..] = rest {
        if !is_digit(*b) {
            break;
        }
        value = with_digit(value, digit_of(*b));
        rest = behind;
    }
    (value, rest)
}

// A gap and a number behind it.
fn read_number(rest: &[u8]) -> Option<(usize, &[u8])>
    ensures { MatchOption result (Missing rest.now) (λ n. ToldOf rest.now n.0 n.1.now) }
{
    if !in_gap(first_of(rest)) {
        return None;
    }
    let digits = past_gap(rest);
    if !is_digit(first_of(digits)) {
        return None;
    }
    Some(read_digits(digits))
}

// To the one blank behind the maxval: past a comment that stands there.
fn last_blank(rest: &[u8]) -> &[u8]
    ensures { result.now ≡ last_blank rest.now }
{
    if first_of(rest) == b'#' {
        past_comment(rest)
    } else {
        rest
    }
}

// Whether so many bytes hold width x height pixels. The product is not formed: it may be too large.
fn are_there(width: usize, height: usize, bytes: usize) -> bool
    ensures { result ≡ leb (width * height) bytes }
{
    height == 0 || width <= bytes / height
}

// The end of a header whose numbers were read, and the pixels behind it.
fn read_end(file: &[u8], w: usize, h: usize, rest: &[u8]) -> Option<Picture>
    requires { Rest file.now rest.now }
    ensures { EndTold file.now w h rest.now result }
{
    let [b, pixels @ ..] = last_blank(rest) else {
        return None;
    };
    if !is_blank(*b) {
        return None;
    }
    if !are_there(w, h, pixels.len()) {
        return None;
    }
    let at = file.len() - pixels.len();
    Some(Picture { w, h, at })
}

pub fn read_grey(file: &[u8]) -> Option<Picture>
    ensures { Tells file.now (read_grey file.now) result }
{
    let sides = file.strip_prefix(b"P5")?;
    let (w, rest) = read_number(sides)?;
    let (h, rest) = read_number(rest)?;
    let (greatest, rest) = read_number(rest)?;
    if greatest != 255 {
        return None;
    }
    read_end(file, w, h, rest)
}

// Writes a number from a place on, as far as the slice reaches, and answers the place after it. By hand: what doesn't fit is left out and still counted.
fn write_decimal(out: &mut [u8], at: usize, value: usize) -> usize
    requires { (value < 10000) × (at < 2 ^ 32) }
    ensures { Wrote (decimal value) at 4 out.old result out.new }
{
    let place = if value < 10 {
        at
    } else {
        write_decimal(out, at, value / 10)
    };
    memory::copy(&[b'0' + (value % 10) as u8], 0, 1, out, place);
    place + 1
}

fn write_width(out: &mut [u8], width: usize) -> usize
    requires { width < 10000 }
    ensures { Wrote (width_line width) 0 7 out.old result out.new }
{
    memory::copy(b"P5\n", 0, 3, out, 0);
    write_decimal(out, 3, width)
}

fn write_sides(z: Size, out: &mut [u8]) -> usize
    requires { (z.w < 10000) × (z.h < 10000) }
    ensures { Wrote (side_lines z) 0 12 out.old result out.new }
{
    let behind_width = write_width(out, z.w);
    memory::copy(b" ", 0, 1, out, behind_width);
    write_decimal(out, behind_width + 1, z.h)
}

// Writes the lines in front of the pixels, as far as the slice reaches, and answers how many bytes they are.
pub fn write_header(z: Size, out: &mut [u8]) -> usize
    requires { (z.w < 10000) × (z.h < 10000) }
    ensures { Wrote (grey_lines z) 0 17 out.old result out.new }
{
    let behind_height = write_sides(z, out);
    memory::copy(b"\n255\n", 0, 5, out, behind_height);
    behind_height + 5
}
