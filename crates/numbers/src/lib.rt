// Numbers of a record: groups of seven bits, lowest group first, at most four bytes, shortest form only.
#![tactic(auto)]

ghost use Rattle.std.specs.Prelude.{◌≡◌, ◌+◌, ◌*◌, ◌^◌, ◌≤◌, ◌<◌, length, set};
ghost use Rattle.std.proofs.lemmas.List.Edits.{sets};
ghost use Rattle.rules.specs.Document.Layout.{number_bytes, read_number};
ghost use Rattle.rules.specs.Laws.Bytes.Numbers.{too_large};
ghost use Rattle.numbers.specs.LastByte.{last_byte};

use rules::NoNumber;

const MOST_BYTES: usize = 4;

// The value so far with a group of seven bits that is worth so much.
fn with_group(value: usize, worth: usize, group: usize) -> usize
    requires { (value < worth) × (worth * 128 ≤ too_large) × (group < 128) }
    ensures { (result ≡ value + group * worth) × (result < worth * 128) }
{
    value + group * worth
}

// What the last byte makes of a number: of several bytes the last may not be 0.
fn last_byte(
    value: usize,
    worth: usize,
    byte: usize,
    end: usize,
) -> Result<(usize, usize), NoNumber>
    requires { (value < worth) × (worth * 128 ≤ too_large) × (byte < 128) }
    ensures { result ≡ last_byte value worth byte end }
{
    if 1 < worth && byte == 0 {
        Err(NoNumber::LongForm)
    } else {
        Ok((with_group(value, worth, byte), end))
    }
}

// The number that stands at a place: its value, and the place after it.
pub fn read_number(bytes: &[u8], at: usize) -> Result<(usize, usize), NoNumber>
    ensures { result ≡ read_number bytes.now at }
{
    let mut worth = 1;
    let mut value = 0;
    // Counted by hand: a range of places from `at` may not fit, since the contract takes every `at`.
    let mut place = at;
    for _ in 0..MOST_BYTES {
        let Some(&byte) = bytes.get(place) else {
            return Err(NoNumber::CutOff);
        };
        let byte = usize::from(byte);
        place += 1;
        if byte < 128 {
            return last_byte(value, worth, byte, place);
        }
        value = with_group(value, worth, byte - 128);
        worth *= 128;
    }
    Err(NoNumber::TooManyBytes)
}

// How many bytes a number takes.
pub fn number_length(value: usize) -> usize
    ensures { result ≡ length (number_bytes value) }
{
    if value < 128 {
        1
    } else if value < 16384 {
        2
    } else if value < 2097152 {
        3
    } else {
        4
    }
}

// Past the end nothing is stored.
fn store(out: &mut [u8], at: usize, byte: u8)
    ensures { out.new ≡ set out.old at byte }
{
    if at < out.len() {
        out[at] = byte;
    }
}

// Writes a number from a place on, as far as the slice reaches, and answers the place after it.
pub fn write_number(out: &mut [u8], at: usize, value: usize) -> usize
    requires { (value < too_large) × (at < 2 ^ 62) }
    ensures { (result ≡ at + length (number_bytes value)) × (out.new ≡ sets out.old at (number_bytes value)) }
{
    // Counted by hand: the loop ends by what is left, and to count the bytes first for a range is no plainer.
    let mut place = at;
    let mut rest = value;
    while 128 <= rest {
        store(out, place, (rest % 128 + 128) as u8);
        place += 1;
        rest /= 128;
    }
    store(out, place, rest as u8);
    place + 1
}
