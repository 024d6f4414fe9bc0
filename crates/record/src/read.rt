// Reading: a record's header, and the part that stands at a place, its body handed back as the portion of the caller's record that holds it.
ghost use Rattle.std.specs.Prelude.{◌≡◌, true, ◌+◌, ◌≤◌, length};
ghost use Rattle.rules.specs.Document.Layout.{bytes_for, body_of, bits_there, name_of};
ghost use Rattle.rules.specs.Document.Numbers.{judged_header, read_sizes, read_header, follows, legal_head, judged_part, read_part};
ghost use Rattle.rules.specs.Document.Pyramid.{legal_size};
ghost use Rattle.record.specs.Named.{named, header_fault, header_number, read_head};

use crate::Name;
use rules::{Header, Level, MOST_PLANES, NoNumber, Part, Piece, Plane, Refusal, Size, VERSION};

#[tactic(auto, unfolding(rules::specs::Document::Numbers::judged_header))]
fn judged_header(z: Size, planes: usize, end: usize) -> Result<Header, Refusal>
    ensures { result ≡ judged_header z planes end }
{
    if shape::legal_size(z) && planes <= MOST_PLANES {
        Ok(Header {
            size: z,
            planes,
            end,
        })
    } else {
        Err(Refusal::Size)
    }
}

// What a header is refused for where a number of it is none: a long form has a refusal of its own.
fn header_fault(why: NoNumber, at: usize) -> Refusal
    ensures { result ≡ header_fault at why }
{
    match why {
        NoNumber::LongForm => Refusal::LongForm(at),
        NoNumber::TooManyBytes | NoNumber::CutOff => Refusal::Head(at),
    }
}

fn header_number(bytes: &[u8], at: usize) -> Result<(usize, usize), Refusal>
    ensures { result ≡ header_number bytes.now at }
{
    numbers::read_number(bytes, at).map_err(|why| header_fault(why, at))
}

// Width, height, decomposition count and planes.
#[tactic(auto, unfolding(rules::specs::Document::Numbers::read_sizes, rules::specs::Document::Numbers::head_number))]
fn sizes(bytes: &[u8], at: usize) -> Result<Header, Refusal>
    ensures { result ≡ read_sizes bytes.now at }
{
    let (w, second) = header_number(bytes, at)?;
    let (h, third) = header_number(bytes, second)?;
    let (n, fourth) = header_number(bytes, third)?;
    let (planes, end) = header_number(bytes, fourth)?;
    judged_header(Size { w, h, n }, planes, end)
}

#[tactic(auto, unfolding(rules::specs::Document::Numbers::read_header, rules::specs::Document::Numbers::head_number))]
pub fn header(bytes: &[u8]) -> Result<Header, Refusal>
    ensures { result ≡ read_header bytes.now }
{
    let (version, at) = header_number(bytes, 0)?;
    if version == VERSION {
        sizes(bytes, at)
    } else {
        Err(Refusal::Version)
    }
}

// Whether a part comes after the one before it in the order: planes downward, levels downward in a plane.
#[tactic(auto, unfolding(rules::specs::Document::Numbers::follows, rules::specs::Document::Layout::name_of))]
fn comes_after(before: Name, p: Part) -> bool
    ensures { result ≡ follows (named before) (name_of p) }
{
    Name::from(p) < before
}

#[tactic(auto, using(crate::proofs::Laws::depth_small), unfolding(rules::specs::Document::Numbers::legal_head, rules::specs::Document::Layout::name_of))]
fn legal_head(h: Header, before: Name, p: Part) -> bool
    requires { legal_size h.size ≡ true }
    ensures { result ≡ legal_head h (named before) (name_of p) p.bits }
{
    p.plane.0 < h.planes
        && 1 <= p.level.0
        && p.level.0 <= h.size.n + 1
        && comes_after(before, p)
        && p.bits <= shape::most_bits(h.size)
}

// Where a part's body ends stands in the contracts below: theorems speak of any Part of the definitions, so that the type can't say it.

// The portion of the record that holds a part's body.
#[tactic(auto, unfolding(rules::specs::Document::Layout::body_of))]
pub fn body(bytes: &[u8], p: Part) -> &[u8]
    requires { (p.end ≡ p.body + bytes_for p.bits) × (p.end ≤ length bytes.now) }
    ensures { result.now ≡ body_of bytes.now p }
{
    &bytes[p.body..p.end]
}

// Of a part's body what is there: all of a whole part's, the first bytes of one that is cut.
#[tactic(auto, unfolding(rules::specs::Document::Layout::body_of))]
pub fn there(bytes: &[u8], p: Part) -> &[u8]
    requires { (p.end ≡ p.body + bytes_for p.bits) × (p.body ≤ length bytes.now) }
    ensures { result.now ≡ body_of bytes.now p }
{
    &bytes[p.body..p.end.min(bytes.len())]
}

// How many of a part's bits are there: eight for each byte, but no more than it has.
#[tactic(auto, unfolding(rules::specs::Document::Layout::bits_there))]
pub fn bits_there(bytes: &[u8], p: Part) -> usize
    requires { (p.end ≡ p.body + bytes_for p.bits) × (p.body ≤ length bytes.now) }
    ensures { result ≡ bits_there bytes.now p }
{
    p.bits.min(there(bytes, p).len().saturating_mul(8))
}

// A part whose head is read: at fault, whole, cut in its body, or with a padding bit set.
#[tactic(auto, unfolding(rules::specs::Document::Numbers::judged_part))]
fn judged_part(bytes: &[u8], h: Header, before: Name, p: Part) -> Result<Piece, Refusal>
    requires { (legal_size h.size ≡ true) × (p.end ≡ p.body + bytes_for p.bits) }
    ensures { result ≡ judged_part h bytes.now (named before) p }
{
    if !legal_head(h, before, p) {
        Err(Refusal::Part(p.place))
    } else if bytes.len() < p.end {
        Ok(Piece::Cut(p))
    } else if bits::padding_clear(body(bytes, p), p.bits) {
        Ok(Piece::Part(p))
    } else {
        Err(Refusal::Pad(p.place))
    }
}

// The part whose head stands at a place, by its three numbers.
#[tactic(auto, unfolding(rules::specs::Document::Numbers::headed))]
fn head(bytes: &[u8], place: usize) -> Result<Part, NoNumber>
    ensures { result ≡ read_head bytes.now place }
{
    let (n, second) = numbers::read_number(bytes, place)?;
    let (k, third) = numbers::read_number(bytes, second)?;
    let (bits, body) = numbers::read_number(bytes, third)?;
    Ok(Part {
        plane: Plane(n),
        level: Level(k),
        bits,
        place,
        body,
        end: body + bits.div_ceil(8),
    })
}

// The part that stands at a place, behind the one before it: too many bytes or a long form in its head refuse it, a head cut off leaves a tail.
#[tactic(auto, unfolding(rules::specs::Document::Numbers::read_part, rules::specs::Document::Numbers::part_number, rules::specs::Document::Numbers::headed))]
pub fn part(bytes: &[u8], h: Header, before: Name, place: usize) -> Result<Piece, Refusal>
    requires { legal_size h.size ≡ true }
    ensures { result ≡ read_part h bytes.now (named before) place }
{
    match head(bytes, place) {
        Ok(p) => judged_part(bytes, h, before, p),
        Err(NoNumber::TooManyBytes) => Err(Refusal::Part(place)),
        Err(NoNumber::LongForm) => Err(Refusal::LongForm(place)),
        Err(NoNumber::CutOff) => Ok(Piece::Tail),
    }
}
