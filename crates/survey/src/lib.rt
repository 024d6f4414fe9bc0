// What a record holds, judged as serving it whole judges it: what afs_survey answers, and what partlist decides before it prints.
#![tactic(auto)]

ghost use Rattle.std.specs.Prelude.{◌≡◌};
ghost use Rattle.rules.specs.Document.Numbers.{read_header, read_parts};
ghost use Rattle.survey.specs.Surveyed.{as_survey, walked_with, survey_of, listed_of, part_at};

use record::read;
use record::walk::Cursor;
use rules::{Header, Piece, Refusal};

// The longest input that partlist takes.
pub const LONGEST: usize = 16384;

// The length of what afs_survey answers.
pub const SURVEY_PLACES: usize = 8;

// Of a record in order: its header, how many whole parts it has, and the length of the tail.
#[derive(Clone, Copy)]
pub struct Contents {
    pub header: Header,
    pub parts: usize,
    pub tail: usize,
}

fn walk(bytes: &[u8], header: Header) -> Result<Contents, Refusal>
    requires { read_header bytes.now ≡ Ok header }
    ensures { as_survey result ≡ walked_with header (read_parts header bytes.now) }
{
    let mut cursor = Cursor::first(header);
    let mut parts = 0;
    while let Piece::Part(p) = cursor.next(bytes, header)? {
        cursor = Cursor::past(p);
        parts += 1;
    }
    let tail = bytes.len() - cursor.place;
    Ok(Contents {
        header,
        parts,
        tail,
    })
}

#[tactic(auto, unfolding(crate::specs::Surveyed::survey_of, crate::specs::Surveyed::as_survey))]
pub fn survey_of(bytes: &[u8]) -> Result<Contents, Refusal>
    ensures { as_survey result ≡ survey_of bytes.now }
{
    walk(bytes, read::header(bytes)?)
}

// What partlist decides of its input.
#[tactic(auto, using(std::proofs::lemmas::Bool::Decides::nat_tests), unfolding(crate::specs::Surveyed::listed_of, crate::specs::Surveyed::as_survey))]
pub fn listed(bytes: &[u8]) -> Result<Contents, Refusal>
    ensures { as_survey result ≡ listed_of bytes.now }
{
    if LONGEST < bytes.len() {
        return Err(Refusal::Room);
    }
    survey_of(bytes)
}

// What stands at a cursor: what partlist prints one after the other.
#[tactic(auto, using(record::specs::Walk::found_legal), unfolding(crate::specs::Surveyed::part_at))]
pub fn part_at(bytes: &[u8], cursor: Cursor) -> Result<Piece, Refusal>
    ensures { result ≡ part_at bytes.now cursor }
{
    let header = read::header(bytes)?;
    cursor.next(bytes, header)
}
