// Decoding: from any bytes to a pyramid or a refusal, in one walk over the parts of the record, with exactly those that are usable. The walk draws in
// the workspace; the pyramid is laid out at its end.
#![tactic(auto)]

ghost use Rattle.std.specs.Prelude.{length};
ghost use Rattle.rules.specs.Document.Numbers.{read_parts};
ghost use Rattle.rules.specs.Document.Calls.{decoding, Decoding, decoded_parts};
ghost use Rattle.rules.specs.Document.Answers.{as_decoded};
ghost use Rattle.placing.specs.Placing.{Roomy};
ghost use Rattle.decoder.specs.Walking.{Begun, Drawing, Drawn, Taking, Taken, decoded_part, met_part, Ended, drawn_cut, met_cut};
ghost use Rattle.decoder.specs.Walking.{Standing, Turned, Walking, Walked};
ghost use Rattle.decoder.specs.Walking.{Lent, Decided};

use bits::BitPosition;
use lists::Role;
use parts::{Counts, Passed};
use record::read;
use record::walk::Cursor;
use rules::{Header, LEVEL_PLACES, Part, Piece, Plane, Reach, Refusal, Size};

// Where the walk stands between two parts, the plane that each level reached, level 1 first, how many of its parts were skipped, and how full the
// lists are.
#[derive(Clone, Copy)]
pub struct Walk {
    pub cursor: Cursor,
    // Two arrays, and no array of pairs, as decoding's answer tells them: the planes, then the counts.
    pub reached: [Plane; LEVEL_PLACES],
    pub skipped: [usize; LEVEL_PLACES],
    pub counts: Counts,
}

// Before the first part.
fn first_walk(h: Header, work: &mut [u32]) -> Walk
    requires { Roomy h.size work.old }
    ensures { Begun h work.old result work.new }
{
    Walk {
        cursor: Cursor::first(h),
        reached: reached::none_reached(h),
        skipped: [0; LEVEL_PLACES],
        counts: parts::start(Role::Reads, h.size, work),
    }
}

// A part is decoded as far as its bits are there: a whole one to its end.
fn draw(bytes: &[u8], z: Size, p: Part, counts: Counts, work: &mut [u32]) -> Passed
    requires { Drawing bytes.now z p counts work.old }
    ensures { Drawn bytes.now z p counts work.old result work.new }
{
    let until = BitPosition {
        at: read::bits_there(bytes, p),
    };
    let body = read::there(bytes, p);
    parts::decode_part(body, until, z, p.plane, p.level, work, counts)
}

// A usable part is decoded; its bits have to be just those that its pass asks for.
#[tactic(auto, unfolding(crate::specs::Walking::used_on, crate::specs::Walking::gone, crate::specs::Walking::fitting, rules::specs::Document::Layout::name_of))]
fn decode_usable(
    bytes: &[u8],
    z: Size,
    p: Part,
    walk: Walk,
    work: &mut [u32],
) -> Result<Walk, Refusal>
    requires { Taking bytes.now z p walk work.old }
    ensures { Taken z p (decoded_part bytes.now z p walk work.old) work.old result work.new }
{
    let passed = draw(bytes, z, p, walk.counts, work);
    if passed.at.at != p.bits {
        return Err(Refusal::Fit(p.place));
    }
    Ok(Walk {
        cursor: Cursor::past(p),
        reached: reached::with_reached(walk.reached, p.plane, p.level),
        counts: passed.counts,
        ..walk
    })
}

// A whole part: decoded if it is usable, else walked over and counted.
#[tactic(auto, unfolding(crate::specs::Walking::met_on, rules::specs::Document::Layout::name_of))]
fn take_part(bytes: &[u8], z: Size, p: Part, walk: Walk, work: &mut [u32]) -> Result<Walk, Refusal>
    requires { Taking bytes.now z p walk work.old }
    ensures { Taken z p (met_part bytes.now z p walk work.old) work.old result work.new }
{
    if reached::is_usable(walk.reached, p.plane, p.level) {
        return decode_usable(bytes, z, p, walk, work);
    }
    Ok(Walk {
        cursor: Cursor::past(p),
        skipped: reached::with_skipped(walk.skipped, p.level),
        ..walk
    })
}

// A usable part that is cut is decoded as far as its bits go. Those that are there have to be asked for, every one.
#[tactic(auto, unfolding(crate::specs::Walking::cut_gone, rules::specs::Document::Layout::name_of))]
fn decode_cut(bytes: &[u8], z: Size, p: Part, walk: Walk, work: &mut [u32]) -> Result<(), Refusal>
    requires { Taking bytes.now z p walk work.old }
    ensures { Ended z (drawn_cut bytes.now z p walk work.old) work.old result work.new }
{
    let passed = draw(bytes, z, p, walk.counts, work);
    if passed.at.at < read::bits_there(bytes, p) {
        return Err(Refusal::Fit(p.place));
    }
    Ok(())
}

// A part that is cut: decoded if it is usable, else left as a tail.
#[tactic(auto, unfolding(crate::specs::Walking::cut_on, rules::specs::Document::Layout::name_of))]
fn take_cut(bytes: &[u8], z: Size, p: Part, walk: Walk, work: &mut [u32]) -> Result<(), Refusal>
    requires { Taking bytes.now z p walk work.old }
    ensures { Ended z (met_cut bytes.now z p walk work.old) work.old result work.new }
{
    if !reached::is_usable(walk.reached, p.plane, p.level) {
        return Ok(());
    }
    decode_cut(bytes, z, p, walk, work)
}

// One turn: the walk behind the next part, or none where it ends, at a tail or with a part that is cut.
fn walk_on(bytes: &[u8], h: Header, walk: Walk, work: &mut [u32]) -> Result<Option<Walk>, Refusal>
    requires { Standing h bytes.now walk work.old }
    ensures { Turned h bytes.now walk work.old result work.new }
{
    match walk.cursor.next(bytes, h)? {
        Piece::Part(p) => {
            let next = take_part(bytes, h.size, p, walk, work)?;
            Ok(Some(next))
        }
        Piece::Cut(p) => {
            take_cut(bytes, h.size, p, walk, work)?;
            Ok(None)
        }
        Piece::Tail => Ok(None),
    }
}

// All parts from where a walk stands. The first fault decides.
fn walk_all(bytes: &[u8], h: Header, first: Walk, work: &mut [u32]) -> Result<Walk, Refusal>
    requires { Walking h bytes.now first work.old }
    ensures { Walked h bytes.now result work.new }
{
    let mut walk = first;
    while let Some(next) = walk_on(bytes, h, walk, work)? {
        walk = next;
    }
    Ok(walk)
}

// All parts, from the header's end on: at first every coefficient is 0.
fn decode_parts(
    bytes: &[u8],
    h: Header,
    out: &mut [i32],
    work: &mut [u32],
) -> Result<Reach, Refusal>
    requires { Lent h bytes.now out.old work.old }
    ensures { Decided (decoded_parts h bytes.now (read_parts h bytes.now)) result out.new }
{
    placing::clear(h.size, work);
    let first = first_walk(h, work);
    let Walk {
        cursor,
        reached,
        skipped,
        ..
    } = walk_all(bytes, h, first, work)?;
    placing::lay_out(h.size, work, out);
    let tail = bytes.len() - cursor.place;
    Ok(Reach {
        tail,
        reached,
        skipped,
    })
}

// The outcome, with the workspace as the walk leaves it, and on a refusal the pyramid as it was lent.
#[tactic(auto, unfolding(rules::specs::Document::Calls::decoding, rules::specs::Document::Calls::on_header, rules::specs::Document::Calls::unless))]
fn decode_or_refuse(bytes: &[u8], out: &mut [i32], work: &mut [u32]) -> Result<Reach, Refusal>
    ensures { Decided (decoding bytes.now (length out.old) (length work.old)) result out.new }
{
    let h = read::header(bytes)?;
    if out.len() != h.size.w * h.size.h {
        return Err(Refusal::Length);
    }
    if work.len() < shape::work_for(h.size) {
        return Err(Refusal::Work);
    }
    decode_parts(bytes, h, out, work)
}

// From any bytes to a pyramid or a refusal. Workspace: all 0 after every call. Refused: pyramid all 0.
#[tactic(auto, unfolding(rules::specs::Document::Answers::as_decoded, rules::specs::Document::Calls::decode_answer, rules::specs::Document::Calls::decode_out))]
pub fn decode(bytes: &[u8], out: &mut [i32], work: &mut [u32]) -> Result<Reach, Refusal>
    ensures { Decoding bytes.now out.old work.old (as_decoded result) out.new work.new }
{
    let decoded = decode_or_refuse(bytes, out, work);
    if decoded.is_err() {
        memory::zero(out);
    }
    memory::zero(work);
    decoded
}
