// Joining two records into one with all parts of either, in order, without decoding them.
#![tactic(auto)]

ghost use Rattle.std.specs.Prelude.{◌≡◌, true, ◌+◌, ◌-◌, ◌^◌, ◌<◌, length, MatchResult};
ghost use Rattle.rules.specs.Document.Pyramid.{legal_size};
ghost use Rattle.rules.specs.Document.Passes.{part_names};
ghost use Rattle.rules.specs.Document.Numbers.{top_level};
ghost use Rattle.rules.specs.Document.Answers.{as_coded};
ghost use Rattle.record.specs.Named.{name_by};
ghost use Rattle.record.specs.Walk.{next_of};
ghost use Rattle.joins.specs.Document.Joining.{Joining};
ghost use Rattle.joiner.specs.Ahead.{offer_of, count_of, Alike, Differs, Copied, Appended, Before, AfterTurn};
ghost use Rattle.joiner.specs.Ahead.{Ahead, BeforePlane, AfterPlane, BothRead, Answered};

use record::walk::Cursor;
use rules::{Header, Level, Part, Piece, Plane, Refusal};

// How far a join is: where each record is read on, and how many bytes there are so far, written or past the end of the output.
#[derive(Clone, Copy)]
pub struct Joint {
    pub one: Cursor,
    pub two: Cursor,
    pub written: usize,
}

// The next part of a record, if it has this name.
#[tactic(auto, unfolding(rules::specs::Document::Layout::same_name, rules::specs::Document::Layout::name_of))]
fn offered(bytes: &[u8], h: Header, hand: Cursor, plane: Plane, level: Level) -> Option<Part>
    requires { legal_size h.size ≡ true }
    ensures { result ≡ offer_of (name_by plane level) (next_of h bytes.now hand) }
{
    match hand.next(bytes, h) {
        Ok(Piece::Part(p)) if p.plane == plane && p.level == level => Some(p),
        _ => None,
    }
}

// How many bytes a part has.
fn len(p: Part) -> usize
    ensures { result ≡ p.end - p.place }
{
    p.end.saturating_sub(p.place)
}

// Copies a part behind what was written, and answers the length with it; `written` is no slice's length, as it counts on past the end of `out`.
// Of server's keep this is the second half: there a part is first asked for.
fn keep(bytes: &[u8], p: Part, out: &mut [u8], written: usize) -> usize
    requires { written + (p.end - p.place) < 2 ^ 64 }
    ensures { Copied bytes.now (Some p) out.old written result out.new }
{
    memory::copy(bytes, p.place, len(p), out, written);
    written + len(p)
}

// Two records with one header, joined name by name. What is ahead is no invariant of theirs: it speaks of the output too, which each step is lent.
#[derive(Clone, Copy)]
struct Pair<'a> {
    first: &'a [u8],
    second: &'a [u8],
    h: Header,
}

impl Pair<'_> {
    // A part that both records have must be the same in both.
    fn agree(self, mine: Option<Part>, theirs: Option<Part>) -> Result<(), Refusal>
        ensures { MatchResult result
            (λ _. Alike self.entry.first.now mine self.entry.second.now theirs)
            (λ why. Differs self.entry.first.now mine self.entry.second.now theirs why) }
    {
        if let (Some(p), Some(q)) = (mine, theirs) {
            if !memory::same(self.first, p.place, len(p), self.second, q.place, len(q)) {
                return Err(Refusal::Clash(p.place));
            }
        }
        Ok(())
    }

    // Copies the first record's part, else the second's, behind what was written, and answers the length with it.
    fn append(
        self,
        mine: Option<Part>,
        theirs: Option<Part>,
        out: &mut [u8],
        written: usize,
    ) -> usize
        requires { (written + count_of mine < 2 ^ 64) × (written + count_of theirs < 2 ^ 64) }
        ensures { Appended self.entry.first.now mine self.entry.second.now theirs out.old written result out.new }
    {
        match (mine, theirs) {
            (Some(p), _) => keep(self.first, p, out, written),
            (None, Some(q)) => keep(self.second, q, out, written),
            (None, None) => written,
        }
    }

    // One name: the part of the first record, else that of the second; where both have one, they must be the same.
    fn turn(
        self,
        joint: Joint,
        plane: Plane,
        level: Level,
        out: &mut [u8],
    ) -> Result<Joint, Refusal>
        requires { Before self.first.now self.second.now self.h plane level joint out.old }
        ensures { AfterTurn self.entry.first.now self.entry.second.now self.entry.h plane level out.old result out.new }
    {
        let mine = offered(self.first, self.h, joint.one, plane, level);
        let theirs = offered(self.second, self.h, joint.two, plane, level);
        self.agree(mine, theirs)?;
        let written = self.append(mine, theirs, out, joint.written);
        let one = mine.map_or(joint.one, Cursor::past);
        let two = theirs.map_or(joint.two, Cursor::past);
        Ok(Joint { one, two, written })
    }

    // All names of a plane.
    fn one_plane(self, joint: Joint, plane: Plane, out: &mut [u8]) -> Result<Joint, Refusal>
        requires { BeforePlane self.first.now self.second.now self.h plane joint out.old }
        ensures { AfterPlane self.entry.first.now self.entry.second.now self.entry.h plane.0 out.old result out.new }
    {
        let mut now = joint;
        for level in (1..=self.h.size.n + 1).rev() {
            now = self.turn(now, plane, Level(level), out)?;
        }
        Ok(now)
    }

    // All names.
    fn all_planes(self, joint: Joint, out: &mut [u8]) -> Result<Joint, Refusal>
        requires { Ahead self.first.now self.second.now self.h (length out.old) (part_names (top_level self.h) self.h.planes) joint out.old }
        ensures { AfterPlane self.entry.first.now self.entry.second.now self.entry.h 0 out.old result out.new }
    {
        let mut now = joint;
        for plane in (0..self.h.planes).rev() {
            now = self.one_plane(now, Plane(plane), out)?;
        }
        Ok(now)
    }
}

// Joining two records that were read: their headers, the parts they share, at the very end the room.
fn join_read(
    first: &[u8],
    h: Header,
    second: &[u8],
    other: Header,
    out: &mut [u8],
) -> Result<usize, Refusal>
    requires { BothRead first.now second.now h other }
    ensures { Answered first.now second.now out.old result out.new }
{
    if !memory::same(first, 0, h.end, second, 0, other.end) {
        return Err(Refusal::Mixed);
    }
    memory::zero(out);
    memory::copy(first, 0, h.end, out, 0);
    let start = Cursor::first(h);
    let joint = Joint {
        one: start,
        two: start,
        written: h.end,
    };
    let joined = Pair { first, second, h }.all_planes(joint, out)?;
    if out.len() < joined.written {
        return Err(Refusal::Room);
    }
    Ok(joined.written)
}

fn join_or_refuse(first: &[u8], second: &[u8], out: &mut [u8]) -> Result<usize, Refusal>
    ensures { Answered first.now second.now out.old result out.new }
{
    let one = survey::survey_of(first)?;
    let two = survey::survey_of(second)?;
    join_read(first, one.header, second, two.header, out)
}

// A refusal leaves nothing of what was written before it.
pub fn join(first: &[u8], second: &[u8], out: &mut [u8]) -> Result<usize, Refusal>
    ensures { Joining first.now second.now out.old (as_coded result) out.new }
{
    let joined = join_or_refuse(first, second, out);
    if joined.is_err() {
        memory::zero(out);
    }
    joined
}
