// Serving: the header and the parts with a level and a plane of at least those asked for, copied without being decoded.
#![tactic(auto)]

ghost use Rattle.std.specs.Prelude.{◌≡◌};
ghost use Rattle.rules.specs.Document.Numbers.{read_header};
ghost use Rattle.rules.specs.Document.Calls.{Serving, legal_ask};
ghost use Rattle.rules.specs.Document.Answers.{as_served};
ghost use Rattle.server.specs.Walk.{Copies, Kept, Begun, Walked, Answered};

use record::read;
use record::walk::Cursor;
use rules::{Extent, Header, Level, Part, Piece, Plane, Refusal};

#[tactic(auto, using(std::proofs::lemmas::Bool::Decides::nat_tests), unfolding(rules::specs::Document::Calls::legal_ask))]
fn legal_ask(h: Header, level: Level, plane: Plane) -> bool
    ensures { result ≡ legal_ask h level.0 plane.0 }
{
    1 <= level.0 && level.0 - 1 <= h.size.n && plane.0 <= h.planes
}

// Copies a part that is asked for behind what was written, and answers the length with it.
fn keep(
    bytes: &[u8],
    part: Part,
    level: Level,
    plane: Plane,
    out: &mut [u8],
    written: usize,
) -> usize
    requires { Copies bytes.now part written }
    ensures { Kept bytes.now part level plane out.old written result out.new }
{
    // By the numbers, as legal_ask and the definitions judge a request.
    if part.level.0 < level.0 || part.plane.0 < plane.0 {
        return written;
    }
    let count = part.end - part.place;
    memory::copy(bytes, part.place, count, out, written);
    written + count
}

// Walks over the parts, keeping those asked for behind the header.
fn walk(
    bytes: &[u8],
    h: Header,
    level: Level,
    plane: Plane,
    out: &mut [u8],
) -> Result<Extent, Refusal>
    requires { Begun bytes.now h out.old }
    ensures { Walked bytes.now h level plane out.old result out.new }
{
    let mut cursor = Cursor::first(h);
    let mut length = h.end;
    while let Piece::Part(p) = cursor.next(bytes, h)? {
        length = keep(bytes, p, level, plane, out, length);
        cursor = Cursor::past(p);
    }
    let tail = bytes.len() - cursor.place;
    Ok(Extent { length, tail })
}

// Serving a record whose header was read: the request, the parts, at the very end the room.
fn serve_parts(
    bytes: &[u8],
    h: Header,
    level: Level,
    plane: Plane,
    out: &mut [u8],
) -> Result<Extent, Refusal>
    requires { read_header bytes.now ≡ Ok h }
    ensures { Answered bytes.now level plane out.old result out.new }
{
    if !legal_ask(h, level, plane) {
        return Err(Refusal::Ask);
    }
    memory::zero(out);
    memory::copy(bytes, 0, h.end, out, 0);
    let served = walk(bytes, h, level, plane, out)?;
    if out.len() < served.length {
        return Err(Refusal::Room);
    }
    Ok(served)
}

fn serve_or_refuse(
    bytes: &[u8],
    level: Level,
    plane: Plane,
    out: &mut [u8],
) -> Result<Extent, Refusal>
    ensures { Answered bytes.now level plane out.old result out.new }
{
    let h = read::header(bytes)?;
    serve_parts(bytes, h, level, plane, out)
}

// A refusal leaves nothing of what was written before it. Each public routine ends so: what was lent differs in count and types from one to the next.
pub fn serve(bytes: &[u8], level: Level, plane: Plane, out: &mut [u8]) -> Result<Extent, Refusal>
    ensures { Serving bytes.now level.0 plane.0 out.old (as_served result) out.new }
{
    let served = serve_or_refuse(bytes, level, plane, out);
    if served.is_err() {
        memory::zero(out);
    }
    served
}
