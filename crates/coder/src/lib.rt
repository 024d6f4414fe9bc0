// The coder: from a lent pyramid to its record, written from the front of the output on. What would fall past the end of the output is left
// out while the length goes on counting; at the end the length decides.
#![tactic(auto)]

ghost use Rattle.std.specs.Prelude.{◌≡◌, [], ◌∷◌, ◌*◌, ◌≤◌, ◌<◌, length, nat_abs};
ghost use Rattle.rules.specs.Document.Notation.{greatest, zeros};
ghost use Rattle.rules.specs.Document.Pyramid.{levels, most_planes, planes_of};
ghost use Rattle.rules.specs.Document.Passes.{parts_of_plane, part_names};
ghost use Rattle.rules.specs.Document.Layout.{record_of};
ghost use Rattle.rules.specs.Document.Calls.{level_places, fitted, coding, Coding};
ghost use Rattle.rules.specs.Document.Answers.{as_coded};
ghost use Rattle.trees.specs.Run.{tree_start};
ghost use Rattle.parts.specs.Standing.{named};
ghost use Rattle.coder.specs.Writing.{Answered, judged_input, Given, Holding, header_most};
ghost use Rattle.coder.specs.Writing.{stage_of, Clear, Going, Due, Reached, bytes_of_parts, Stored};

use bits::BitPosition;
use lists::Role;
use parts::Counts;
use record::write;
use rules::{Level, Plane, Refusal, Size};

const MOST_MAGNITUDE: u32 = 65535;

// Between parts: how full the lists are, and the place of the next part. Size, output and workspace stay parameters: each part lends them on one by one.
#[derive(Clone, Copy)]
struct Progress {
    counts: Counts,
    place: usize,
}

// What the input alone is refused for: 1, 2, 3, 4 in this order. grey's judged_out has another limit; a crate over both shape and coefficients, which know
// nothing of each other, would hold this one function.
#[tactic(auto, unfolding(crate::specs::Writing::judged_input))]
fn judged(pyramid: &[i32], z: Size, work: usize) -> Result<(), Refusal>
    ensures { result ≡ judged_input pyramid.now z work }
{
    if !shape::legal_size(z) {
        return Err(Refusal::Size);
    }
    if pyramid.len() != z.w * z.h {
        return Err(Refusal::Length);
    }
    if work < shape::work_for(z) {
        return Err(Refusal::Work);
    }
    let over = coefficients::first_over(pyramid, MOST_MAGNITUDE);
    if over != pyramid.len() {
        return Err(Refusal::Range(over));
    }
    Ok(())
}

fn planes_in(pyramid: &[i32]) -> usize
    ensures { result ≡ planes_of (greatest nat_abs pyramid.now) }
{
    coefficients::planes_of(coefficients::largest_magnitude(pyramid))
}

// One part, at its place: body first, since its bit count is known only then.
fn write_part(
    z: Size,
    plane: Plane,
    level: Level,
    out: &mut [u8],
    work: &mut [u32],
    progress: Progress,
) -> Progress
    requires { Due z plane level work.old progress.counts (stage_of z work.old progress out.old) }
    ensures { Reached z (named plane level ∷ []) work.old (stage_of z work.old progress out.old)
        result work.new out.new }
{
    let start = 8 * (progress.place + write::SHORT_HEAD);
    let passed = parts::code_part(
        z,
        plane,
        level,
        work,
        progress.counts,
        out,
        BitPosition { at: start },
    );
    let place = write::put_head(out, progress.place, plane, level, passed.at.at - start);
    Progress {
        counts: passed.counts,
        place,
    }
}

// The parts of a plane, levels downward.
fn write_plane(
    z: Size,
    plane: Plane,
    out: &mut [u8],
    work: &mut [u32],
    progress: Progress,
) -> Progress
    requires { Holding z work.old progress.counts × (plane.0 < most_planes) × Going z level_places (stage_of z work.old progress out.old) }
    ensures { Reached z (parts_of_plane plane.0 (levels z)) work.old (stage_of z work.old progress out.old)
        result work.new out.new }
{
    let mut reached = progress;
    for level in (1..=z.n + 1).rev() {
        reached = write_part(z, plane, Level(level), out, work, reached);
    }
    reached
}

// All parts, planes downward.
fn write_planes(
    z: Size,
    planes: usize,
    out: &mut [u8],
    work: &mut [u32],
    progress: Progress,
) -> Progress
    requires { Holding z work.old progress.counts × (planes ≤ most_planes) × Going z (level_places * planes) (stage_of z work.old progress out.old) }
    ensures { Reached z (part_names (levels z) planes) work.old (stage_of z work.old progress out.old)
        result work.new out.new }
{
    let mut reached = progress;
    for plane in (0..planes).rev() {
        reached = write_plane(z, Plane(plane), out, work, reached);
    }
    reached
}

// All parts of an input that is in order, from a place on from which the output is 0. Answers the place after them.
fn write_parts(
    pyramid: &[i32],
    z: Size,
    planes: usize,
    out: &mut [u8],
    work: &mut [u32],
    place: usize,
) -> usize
    requires { Given pyramid.now z work.old × (planes ≤ most_planes) × Clear out.old place × (place ≤ header_most) }
    ensures { Stored out.old place (bytes_of_parts pyramid.now z (part_names (levels z) planes) (tree_start z)) result out.new }
{
    placing::copy_in(pyramid, z, work);
    largest::fill(z, work);
    let counts = parts::start(Role::Codes, z, work);
    write_planes(z, planes, out, work, Progress { counts, place }).place
}

// The whole record of an input that is in order, as much of it as there is room for. Answers its length.
fn write_record(pyramid: &[i32], z: Size, out: &mut [u8], work: &mut [u32]) -> usize
    requires { Given pyramid.now z work.old }
    ensures { Stored (zeros (length out.old)) 0 (record_of z pyramid.now) result out.new }
{
    memory::zero(out);
    let planes = planes_in(pyramid);
    let place = write::header(z, planes, out);
    write_parts(pyramid, z, planes, out, work, place)
}

// Coding an input that is in order: only room can be wanting.
fn code_fitted(pyramid: &[i32], z: Size, out: &mut [u8], work: &mut [u32]) -> Result<usize, Refusal>
    requires { Given pyramid.now z work.old }
    ensures { Answered (fitted (record_of z pyramid.now) (length out.old)) out.old result out.new }
{
    let length = write_record(pyramid, z, out, work);
    if out.len() < length {
        return Err(Refusal::Room);
    }
    Ok(length)
}

// The outcome, with the workspace as the passes leave it, and on a refusal the output too.
fn code_or_refuse(
    pyramid: &[i32],
    z: Size,
    out: &mut [u8],
    work: &mut [u32],
) -> Result<usize, Refusal>
    ensures { Answered (coding pyramid.now z (length out.old) (length work.old))
        out.old result out.new }
{
    judged(pyramid, z, work.len())?;
    code_fitted(pyramid, z, out, work)
}

// Workspace: all 0 after every call. Refused: output all 0.
#[tactic(auto, unfolding(rules::specs::Document::Answers::as_coded, rules::specs::Document::Calls::code_answer, rules::specs::Document::Calls::code_out))]
pub fn code(pyramid: &[i32], z: Size, out: &mut [u8], work: &mut [u32]) -> Result<usize, Refusal>
    ensures { Coding pyramid.now z out.old work.old (as_coded result) out.new work.new }
{
    let coded = code_or_refuse(pyramid, z, out, work);
    if coded.is_err() {
        memory::zero(out);
    }
    memory::zero(work);
    coded
}
