// The calls exported to the portal's C host: thin, on plain numbers and slices, over the proved routines.
// One a call, alike as they are: C links each by its name, and each has a contract of its own.
#![tactic(auto)]

ghost use Rattle.std.specs.Prelude.{◌≡◌, length};
ghost use Rattle.rules.specs.Document.Notation.{zeros};
ghost use Rattle.rules.specs.Document.Calls.{AfsCode, AfsServe, AfsDecode};
ghost use Rattle.joins.specs.Document.Joining.{AfsJoin};
ghost use Rattle.pictures.specs.Document.Calls.{AfsGreySize, AfsGreyIn, AfsGreyOut};
ghost use Rattle.survey.specs.Surveyed.{AfsSurvey};

use pictures::GREY_PLACES;
use rules::{CODE_PLACES, DECODE_PLACES, Level, Plane, Refusal, SERVE_PLACES, Size};
use survey::SURVEY_PLACES;

// An answer slice that its answer doesn't fit in: all 0, and the number of ROOM is only returned.
#[tactic(auto, unfolding(rules::specs::Document::Answers::as_verdict))]
fn too_short(answer: &mut [u64]) -> u64
    ensures { (result ≡ 5) × (answer.new ≡ zeros (length answer.old)) }
{
    memory::zero(answer);
    answers::number(Err(Refusal::Room))
}

#[unsafe(no_mangle)]
pub extern "C" fn afs_code(
    pyramid: &[i32],
    w: u64,
    h: u64,
    n: u64,
    out: &mut [u8],
    work: &mut [u32],
    answer: &mut [u64],
) -> u64
    ensures { AfsCode pyramid.now (record { w = w; h = h; n = n })
        out.old work.old answer.old
        result out.new work.new answer.new }
{
    if answer.len() < CODE_PLACES {
        memory::zero(out);
        memory::zero(work);
        return too_short(answer);
    }
    let z = Size {
        w: w as usize,
        h: h as usize,
        n: n as usize,
    };
    let coded = coder::code(pyramid, z, out, work);
    answers::report(answers::code_numbers(coded), answer)
}

#[unsafe(no_mangle)]
pub extern "C" fn afs_serve(
    bytes: &[u8],
    level: u64,
    plane: u64,
    out: &mut [u8],
    answer: &mut [u64],
) -> u64
    ensures { AfsServe bytes.now level plane out.old answer.old result out.new answer.new }
{
    if answer.len() < SERVE_PLACES {
        memory::zero(out);
        return too_short(answer);
    }
    let served = server::serve(bytes, Level(level as usize), Plane(plane as usize), out);
    answers::report(answers::serve_numbers(served), answer)
}

#[unsafe(no_mangle)]
pub extern "C" fn afs_join(first: &[u8], second: &[u8], out: &mut [u8], answer: &mut [u64]) -> u64
    ensures { AfsJoin first.now second.now out.old answer.old result out.new answer.new }
{
    if answer.len() < CODE_PLACES {
        memory::zero(out);
        return too_short(answer);
    }
    let coded = joiner::join(first, second, out);
    answers::report(answers::code_numbers(coded), answer)
}

#[unsafe(no_mangle)]
pub extern "C" fn afs_decode(
    bytes: &[u8],
    out: &mut [i32],
    work: &mut [u32],
    answer: &mut [u64],
) -> u64
    ensures { AfsDecode bytes.now out.old work.old answer.old
        result out.new work.new answer.new }
{
    if answer.len() < DECODE_PLACES {
        memory::zero(out);
        memory::zero(work);
        return too_short(answer);
    }
    let decoded = decoder::decode(bytes, out, work);
    answers::report(answers::decode_numbers(decoded), answer)
}

#[unsafe(no_mangle)]
pub extern "C" fn afs_survey(bytes: &[u8], answer: &mut [u64]) -> u64
    ensures { AfsSurvey bytes.now answer.old result answer.new }
{
    if answer.len() < SURVEY_PLACES {
        return too_short(answer);
    }
    let surveyed = survey::survey_of(bytes);
    answers::report(answers::survey_numbers(surveyed), answer)
}

#[unsafe(no_mangle)]
pub extern "C" fn afs_grey_size(file: &[u8], answer: &mut [u64]) -> u64
    ensures { AfsGreySize file.now answer.old result answer.new }
{
    if answer.len() < GREY_PLACES {
        return too_short(answer);
    }
    let read = grey::grey_size(file);
    answers::report(answers::grey_read_numbers(read), answer)
}

#[unsafe(no_mangle)]
pub extern "C" fn afs_grey_in(
    file: &[u8],
    decompositions: u64,
    pyramid: &mut [i32],
    work: &mut [u32],
    answer: &mut [u64],
) -> u64
    ensures { AfsGreyIn file.now decompositions pyramid.old work.old answer.old
        result pyramid.new work.new answer.new }
{
    if answer.len() < GREY_PLACES {
        memory::zero(pyramid);
        memory::zero(work);
        return too_short(answer);
    }
    let read = grey::grey_in(file, decompositions as usize, pyramid, work);
    answers::report(answers::grey_read_numbers(read), answer)
}

#[unsafe(no_mangle)]
pub extern "C" fn afs_grey_out(
    pyramid: &[i32],
    width: u64,
    height: u64,
    decompositions: u64,
    out: &mut [u8],
    work: &mut [u32],
    answer: &mut [u64],
) -> u64
    ensures { AfsGreyOut pyramid.now (record { w = width; h = height; n = decompositions })
        out.old work.old answer.old
        result out.new work.new answer.new }
{
    if answer.len() < GREY_PLACES {
        memory::zero(out);
        memory::zero(work);
        return too_short(answer);
    }
    let z = Size {
        w: width as usize,
        h: height as usize,
        n: decompositions as usize,
    };
    let written = grey::grey_out(pyramid, z, out, work);
    answers::report(answers::grey_written_numbers(written), answer)
}
