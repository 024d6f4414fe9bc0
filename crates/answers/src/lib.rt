// The document's number and place for each refusal, made in one function each; each answer's numbers, and those at the front of a lent slice.
#![tactic(auto)]

ghost use Rattle.std.specs.Prelude.{◌≡◌, ◌<◌, ◌≤◌, length};
ghost use Rattle.rules.specs.Document.Numbers.{refusal_number, refusal_place, verdict_number, verdict_place};
ghost use Rattle.rules.specs.Document.Calls.{code_numbers, serve_numbers, decode_numbers};
ghost use Rattle.rules.specs.Document.Answers.{as_verdict, as_coded, as_served, as_decoded};
ghost use Rattle.survey.specs.Surveyed.{as_survey, survey_numbers};
ghost use Rattle.pictures.specs.Document.Calls.{grey_read_numbers, grey_written_numbers};
ghost use Rattle.pictures.specs.Document.Answers.{as_grey_read, as_grey_written};
ghost use Rattle.answers.specs.Report.{Reported};

use pictures::{GREY_PLACES, Printed, Sides};
use rules::{CODE_PLACES, DECODE_PLACES, Extent, LEVEL_PLACES, Reach, Refusal, SERVE_PLACES};
use survey::{Contents, SURVEY_PLACES};

// The numbers of the document's table, which C and programs are told: an enum of its own would have to be turned into them here again.
fn refusal_number(refusal: Refusal) -> u64
    ensures { result ≡ refusal_number refusal }
{
    match refusal {
        Refusal::Size => 1,
        Refusal::Length => 2,
        Refusal::Work => 3,
        Refusal::Range(_) => 4,
        Refusal::Room => 5,
        Refusal::Head(_) => 6,
        Refusal::Version => 7,
        Refusal::Part(_) => 8,
        Refusal::Pad(_) => 9,
        Refusal::Fit(_) => 10,
        Refusal::Ask => 11,
        Refusal::LongForm(_) => 12,
        Refusal::Grey => 13,
        Refusal::Mixed => 14,
        Refusal::Clash(_) => 15,
    }
}

fn refusal_place(refusal: Refusal) -> u64
    ensures { result ≡ refusal_place refusal }
{
    match refusal {
        Refusal::Range(place) => place as u64,
        Refusal::Head(place) => place as u64,
        Refusal::Part(place) => place as u64,
        Refusal::Pad(place) => place as u64,
        Refusal::Fit(place) => place as u64,
        Refusal::LongForm(place) => place as u64,
        Refusal::Clash(place) => place as u64,
        Refusal::Size
        | Refusal::Length
        | Refusal::Work
        | Refusal::Room
        | Refusal::Version
        | Refusal::Ask
        | Refusal::Grey
        | Refusal::Mixed => 0,
    }
}

#[tactic(auto, unfolding(rules::specs::Document::Answers::as_verdict))]
pub fn number(verdict: Result<(), Refusal>) -> u64
    ensures { result ≡ verdict_number (as_verdict verdict) }
{
    match verdict {
        Ok(()) => 0,
        Err(r) => refusal_number(r),
    }
}

#[tactic(auto, unfolding(rules::specs::Document::Answers::as_verdict))]
pub fn place(verdict: Result<(), Refusal>) -> u64
    ensures { result ≡ verdict_place (as_verdict verdict) }
{
    match verdict {
        Ok(()) => 0,
        Err(r) => refusal_place(r),
    }
}

#[tactic(auto, unfolding(rules::specs::Document::Calls::code_numbers, rules::specs::Document::Answers::as_coded))]
pub fn code_numbers(coded: Result<usize, Refusal>) -> [u64; CODE_PLACES]
    ensures { result ≡ code_numbers (as_coded coded) }
{
    match coded {
        Ok(length) => [0, 0, length as u64],
        Err(r) => [refusal_number(r), refusal_place(r), 0],
    }
}

#[tactic(auto, unfolding(rules::specs::Document::Calls::serve_numbers, rules::specs::Document::Answers::as_served))]
pub fn serve_numbers(served: Result<Extent, Refusal>) -> [u64; SERVE_PLACES]
    ensures { result ≡ serve_numbers (as_served served) }
{
    match served {
        Ok(x) => [0, 0, x.length as u64, x.tail as u64],
        Err(r) => [refusal_number(r), refusal_place(r), 0, 0],
    }
}

#[tactic(auto, unfolding(rules::specs::Document::Calls::decode_numbers, rules::specs::Document::Calls::plane_in, rules::specs::Document::Calls::count_in))]
pub fn decode_numbers(decoded: Result<Reach, Refusal>) -> [u64; DECODE_PLACES]
    ensures { result ≡ decode_numbers (as_decoded decoded) }
{
    let mut numbers = [0; DECODE_PLACES];
    match decoded {
        Ok(x) => {
            numbers[2] = x.tail as u64;
            for (i, plane) in x.reached.iter().enumerate() {
                numbers[3 + i] = plane.0 as u64;
            }
            for (i, count) in x.skipped.iter().enumerate() {
                numbers[3 + LEVEL_PLACES + i] = *count as u64;
            }
        }
        Err(r) => {
            numbers[0] = refusal_number(r);
            numbers[1] = refusal_place(r);
        }
    }
    numbers
}

#[tactic(auto, unfolding(survey::specs::Surveyed::survey_numbers, survey::specs::Surveyed::as_survey))]
pub fn survey_numbers(surveyed: Result<Contents, Refusal>) -> [u64; SURVEY_PLACES]
    ensures { result ≡ survey_numbers (as_survey surveyed) }
{
    match surveyed {
        Ok(x) => {
            let z = x.header.size;
            [
                0,
                0,
                z.w as u64,
                z.h as u64,
                z.n as u64,
                x.header.planes as u64,
                x.parts as u64,
                x.tail as u64,
            ]
        }
        Err(r) => [refusal_number(r), refusal_place(r), 0, 0, 0, 0, 0, 0],
    }
}

#[tactic(auto, unfolding(pictures::specs::Document::Calls::grey_read_numbers, pictures::specs::Document::Answers::as_grey_read))]
pub fn grey_read_numbers(read: Result<Sides, Refusal>) -> [u64; GREY_PLACES]
    ensures { result ≡ grey_read_numbers (as_grey_read read) }
{
    match read {
        Ok(x) => [0, 0, x.w as u64, x.h as u64],
        Err(r) => [refusal_number(r), refusal_place(r), 0, 0],
    }
}

#[tactic(auto, unfolding(pictures::specs::Document::Calls::grey_written_numbers, pictures::specs::Document::Answers::as_grey_written))]
pub fn grey_written_numbers(written: Result<Printed, Refusal>) -> [u64; GREY_PLACES]
    ensures { result ≡ grey_written_numbers (as_grey_written written) }
{
    match written {
        Ok(x) => [0, 0, x.length as u64, x.clipped as u64],
        Err(r) => [refusal_number(r), refusal_place(r), 0, 0],
    }
}

// An answer's numbers at the front of a lent slice, the rest 0; the first of them is handed back.
pub fn report<const N: usize>(numbers: [u64; N], answer: &mut [u64]) -> u64
    requires { (0 < N) × (N ≤ length answer.old) }
    ensures { Reported numbers.entry answer.old result answer.new }
{
    memory::zero(answer);
    answer[..N].copy_from_slice(&numbers);
    numbers[0]
}
