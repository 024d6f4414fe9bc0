// One part in the workspace of all levels, coded or decoded: the level's stretch lent to its pass, and behind it the next level's, to whose LIS the
// sets go that move out; and the lists at the start.
#![tactic(auto)]

ghost use Rattle.std.specs.Prelude.{◌≡◌, true, [], ◌∷◌, ◌+◌, ◌-◌, ◌*◌, ◌/◌, ◌^◌, ◌≤◌, ◌<◌, length};
ghost use Rattle.rules.specs.Document.Pyramid.{legal_size, levels};
ghost use Rattle.rules.specs.Document.Passes.{band_ll};
ghost use Rattle.rules.specs.Document.Calls.{level_places, work_for};
ghost use Rattle.parts.specs.Standing.{Places, fill_of, with_lists, Started, ReadyToCode, PartCoded, ReadyToDecode, Quiet, PartDecoded};
ghost use Rattle.parts.specs.Workspace.{stretch_for, with_moved, Counting, Cutting, Lending, Lent, run_of, Running, PartRun};
ghost use Rattle.parts.specs.Begin.{empty, row_of, band_at, InBand, Listing, Listed};

use bits::BitPosition;
use lists::{Fill, Role, Set, Stretch};
use rules::{LEVEL_PLACES, Level, Plane, Size};
use shape::Depth;
use testing::{Run, Stand};

// How full a level's lists are.
#[derive(Clone, Copy)]
pub struct Lengths {
    pub lip: usize,
    pub lsp: usize,
    pub lis: usize,
}

// How full each level's lists are; level 1 first.
#[derive(Clone, Copy)]
pub struct Counts {
    pub levels: [Lengths; LEVEL_PLACES],
}

// The counts after a part, and the place of the next bit.
#[derive(Clone, Copy)]
pub struct Passed {
    pub counts: Counts,
    pub at: BitPosition,
}

// The coefficient at a row and a column of the LL band to the end of LIP, by its tree number, and, where it has offspring, to the end of LIS as type A.
fn list_one(z: Size, s: &mut [u32], stretch: Stretch, f: Fill, row: usize, column: usize) -> Fill
    requires { Listing z (band_at z row column ∷ []) stretch s.old f × InBand z row column }
    ensures { Listed z (band_at z row column ∷ []) stretch s.old f s.new result }
{
    let x = placing::band_number(z, row, column);
    let r = lists::push_lip(s, stretch, f, x);
    if row % 2 + column % 2 == 0 {
        r
    } else {
        lists::add_set(s, stretch, r, Set::TypeA(x))
    }
}

// A row of the LL band.
fn list_row(z: Size, s: &mut [u32], stretch: Stretch, mut f: Fill, row: usize) -> Fill
    requires { Listing z (row_of z row) stretch s.old f × (row < z.h / 2 ^ z.n) }
    ensures { Listed z (row_of z row) stretch s.old f s.new result }
{
    for column in 0..z.w >> z.n {
        f = list_one(z, s, stretch, f, row, column);
    }
    f
}

// The LL band row by row, in a stretch where nothing is listed.
fn list_band(z: Size, s: &mut [u32], stretch: Stretch) -> Fill
    requires { Listing z (band_ll z) stretch s.old empty }
    ensures { Listed z (band_ll z) stretch s.old empty s.new result }
{
    let mut f = Fill {
        lip: 0,
        lsp: 0,
        kept: 0,
        visited: 0,
        left: 0,
        moved: 0,
    };
    for row in 0..z.h >> z.n {
        f = list_row(z, s, stretch, f, row);
    }
    f
}

// Start: LIP of level N+1 holds the LL band row by row, its LIS those with offspring as type A; all else is empty. The stretch of level N+1
// is the first in the workspace; what the others' lists hold doesn't matter while their counts are 0.
pub fn start(role: Role, z: Size, work: &mut [u32]) -> Counts
    requires { (legal_size z ≡ true) × (work_for z ≤ length work.old) }
    ensures { Started role z work.old result work.new }
{
    let n = shape::level_size(z, Level(z.n + 1));
    let stretch = Stretch {
        role,
        n,
        first: 0,
        away: 4 * n,
    };
    let f = list_band(z, &mut work[0..4 * n], stretch);
    let none = Lengths {
        lip: 0,
        lsp: 0,
        lis: 0,
    };
    let mut levels = [none; LEVEL_PLACES];
    levels[z.n] = Lengths {
        lip: f.lip,
        lsp: 0,
        lis: f.left,
    };
    Counts { levels }
}

// The level's lists, as a pass finds them.
fn fill_of(counts: Counts, k: Level) -> Fill
    requires { (1 ≤ k.0) × (k.0 ≤ level_places) }
    ensures { (result ≡ fill_of counts k.0) × Places counts }
{
    let own = counts.levels[k.0 - 1];
    Fill {
        lip: own.lip,
        lsp: own.lsp,
        kept: 0,
        visited: 0,
        left: own.lis,
        moved: 0,
    }
}

// The level's lists are those that a pass left.
fn with_lists(mut counts: Counts, k: Level, f: Fill) -> Counts
    requires { (1 ≤ k.0) × (k.0 ≤ level_places) }
    ensures { result ≡ with_lists counts k.0 f }
{
    counts.levels[k.0 - 1] = Lengths {
        lip: f.lip,
        lsp: f.lsp,
        lis: f.kept,
    };
    counts
}

// The next level's LIS has become longer by so many sets. Nothing moves out of level 1.
fn with_moved(mut counts: Counts, k: Level, moved: usize) -> Counts
    requires { Counting counts k moved }
    ensures { result ≡ with_moved counts k.0 moved }
{
    if 1 < k.0 {
        counts.levels[k.0 - 2].lis += moved;
    }
    counts
}

// The stretch of a level: the sets that move out go to the end of the next level's LIS; level 1 has no next.
fn stretch_of(role: Role, z: Size, k: Level, counts: Counts) -> Stretch
    requires { Cutting z k counts }
    ensures { result ≡ stretch_for role z k.0 counts }
{
    let n = shape::level_size(z, k);
    let away = if k.0 < 2 {
        4 * n
    } else {
        let next = Level(k.0 - 1);
        let there = fill_of(counts, next);
        lists::lis_end(4 * n, shape::level_size(z, next), there.left)
    };
    Stretch {
        role,
        n,
        first: shape::level_start(z, k),
        away,
    }
}

// The level's stretch and the next level's, cut from the middle of the workspace and lent to the pass.
fn run_level(run: Run, body: &[u8], work: &mut [u32], w: Stand, out: &mut [u8]) -> Stand
    requires { Lending run body.now work.old out.old w }
    ensures { Lent run body.now work.old out.old w work.new out.new result }
{
    let from = stretches::stretch_from(run.z, run.level);
    let to = stretches::lent_to(run.z, run.level);
    passes::run_pass(run, body, &mut work[from..to], w, out)
}

// A part: the pass of its level, and how full the lists are after it.
fn run_part(run: Run, body: &[u8], work: &mut [u32], counts: Counts, out: &mut [u8]) -> Passed
    requires { Running run body.now work.old counts out.old }
    ensures { PartRun run body.now work.old counts out.old result work.new out.new }
{
    let fill = fill_of(counts, run.level);
    let left = run_level(run, body, work, Stand { fill, at: run.from }, out);
    let own = with_lists(counts, run.level, left.fill);
    Passed {
        counts: with_moved(own, run.level, left.fill.moved),
        at: left.at,
    }
}

// The run of a part whose bits go on at a place, and of which those that are there end at another.
fn run_of(
    role: Role,
    z: Size,
    plane: Plane,
    level: Level,
    counts: Counts,
    from: BitPosition,
    until: BitPosition,
) -> Run
    requires { Cutting z level counts }
    ensures { result ≡ run_of role z plane level counts from until }
{
    Run {
        z,
        plane,
        level,
        stretch: stretch_of(role, z, level, counts),
        parents: shape::span_of(z, Depth(level.0 + 1)),
        elders: shape::span_of(z, Depth(level.0 + 2)),
        olds: fill_of(counts, level).left,
        from,
        until,
    }
}

// One part coded, of the pyramid that the workspace holds: its bits from a place on, and the lists after it. The coder reads no body.
// Not one function with decode_part: their contracts, PartCoded and PartDecoded, promise the coder and the decoder different things.
pub fn code_part(
    z: Size,
    plane: Plane,
    level: Level,
    work: &mut [u32],
    counts: Counts,
    out: &mut [u8],
    at: BitPosition,
) -> Passed
    requires { ReadyToCode z plane level work.old counts at }
    ensures { PartCoded z plane level work.old counts out.old at result work.new out.new }
{
    let run = run_of(Role::Codes, z, plane, level, counts, at, at);
    run_part(run, &[], work, counts, out)
}

// One part decoded from its body, as far as its bits are there: the coefficients drawn, and the lists after it. The decoder writes no bit.
pub fn decode_part(
    body: &[u8],
    until: BitPosition,
    z: Size,
    plane: Plane,
    level: Level,
    work: &mut [u32],
    counts: Counts,
) -> Passed
    requires { ReadyToDecode z plane level work.old counts × Quiet body.now until }
    ensures { PartDecoded body.now until z plane level work.old counts result work.new }
{
    let run = run_of(
        Role::Reads,
        z,
        plane,
        level,
        counts,
        BitPosition { at: 0 },
        until,
    );
    run_part(run, body, work, counts, &mut [])
}
