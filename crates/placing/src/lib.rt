// Between the pyramid, row by row, and the workspace, in tree order: the pyramid copied in, and what was drawn laid out.
#![tactic(auto)]

ghost use Rattle.std.specs.Prelude.{◌≡◌, true, ℕ, ◌+◌, ◌*◌, ◌/◌, ◌%◌, ◌^◌, ◌≤◌, ◌<◌, length, get_or, pos};
ghost use Rattle.rules.specs.Document.Pyramid.{legal_size, levels, area, index};
ghost use Rattle.trees.specs.Places.{band_width};
ghost use Rattle.trees.specs.Run.{number_of};
ghost use Rattle.stretches.specs.Levels.{blocks_from};
ghost use Rattle.coefficients.specs.Words.{worded, value_of};
ghost use Rattle.placing.specs.Stores.{Put, corner_of, rank_of, Apart, Under, Small};
ghost use Rattle.placing.specs.Placing.{Roomy, BlocksOf, Blocks, LevelPlaced, Placed, Given, LevelCopied, LevelsCopied, CopiedIn};
ghost use Rattle.placing.specs.Placing.{LevelLaid, LevelsLaid, LaidOut, LevelCleared, Cleared};

use rules::{Level, Size};

// The tree number of the coefficient at a row and a column of the LL band: a group's even, even one, or one of its three roots.
pub fn band_number(z: Size, row: usize, column: usize) -> usize
    requires { (legal_size z ≡ true) × (row < z.h / 2 ^ z.n) × (column < z.w / 2 ^ z.n) }
    ensures { (result ≡ number_of z (index z row column)) × (result < 2 ^ 31) }
{
    let across = z.w >> (z.n + 1);
    let group = row / 2 * across + column / 2;
    let rank = row % 2 * 2 + column % 2;
    if rank == 0 {
        return group;
    }
    let groups = (z.h >> (z.n + 1)) * across;
    groups + 3 * group + (rank - 1)
}

// Where a level's maxima begin in the workspace.
fn blocks_from(z: Size, k: Level) -> usize
    requires { (legal_size z ≡ true) × (1 ≤ k.0) × (k.0 ≤ levels z) }
    ensures { (result ≡ blocks_from z k.0) × (result < 2 ^ 32) }
{
    stretches::stretch_from(z, k) + stretches::maxima_from(shape::level_size(z, k))
}

// The blocks of a group's roots: right, below and diagonal.
fn set_roots(work: &mut [u32], at: usize, p: u32, right: u32, below: u32)
    requires { (at + 3 ≤ length work.old) × (p < 2 ^ 20) × (right < 2 ^ 20) × (below < 2 ^ 20) }
    ensures { Put 0 (λ m. at + m) 3 (rank_of right below p) work.old work.new }
{
    work[at] = p + right;
    work[at + 1] = p + below;
    work[at + 2] = p + below + right;
}

// The blocks of level N, under the roots of the LL band. Size and workspace stay two, as the contracts of copy_in, lay_out and clear take them.
fn place_roots(z: Size, work: &mut [u32])
    requires { Roomy z work.old }
    ensures { LevelPlaced z z.n work.old work.new }
{
    let half = z.n + 1;
    let rows = z.h >> half;
    let across = z.w >> half;
    let to = blocks_from(z, Level(z.n));
    let right = (2 * across) as u32;
    let below = (2 * rows * z.w) as u32;
    for i in 0..rows {
        for j in 0..across {
            let at = to + 3 * (i * across) + 3 * j;
            let p = 2 * i * z.w + 2 * j;
            set_roots(work, at, p as u32, right, below);
        }
    }
}

// The places of the four of a block, whose first is p.
fn corners(p: usize, w: usize) -> [usize; 4]
    requires { p + w + 1 < 2 ^ 63 }
    ensures { (f : ℕ) → f < 4 → get_or result f 0 ≡ corner_of w p f }
{
    [p, p + 1, p + w, p + w + 1]
}

// The blocks of a level, from those of the next coarser one.
fn place_level(z: Size, k: Level, work: &mut [u32])
    requires { Roomy z work.old × (1 ≤ k.0) × (k.0 < z.n) × BlocksOf z (k.0 + 1) work.old }
    ensures { LevelPlaced z k.0 work.old work.new }
{
    let coarser = Level(k.0 + 1);
    let blocks = shape::level_size(z, coarser) / 4;
    let from = blocks_from(z, coarser);
    let to = blocks_from(z, k);
    for b in 0..blocks {
        let p = work[from + b] as usize;
        for (f, q) in corners(p, z.w).iter().enumerate() {
            work[to + 4 * b + f] = (2 * *q) as u32;
        }
    }
}

// Where the blocks stand, for all levels, coarsest first.
fn place_blocks(z: Size, work: &mut [u32])
    requires { Roomy z work.old }
    ensures { Placed z work.old work.new }
{
    place_roots(z, work);
    for k in (1..z.n).rev() {
        place_level(z, Level(k), work);
    }
}

fn word_at(pyramid: &[i32], q: usize) -> u32
    requires { Small pyramid.now }
    ensures { result ≡ worded (get_or pyramid.now q (pos 0)) }
{
    coefficients::word_of(coefficients::coefficient_at(pyramid, q))
}

// The words of a level's blocks. Apart from place_level and lay_level, as copy_row from lay_row: closures for their buffers, values and places would be
// longer than the loops.
fn copy_level(pyramid: &[i32], z: Size, k: Level, work: &mut [u32])
    requires { Given pyramid.now z work.old × (1 ≤ k.0) × (k.0 ≤ z.n) × BlocksOf z k.0 work.old }
    ensures { LevelCopied pyramid.now z k.0 work.old work.new }
{
    let blocks = shape::level_size(z, k) / 4;
    let from = blocks_from(z, k);
    let to = stretches::stretch_from(z, k);
    for b in 0..blocks {
        let p = work[from + b] as usize;
        for (f, q) in corners(p, z.w).iter().enumerate() {
            work[to + 4 * b + f] = word_at(pyramid, *q);
        }
    }
}

// A row of the LL band.
fn copy_row(pyramid: &[i32], z: Size, row: usize, work: &mut [u32])
    requires { Given pyramid.now z work.old × (row < z.h / 2 ^ z.n) }
    ensures { Put 0 (λ j. number_of z (index z row j)) (band_width z) (λ j. worded (get_or pyramid.now (index z row j) (pos 0)))
        work.old work.new }
{
    for column in 0..z.w >> z.n {
        let x = band_number(z, row, column);
        work[x] = word_at(pyramid, row * z.w + column);
    }
}

// The words of a pyramid, each at its tree number.
pub fn copy_in(pyramid: &[i32], z: Size, work: &mut [u32])
    requires { Given pyramid.now z work.old }
    ensures { CopiedIn pyramid.now z work.old work.new }
{
    place_blocks(z, work);
    for k in (1..=z.n).rev() {
        copy_level(pyramid, z, Level(k), work);
    }
    for row in 0..z.h >> z.n {
        copy_row(pyramid, z, row, work);
    }
}

fn value_in(work: &[u32], at: usize) -> i32
    requires { at < length work.now }
    ensures { result ≡ value_of (get_or work.now at 0) }
{
    coefficients::value_of(work[at])
}

fn lay_level(z: Size, k: Level, work: &[u32], out: &mut [i32])
    requires { Roomy z work.now × (length out.old ≡ area z) × (1 ≤ k.0) × (k.0 ≤ z.n) × BlocksOf z k.0 work.now }
    ensures { LevelLaid z k.0 work.now out.old out.new }
{
    let blocks = shape::level_size(z, k) / 4;
    let from = blocks_from(z, k);
    let words = stretches::stretch_from(z, k);
    for b in 0..blocks {
        for (f, q) in corners(work[from + b] as usize, z.w).iter().enumerate() {
            out[*q] = value_in(work, words + 4 * b + f);
        }
    }
}

// A row of the LL band.
fn lay_row(z: Size, row: usize, work: &[u32], out: &mut [i32])
    requires { Roomy z work.now × (length out.old ≡ area z) × (row < z.h / 2 ^ z.n) }
    ensures { Put (pos 0) (index z row) (band_width z) (λ j. value_of (get_or work.now (number_of z (index z row j)) 0)) out.old
        out.new }
{
    for column in 0..z.w >> z.n {
        let x = band_number(z, row, column);
        let q = row * z.w + column;
        out[q] = value_in(work, x);
    }
}

// The values of the words, row by row.
pub fn lay_out(z: Size, work: &mut [u32], out: &mut [i32])
    requires { Roomy z work.old × (length out.old ≡ area z) }
    ensures { LaidOut z work.old out.old work.new out.new }
{
    place_blocks(z, work);
    for k in (1..=z.n).rev() {
        lay_level(z, Level(k), work, out);
    }
    for row in 0..z.h >> z.n {
        lay_row(z, row, work, out);
    }
}

fn clear_level(z: Size, k: Level, work: &mut [u32])
    requires { Roomy z work.old × (1 ≤ k.0) × (k.0 ≤ levels z) }
    ensures { LevelCleared z k.0 work.old work.new }
{
    let from = stretches::stretch_from(z, k);
    memory::zero(&mut work[from..from + shape::level_size(z, k)]);
}

// Before anything is drawn.
pub fn clear(z: Size, work: &mut [u32])
    requires { Roomy z work.old }
    ensures { Cleared z work.old work.new }
{
    for k in (1..=z.n + 1).rev() {
        clear_level(z, Level(k), work);
    }
}
