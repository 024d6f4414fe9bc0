// The 5/3 lifting of pictures, forward and back, exact: in the workspace a number v stands as its tone, v + 2^28.
#![tactic(auto)]

ghost use Rattle.std.specs.Prelude.{◌≡◌, true, ℕ, ◌+◌, ◌-◌, ◌*◌, ◌≤◌, ◌<◌, min, length, get_or, set, pos, nat_abs};
ghost use Rattle.rules.specs.Document.Pyramid.{legal_size};
ghost use Rattle.pictures.specs.Laws.Tones.{bias, toned, tone_high, tone_low, tone_even, tone_odd};
ghost use Rattle.pictures.specs.Laws.Room.{most_back};
ghost use Rattle.lifting.specs.Fills.{along, Filled, Both};
ghost use Rattle.lifting.specs.Lines.{reach, line, ForHighs, ForRows, row_high, row_low, ForSplit, high_of, low_of, Stored};
ghost use Rattle.lifting.specs.Rows.{ForRow, lows_at, LowRow, HighRow, ForPair, Pair, after_row};
ghost use Rattle.lifting.specs.Turns.{ForTurn, TurnSplit, turn_at, ForBlock, BlockStored};
ghost use Rattle.lifting.specs.Joins.{OddAsks, tone_of, even_t, between, Loaded, ForJoin, ForOdds, LineJoined};
ghost use Rattle.lifting.specs.Joins.{ForLowRow, LowRowJoined, ForHighRow, HighRowJoined, ForEvenRow, row_even, ForOddRow, row_odd};
ghost use Rattle.lifting.specs.Joins.{ForJoinPair, PairJoined};
ghost use Rattle.lifting.specs.Joins.{ForJoinTurn, TurnJoined, ForBlockLoad, BlockLoaded};
ghost use Rattle.lifting.specs.Pictures.{Splitting, Split, Joining, Joined};

use rules::Size;

// A number v stands in the workspace as its tone, v + 2^28.
pub const BIAS: u32 = 1 << 28;

// A turn: half the sides of its block, the width of a row of the pyramid, and where in the workspace the lines stand.
#[derive(Clone, Copy)]
pub struct Turn {
    pub half: usize,
    pub pairs: usize,
    pub stride: usize,
    pub lines: usize,
}

// The four tones have other signs and shares of the bias: one function for two of them would be told which by a parameter.
fn tone_high(a: u32, b: u32, c: u32) -> u32
    requires { (a ≤ bias + reach) × (b ≤ bias + reach) × (c ≤ bias + reach) × (bias ≤ b + reach) }
    ensures { result ≡ tone_high a b c }
{
    b + BIAS - (a + c) / 2
}

fn tone_low(x: u32, d: u32, e: u32) -> u32
    requires { (x ≤ bias + reach) × (bias ≤ x + reach) × (d ≤ 2 * bias) × (e ≤ 2 * bias) }
    ensures { result ≡ tone_low x d e }
{
    x + (d + e + 2) / 4 - BIAS / 2
}

fn coefficient_of(t: u32) -> i32
    requires { t ≤ 2 * bias }
    ensures { result ≡ toned t }
{
    t as i32 - BIAS as i32
}

// Rows and lines of the workspace are places, not slices: what is written overlaps what is still to be read (the contracts ForPair and ForJoinPair).

// The row of highs of three rows. even_rows makes another tone and asks something else of its rows: a closure's clauses would outgrow the loops.
fn high_line(work: &mut [u32], a: usize, b: usize, c: usize, to: usize, width: usize)
    requires { ForHighs work.old a b c to width }
    ensures { Filled 0 work.old (along to) (row_high work.old a b c) width work.new }
{
    for j in 0..width {
        work[to + j] = tone_high(work[a + j], work[b + j], work[c + j]);
    }
}

// Of rows a, b and c and the highs before, which stand at d: the lows to e, the highs to d.
fn lift_rows(work: &mut [u32], a: usize, b: usize, c: usize, d: usize, e: usize, width: usize)
    requires { ForRows work.old a b c d e width }
    ensures { Both work.old (along e) (row_low work.old a b c d) (along d)
        (row_high work.old a b c) width work.new }
{
    for j in 0..width {
        let even = work[a + j];
        let high = tone_high(even, work[b + j], work[c + j]);
        let low = tone_low(even, work[d + j], high);
        work[e + j] = low;
        work[d + j] = high;
    }
}

// The line of 2m numbers at x, with one more behind it, split: its lows and its highs.
fn split_line(work: &mut [u32], x: usize, lows: usize, highs: usize, m: usize)
    requires { ForSplit work.old x lows highs m }
    ensures { Both work.old (along lows) (low_of (line work.old x)) (along highs)
        (high_of (line work.old x)) m work.new }
{
    let mut before = tone_high(work[x], work[x + 1], work[x + 2]);
    for j in 0..m {
        let even = work[x + 2 * j];
        let high = tone_high(even, work[x + (2 * j + 1)], work[x + (2 * j + 2)]);
        work[lows + j] = tone_low(even, before, high);
        work[highs + j] = high;
        before = high;
    }
}

// Symmetric extension: behind the line the last but one again.
fn mirror(work: &mut [u32], x: usize, width: usize)
    requires { (2 ≤ width) × (x + width < length work.old) }
    ensures { work.new ≡ set work.old (x + width) (get_or work.old (x + (width - 2)) 0) }
{
    work[x + width] = work[x + (width - 2)];
}

// By index: of what iter_mut wrote a proof knows nothing. load_line, its way back, differs in both types and the tone, as load_block does from store_block: a
// closure's clauses would outgrow the loops here, too.
fn store_line(line: &[u32], out: &mut [i32])
    requires { (length out.old ≡ length line.now) × ((c : ℕ) → c < length line.now → get_or line.now c 0 ≤ 2 * bias) }
    ensures { Stored line.now out.new }
{
    for (j, t) in line.iter().enumerate() {
        out[j] = coefficient_of(*t);
    }
}

impl Turn {
    // Turn l of a picture.
    fn new(z: Size, l: usize) -> Turn
        requires { (legal_size z ≡ true) × (l < z.n) }
        ensures { result ≡ turn_at z l }
    {
        Turn {
            half: z.w >> (l + 1),
            pairs: z.h >> (l + 1),
            stride: z.w,
            lines: z.w * z.h,
        }
    }

    // Where the even row after pair i stands; behind the last pair it is that pair's own.
    fn after_row(self, i: usize) -> usize
        requires { (i < self.pairs) × (1 ≤ self.half) × (4 * (self.pairs * self.half) ≤ self.lines) }
        ensures { result ≡ after_row self i }
    {
        let after = (i + 1).min(self.pairs - 1);
        2 * after * (2 * self.half)
    }

    // The row of lows: its lows are the next picture's, its highs the pyramid's.
    fn split_low_row(self, work: &mut [u32], out: &mut [i32], i: usize)
        requires { ForRow self work.old out.old i (lows_at self) }
        ensures { LowRow self work.old out.old i work.new out.new }
    {
        let m = self.half;
        let row = i * m;
        let at = i * self.stride + m;
        let x = self.lines + (2 * m + 1);
        let spare = self.lines + (4 * m + 2);
        mirror(work, x, 2 * m);
        split_line(work, x, row, spare, m);
        store_line(&work[spare..spare + m], &mut out[at..at + m]);
    }

    // The row of highs: all of it is the pyramid's.
    fn split_high_row(self, work: &mut [u32], out: &mut [i32], i: usize)
        requires { ForRow self work.old out.old i self.lines }
        ensures { HighRow self work.old out.old i work.new out.new }
    {
        let m = self.half;
        let at = (self.pairs + i) * self.stride;
        let x = self.lines;
        let spare = x + (4 * m + 2);
        mirror(work, x, 2 * m);
        split_line(work, x, spare, spare + m, m);
        store_line(&work[spare..spare + 2 * m], &mut out[at..at + 2 * m]);
    }

    // Rows 2i and 2i + 1 of the picture, with the highs before.
    fn split_pair(self, work: &mut [u32], out: &mut [i32], i: usize)
        requires { ForPair self work.old out.old i }
        ensures { Pair self work.old out.old i work.new out.new }
    {
        let w = 2 * self.half;
        let a = 2 * i * w;
        let c = self.after_row(i);
        lift_rows(work, a, a + w, c, self.lines, self.lines + (w + 1), w);
        self.split_low_row(work, out, i);
        self.split_high_row(work, out, i);
    }

    // The picture's block before it, at the start of the workspace, becomes the next picture there, and the three bands in the pyramid.
    fn split(self, work: &mut [u32], out: &mut [i32])
        requires { ForTurn self work.old out.old }
        ensures { TurnSplit self work.old out.old work.new out.new }
    {
        let w = 2 * self.half;
        let c = self.after_row(0);
        high_line(work, 0, w, c, self.lines, w);
        for i in 0..self.pairs {
            self.split_pair(work, out, i);
        }
    }
}

// What is left of the picture after the last turn is the LL band.
fn store_block(work: &[u32], out: &mut [i32], height: usize, width: usize, stride: usize)
    requires { ForBlock work.now out.old height width stride }
    ensures { BlockStored work.now out.old height width stride out.new }
{
    for i in 0..height {
        let (from, at) = (i * width, i * stride);
        store_line(&work[from..from + width], &mut out[at..at + width]);
    }
}

pub fn split_picture(z: Size, work: &mut [u32], out: &mut [i32])
    requires { Splitting z work.old out.old }
    ensures { Split z work.old out.old work.new out.new }
{
    for l in 0..z.n {
        Turn::new(z, l).split(work, out);
    }
    store_block(work, out, z.h >> z.n, z.w >> z.n, z.w);
}

fn tone_even(s: u32, d: u32, e: u32) -> u32
    requires { (bias ≤ s + reach) × (s ≤ bias + reach) × (d ≤ bias + reach) × (e ≤ bias + reach) }
    ensures { result ≡ tone_even s d e }
{
    s + BIAS / 2 - (d + e + 2) / 4
}

fn tone_odd(d: u32, x: u32, y: u32) -> u32
    requires { OddAsks d x y }
    ensures { result ≡ tone_odd d x y }
{
    d + (x + y) / 2 - BIAS
}

fn tone_of(v: i32) -> u32
    requires { nat_abs v ≤ most_back }
    ensures { result ≡ tone_of v }
{
    (v + BIAS as i32) as u32
}

fn load_line(row: &[i32], line: &mut [u32])
    requires { (length line.old ≡ length row.now) × ((c : ℕ) → c < length row.now → nat_abs (get_or row.now c (pos 0)) ≤ most_back) }
    ensures { Loaded row.now line.new }
{
    for (j, v) in row.iter().enumerate() {
        line[j] = tone_of(*v);
    }
}

// Of m lows and m highs the even numbers of the line at `to`.
fn even_line(work: &mut [u32], lows: usize, highs: usize, to: usize, m: usize)
    requires { ForJoin work.old lows highs to m }
    ensures { Filled 0 work.old (λ c. to + 2 * c)
        (even_t (line work.old lows) (line work.old highs)) m work.new }
{
    let mut before = work[highs];
    for j in 0..m {
        let high = work[highs + j];
        work[to + 2 * j] = tone_even(work[lows + j], before, high);
        before = high;
    }
}

// And of its even numbers, mirrored, and the highs the odd ones.
fn odd_line(work: &mut [u32], highs: usize, to: usize, m: usize)
    requires { ForOdds work.old highs to m }
    ensures { Filled 0 work.old (λ c. to + (2 * c + 1)) (between work.old highs to) m work.new }
{
    for j in 0..m {
        work[to + (2 * j + 1)] = tone_odd(
            work[highs + j],
            work[to + 2 * j],
            work[to + (2 * j + 2)],
        );
    }
}

fn join_line(work: &mut [u32], lows: usize, highs: usize, to: usize, m: usize)
    requires { ForJoin work.old lows highs to m }
    ensures { LineJoined work.old lows highs to m work.new }
{
    even_line(work, lows, highs, to, m);
    mirror(work, to, 2 * m);
    odd_line(work, highs, to, m);
}

fn even_rows(work: &mut [u32], e: usize, p: usize, d: usize, to: usize, width: usize)
    requires { ForEvenRow work.old e p d to width }
    ensures { Filled 0 work.old (along to) (row_even work.old e p d) width work.new }
{
    for j in 0..width {
        work[to + j] = tone_even(work[e + j], work[p + j], work[d + j]);
    }
}

// The odd row behind the even one at `to`; the highs before, at p, become the highs at d.
fn odd_rows(work: &mut [u32], d: usize, p: usize, next: usize, to: usize, width: usize)
    requires { ForOddRow work.old d p next to width }
    ensures { Both work.old (along (to + width)) (row_odd work.old d to next) (along d)
        (line work.old p) width work.new }
{
    for j in 0..width {
        work[to + width + j] = tone_odd(work[d + j], work[to + j], work[next + j]);
        work[d + j] = work[p + j];
    }
}

impl Turn {
    // The row of lows: its lows are of the picture, its highs of the pyramid.
    fn join_low_row(self, pyramid: &[i32], work: &mut [u32], i: usize)
        requires { ForLowRow self pyramid.now work.old i }
        ensures { LowRowJoined self pyramid.now work.old i work.new }
    {
        let m = self.half;
        let row = i * m;
        let at = i * self.stride + m;
        let to = self.lines + (4 * m + 2);
        let spare = self.lines + (6 * m + 3);
        load_line(&pyramid[at..at + m], &mut work[spare..spare + m]);
        join_line(work, row, spare, to, m);
    }

    // The row of highs: all of it is of the pyramid.
    fn join_high_row(self, pyramid: &[i32], work: &mut [u32], i: usize, to: usize)
        requires { ForHighRow self pyramid.now work.old i to }
        ensures { HighRowJoined self pyramid.now work.old i to work.new }
    {
        let m = self.half;
        let at = (self.pairs + i) * self.stride;
        let spare = self.lines + (6 * m + 3);
        load_line(&pyramid[at..at + 2 * m], &mut work[spare..spare + 2 * m]);
        join_line(work, spare, spare + m, to, m);
    }

    // Rows 2i and 2i + 1 of the picture, whose own row of highs stands in its line; then the one before stands there.
    fn join_pair(self, pyramid: &[i32], work: &mut [u32], i: usize)
        requires { ForJoinPair self pyramid.now work.old i }
        ensures { PairJoined self pyramid.now work.old i work.new }
    {
        let w = 2 * self.half;
        let to = 2 * i * w;
        let next = self.after_row(i);
        let before = i.saturating_sub(1);
        let d = self.lines;
        let p = d + (w + 1);
        let e = d + (4 * self.half + 2);
        self.join_low_row(pyramid, work, i);
        self.join_high_row(pyramid, work, before, p);
        even_rows(work, e, p, d, to, w);
        odd_rows(work, d, p, next, to, w);
    }

    // Back: the last pair of rows first, so that what is still to be read lies before what is written.
    fn join(self, pyramid: &[i32], work: &mut [u32])
        requires { ForJoinTurn self pyramid.now work.old }
        ensures { TurnJoined self pyramid.now work.old work.new }
    {
        self.join_high_row(pyramid, work, self.pairs - 1, self.lines);
        for i in (0..self.pairs).rev() {
            self.join_pair(pyramid, work, i);
        }
    }
}

// The LL band is what the way back starts from.
fn load_block(pyramid: &[i32], work: &mut [u32], height: usize, width: usize, stride: usize)
    requires { ForBlockLoad pyramid.now work.old height width stride }
    ensures { BlockLoaded pyramid.now work.old height width stride work.new }
{
    for i in 0..height {
        let (at, to) = (i * stride, i * width);
        load_line(&pyramid[at..at + width], &mut work[to..to + width]);
    }
}

pub fn join_pyramid(z: Size, pyramid: &[i32], work: &mut [u32])
    requires { Joining z pyramid.now work.old }
    ensures { Joined z pyramid.now work.old work.new }
{
    load_block(pyramid, work, z.h >> z.n, z.w >> z.n, z.w);
    for l in (0..z.n).rev() {
        Turn::new(z, l).join(pyramid, work);
    }
}
