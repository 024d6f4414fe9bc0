// The largest magnitude in D and in L of every node, found once: "found from the offspring and the same node's L", "from the D of each offspring".
#![tactic(auto)]

ghost use Rattle.std.specs.Prelude.{◌≡◌, true, ◌+◌, ◌-◌, ◌*◌, ◌/◌, ◌^◌, ◌≤◌, ◌<◌, max, length};
ghost use Rattle.rules.specs.Document.Pyramid.{legal_size, levels};
ghost use Rattle.largest.specs.Blocks.{word_measure, near, far, four, SomeD, SomeL};
ghost use Rattle.largest.specs.Filling.{Fillable, Filled};
ghost use Rattle.largest.specs.Steps.{Placed, LevelD, LevelL, FilledTo};

use rules::{Level, Size};

#[tactic(auto, using(crate::proofs::Measures::word_planes), unfolding(coefficients::specs::Words::magnitude_word))]
fn measure_of(w: u32) -> u32
    ensures { (result ≡ word_measure w) × (result ≤ 32) }
{
    coefficients::planes_of(w / 2) as u32 + 1
}

fn largest_of(a: u32, b: u32, c: u32, d: u32) -> u32
    ensures { result ≡ max (max a b) (max c d) }
{
    a.max(b).max(c.max(d))
}

// The measure of the largest word is the largest measure.
fn near_at(s: &[u32], b: usize) -> u32
    requires { (4 * b + 3 < length s.now) × (b < 2 ^ 32) }
    ensures { (result ≡ near s.now b) × (result ≤ 32) }
{
    let i = 4 * b;
    measure_of(largest_of(s[i], s[i + 1], s[i + 2], s[i + 3]))
}

// Where the next finer level's stretch lies behind, its maxima begin at 4 n + 15 n.
#[tactic(auto, unfolding(crate::specs::Blocks::far, stretches::specs::Cut::largest_l))]
fn far_at(s: &[u32], n: usize, b: usize) -> u32
    requires { (n < 2 ^ 32) × (b < 2 ^ 32) }
    ensures { result ≡ far n s.now b }
{
    let i = 19 * n + 4 * b;
    s.get(i).map_or(0, |m| *m / 32)
}

// D of all blocks of a stretch for n coefficients, from their values and from L in the stretch behind.
fn fill_blocks_d(s: &mut [u32], n: usize)
    requires { (4 * n ≤ length s.old) × (n < 2 ^ 32) }
    ensures { SomeD n s.old (n / 4) s.new }
{
    for b in 0..n / 4 {
        let near = near_at(s, b);
        let far = far_at(s, n, b);
        // Not near.max(far): that has half again as many mispredicted branches.
        stretches::set_maximum(s, n, b, far.max(near));
    }
}

fn four_at(s: &[u32], n: usize, c: usize) -> u32
    requires { (4 * n ≤ length s.now) × (n < 2 ^ 32) × (c < 2 ^ 32) }
    ensures { (result ≡ four n s.now c) × (result < 32) }
{
    let b = 4 * c;
    largest_of(
        stretches::maximum_at(s, n, b) % 32,
        stretches::maximum_at(s, n, b + 1) % 32,
        stretches::maximum_at(s, n, b + 2) % 32,
        stretches::maximum_at(s, n, b + 3) % 32,
    )
}

// L of all fours of blocks of a stretch for n coefficients, from the D of each.
// It shares with fill_blocks_d the for alone: L is of each fourth block and is added to the D that stands there.
fn fill_blocks_l(s: &mut [u32], n: usize)
    requires { (4 * n ≤ length s.old) × (n < 2 ^ 32) }
    ensures { SomeL n s.old (n / 16) s.new }
{
    for c in 0..n / 16 {
        let l = four_at(s, n, c);
        let d = stretches::maximum_at(s, n, 4 * c) % 32;
        stretches::set_maximum(s, n, 4 * c, d + 32 * l);
    }
}

fn fill_level_d(z: Size, k: Level, work: &mut [u32])
    requires { Placed z k.0 work.old }
    ensures { LevelD z k.0 work.old work.new }
{
    let n = shape::level_size(z, k);
    fill_blocks_d(
        &mut work[stretches::stretch_from(z, k)..stretches::lent_to(z, k)],
        n,
    );
}

// What is asked, lent and filled differs from fill_level_d: one function for both would be told each of the three.
fn fill_level_l(z: Size, k: Level, work: &mut [u32])
    requires { Placed z k.0 work.old × (k.0 + 1 ≤ z.n) }
    ensures { LevelL z k.0 work.old work.new }
{
    let n = shape::level_size(z, k);
    fill_blocks_l(
        &mut work[stretches::stretch_from(z, k)..stretches::stretch_to(z, k)],
        n,
    );
}

// D of the nodes of level k and of all levels under it, the same nodes' L first. Below level 3 L is empty.
// No loop over the levels: document 01 finds D from L and L from D (docs/DECISIONS.md, the forms that it names).
#[cycle(fill_d_fill_l)]
fn fill_d(z: Size, k: Level, work: &mut [u32])
    requires { Fillable z work.old × (2 ≤ k.0) × (k.0 ≤ levels z) }
    ensures { FilledTo z k.0 (k.0 - 1) work.old work.new }
{
    if k.0 > 2 {
        fill_l(z, k, work);
    }
    fill_level_d(z, Level(k.0 - 1), work);
}

// L of the nodes of level k, from the D of their offspring, of level k - 1.
#[cycle(fill_d_fill_l)]
fn fill_l(z: Size, k: Level, work: &mut [u32])
    requires { Fillable z work.old × (3 ≤ k.0) × (k.0 ≤ levels z) }
    ensures { FilledTo z (k.0 - 1) (k.0 - 1) work.old work.new }
{
    fill_d(z, Level(k.0 - 1), work);
    fill_level_l(z, Level(k.0 - 2), work);
}

// The maxima of all levels.
pub fn fill(z: Size, work: &mut [u32])
    requires { Fillable z work.old }
    ensures { Filled z work.old work.new }
{
    fill_d(z, Level(z.n + 1), work);
}
