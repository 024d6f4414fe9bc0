// The lists of a level, in its stretch of the workspace: LIP, LSP and LIS; and behind the stretch, at the end of the next level's LIS, the sets
// that move out of the level. In LIP and LSP the coder has beside each tree number what a test asks for: past the caches a word that is looked up at
// its place costs more than the test.
#![tactic(auto, unfolding(stretches::specs::Cut::lip_from, stretches::specs::Cut::lsp_from, stretches::specs::Cut::lis_from, stretches::specs::Cut::set_room))]

ghost use Rattle.std.specs.Prelude.{◌≡◌, ◌+◌, ◌*◌, ◌^◌, ◌≤◌, ◌<◌, length};
ghost use Rattle.stretches.specs.Cut.{set_room, lip_from, lsp_from, lis_from};
ghost use Rattle.lists.specs.Lists.{Inside, mark_of, Marked, coefficient, entry, entry_of, index_of, four_from, lip_at, lsp_at, past, emptied};
ghost use Rattle.lists.specs.Lists.{Fits, LipPushed, LinedUp, PushedBy, NextSet, SetAdded, SetKept, SetMoved};

use std::hint;

// Which side of the conversation a pass is run for: the coder answers from the stretch and writes bits, the decoder reads them and draws coefficients.
#[derive(Clone, Copy)]
pub enum Role {
    Codes,
    Reads,
}

// A level's stretch: whose lists it has, for how many coefficients, from which tree number on, and the place behind it where the sets go that move out
// of the level.
#[derive(Clone, Copy)]
pub struct Stretch {
    pub role: Role,
    pub n: usize,
    pub first: usize,
    pub away: usize,
}

// How full the lists are, in the midst of a pass: of LIS so many sets were kept, so many visited, so many are left to visit.
#[derive(Clone, Copy)]
pub struct Fill {
    pub lip: usize,
    pub lsp: usize,
    pub kept: usize,
    pub visited: usize,
    pub left: usize,
    pub moved: usize,
}

// An entry of LIS: a coefficient as type A, for its D, or as type B, for its L. Its bound is asked for below: the definitions' entries have none.
#[derive(Clone, Copy)]
pub enum Set {
    TypeA(usize),
    TypeB(usize),
}

// Where the lists begin, in a stretch for n coefficients.
// Three functions, as lip_at and lsp_at are two: one would take a number or an enum for the list, where the name now says it.
fn lip_from(n: usize) -> usize
    ensures { result ≡ lip_from n }
{
    n
}

fn lsp_from(n: usize) -> usize
    requires { n < 2 ^ 32 }
    ensures { result ≡ lsp_from n }
{
    n + n
}

fn lis_from(n: usize) -> usize
    requires { n < 2 ^ 32 }
    ensures { result ≡ lis_from n }
{
    n + n + n
}

// A set is kept as index x 2, and 1 more for type B.
// No From: that may ask nothing, and this asks for an index under 2^31.
fn number_of(e: Set) -> u32
    requires { index_of e < 2 ^ 31 }
    ensures { entry result ≡ entry_of e }
{
    match e {
        Set::TypeA(p) => (p * 2) as u32,
        Set::TypeB(p) => (p * 2 + 1) as u32,
    }
}

impl From<u32> for Set {
    ghost from_gives = { λ m e. (entry_of e ≡ entry m) × (index_of e < 2 ^ 31) };

    fn from(m: u32) -> Set {
        let p = (m / 2) as usize;
        if m % 2 == 0 {
            Set::TypeA(p)
        } else {
            Set::TypeB(p)
        }
    }
}

// Of a coefficient: how many planes it has, twice, and 1 more where it is negative.
#[tactic(auto, using(crate::proofs::Laws::planes_few), unfolding(crate::specs::Lists::mark_of))]
fn mark_of(word: u32) -> usize
    ensures { (result ≡ mark_of word) × (result < 64) }
{
    2 * coefficients::planes_of(word / 2) + ((word % 2) as usize)
}

// An entry of LIP: 64 x tree number, and by the coder the mark of its word.
// A match, no closure or type parameter: Marked, and so Fits in the contracts below, asks the stretch for its role.
fn marked(s: &[u32], stretch: Stretch, x: usize) -> usize
    requires { (4 * stretch.n ≤ length s.now) × Inside stretch x × (x < 2 ^ 26) }
    ensures { (coefficient result ≡ x) × (result < 2 ^ 32) × Marked stretch s.now result }
{
    match stretch.role {
        Role::Reads => 64 * x,
        Role::Codes => 64 * x + mark_of(stretches::value_at(s, stretch.n, x - stretch.first)),
    }
}

// Entry i of LIP.
pub fn lip_at(s: &[u32], n: usize, i: usize) -> usize
    requires { (4 * n ≤ length s.now) × (i < n) }
    ensures { (result ≡ lip_at n i s.now) × (result < 2 ^ 32) }
{
    s[lip_from(n) + i] as usize
}

// The coefficient of an entry.
#[tactic(auto, unfolding(crate::specs::Lists::coefficient))]
pub fn coefficient_of(e: usize) -> usize
    ensures { result ≡ coefficient e }
{
    e / 64
}

// The i-th coefficient of LSP.
pub fn lsp_at(s: &[u32], n: usize, i: usize) -> usize
    requires { (4 * n ≤ length s.now) × (n < 2 ^ 32) × (i < n) }
    ensures { result ≡ coefficient (lsp_at n i s.now) }
{
    coefficient_of(s[lsp_from(n) + i] as usize)
}

// LIP counts as empty: its entries are read from its front while those that stay are put back there.
pub fn empty_lip(f: Fill) -> Fill
    ensures { result ≡ emptied f }
{
    Fill { lip: 0, ..f }
}

// A coefficient to the end of LIP.
// Slice, stretch and counts are no struct, here and below: between two calls testing and passes write to the slice and keep the counts in their own.
pub fn push_lip(s: &mut [u32], stretch: Stretch, f: Fill, x: usize) -> Fill
    requires { Fits stretch s.old f × (stretch.n < 2 ^ 32) × (f.lip < stretch.n) × Inside stretch x × (x < 2 ^ 26) }
    ensures { LipPushed stretch s.old f x s.new result }
{
    s[lip_end(stretch, f)] = marked(s, stretch, x) as u32;
    Fill {
        lip: f.lip + 1,
        ..f
    }
}

// Four tree numbers behind LIP, where they wait to be tested; LIP itself is as it was.
pub fn line_up(s: &mut [u32], stretch: Stretch, f: Fill, first: usize)
    requires { Fits stretch s.old f × (stretch.n < 2 ^ 32) × (f.lip + 4 ≤ stretch.n) × (stretch.first ≤ first)
        × (first + 4 ≤ stretch.first + stretch.n) × (first + 4 < 2 ^ 26) }
    ensures { LinedUp (four_from first) stretch s.old f s.new }
{
    let mut r = f;
    for i in 0..4 {
        r = push_lip(s, stretch, r, first + i);
    }
}

// The place behind LIP.
pub fn lip_end(stretch: Stretch, f: Fill) -> usize
    requires { (stretch.n < 2 ^ 32) × (f.lip < stretch.n) }
    ensures { result ≡ lip_from stretch.n + f.lip }
{
    lip_from(stretch.n) + f.lip
}

// The entry of a tested coefficient to the end of LSP if it was found, else to the end of LIP. List and counts are chosen as numbers: no branch waits for
// the bit.
pub fn push_tested(s: &mut [u32], stretch: Stretch, f: Fill, e: usize, found: bool) -> Fill
    requires { Fits stretch s.old f × (stretch.n < 2 ^ 32) × (f.lip + f.lsp < stretch.n) × (e < 2 ^ 32) × Marked stretch s.old e }
    ensures { PushedBy found stretch s.old f (coefficient e) s.new result }
{
    let lsp_end = lsp_from(stretch.n) + f.lsp;
    s[hint::select_unpredictable(found, lsp_end, lip_end(stretch, f))] = e as u32;
    let bit = found as usize;
    Fill {
        lip: f.lip + 1 - bit,
        lsp: f.lsp + bit,
        ..f
    }
}

// The next set of LIS to visit.
pub fn next_set(s: &[u32], stretch: Stretch, f: Fill) -> Set
    requires { Fits stretch s.now f × (stretch.n < 2 ^ 32) × (0 < f.left) }
    ensures { NextSet stretch s.now f (entry_of result) × (index_of result < 2 ^ 31) }
{
    Set::from(s[lis_from(stretch.n) + f.visited])
}

// The next set counts as visited.
pub fn past_set(f: Fill) -> Fill
    requires { (0 < f.left) × (f.visited < 2 ^ 32) }
    ensures { result ≡ past f }
{
    Fill {
        visited: f.visited + 1,
        left: f.left - 1,
        ..f
    }
}

// A set to the end of LIS: it is visited in the same pass.
// This, keep_set and move_set are three: a store and a count each, of which one function would be told both.
pub fn add_set(s: &mut [u32], stretch: Stretch, f: Fill, e: Set) -> Fill
    requires { Fits stretch s.old f × (stretch.n < 2 ^ 32) × (f.visited + f.left < set_room stretch.n) × (index_of e < 2 ^ 31) }
    ensures { SetAdded stretch s.old f (entry_of e) s.new result }
{
    s[lis_from(stretch.n) + f.visited + f.left] = number_of(e);
    Fill {
        left: f.left + 1,
        ..f
    }
}

// A visited set keeps its place: behind those kept before it.
pub fn keep_set(s: &mut [u32], stretch: Stretch, f: Fill, e: Set) -> Fill
    requires { Fits stretch s.old f × (stretch.n < 2 ^ 32) × (f.kept < f.visited) × (index_of e < 2 ^ 31) }
    ensures { SetKept stretch s.old f (entry_of e) s.new result }
{
    s[lis_from(stretch.n) + f.kept] = number_of(e);
    Fill {
        kept: f.kept + 1,
        ..f
    }
}

// A visited set moves out of the level.
pub fn move_set(s: &mut [u32], stretch: Stretch, f: Fill, e: Set) -> Fill
    requires { Fits stretch s.old f × (stretch.away + f.moved < length s.old) × (index_of e < 2 ^ 31) }
    ensures { SetMoved stretch s.old f (entry_of e) s.new result }
{
    s[stretch.away + f.moved] = number_of(e);
    Fill {
        moved: f.moved + 1,
        ..f
    }
}

// Where the sets go that come to the end of the LIS of a level whose stretch begins at a place, with so many sets there.
pub fn lis_end(from: usize, n: usize, lis: usize) -> usize
    requires { (from < 2 ^ 33) × (n < 2 ^ 32) × (lis < 2 ^ 32) }
    ensures { result ≡ from + lis_from n + lis }
{
    from + lis_from(n) + lis
}
