// The pass of one part over its level, for coder and decoder alike, in the level's stretch that is lent to it: the sets of LIS visited, and the three
// steps in their order.
#![tactic(auto)]

ghost use Rattle.std.specs.Prelude.{◌≡◌, map, ◌+◌, ◌*◌, ◌^◌, ◌≤◌, ◌<◌};
ghost use Rattle.rules.specs.Document.Passes.{typeA, typeB};
ghost use Rattle.stretches.specs.Cut.{set_room};
ghost use Rattle.lists.specs.Lists.{entry_of, index_of, four_from, Fits};
ghost use Rattle.testing.specs.Exchange.{family_of};
ghost use Rattle.testing.specs.Finding.{moved_to, Tested};
ghost use Rattle.passes.specs.Steps.{Proper, Added, Opened, Opening, has_member, Underway, InHand, Weighed, Visited, Fresh, Ran};

use lists::{Fill, Set};
use testing::{Ends, Run, Stand};

// Four tree numbers, as sets of type A at the end of LIS.
fn add_block(run: Run, s: &mut [u32], mut f: Fill, first: usize) -> Fill
    requires { Fits run.stretch s.old f × (run.stretch.n < 2 ^ 32) × (f.visited + f.left + 4 ≤ set_room run.stretch.n) × (first + 4 < 2 ^ 31) }
    ensures { Added (map typeA (four_from first)) run.stretch s.old f s.new result }
{
    for i in 0..4 {
        f = lists::add_set(s, run.stretch, f, Set::TypeA(first + i));
    }
    f
}

// The offspring of an opened set are lined up behind LIP and tested from there, as those of LIP are: one loop for both.
fn test_offspring(run: Run, body: &[u8], s: &mut [u32], w: Stand, out: &mut [u8], x: usize) -> Ends
    requires { Opening run (typeA x) s.old w }
    ensures { Tested run body.now (four_from (4 * x)) s.old out.old w s.new out.new (moved_to w result) }
{
    lists::line_up(s, run.stretch, w.fill, 4 * x);
    testing::test_each(run, body, s, w, out, 4)
}

// A set of type A whose bit is 1: its offspring are tested, and it goes to the end of LIS as type B if L is not empty.
fn open_a(run: Run, body: &[u8], s: &mut [u32], w: Stand, out: &mut [u8], x: usize) -> Stand
    requires { Opening run (typeA x) s.old w }
    ensures { Opened run body.now (typeA x) s.old out.old w s.new out.new result }
{
    let ends = test_offspring(run, body, s, w, out, x);
    let r = testing::moved_to(w, ends);
    if 1 < run.level.0 {
        let fill = lists::add_set(s, run.stretch, r.fill, Set::TypeB(x));
        Stand { fill, ..r }
    } else {
        r
    }
}

// A set of type B whose bit is 1: its offspring go to the end of LIS as type A.
fn open_b(run: Run, s: &mut [u32], w: Stand, x: usize) -> Stand
    requires { Opening run (typeB x) s.old w }
    ensures { Added (map typeA ((family_of run).offspring x)) run.stretch s.old w.fill s.new result.fill × (result.at ≡ w.at) }
{
    let fill = add_block(run, s, w.fill, 4 * x);
    Stand { fill, ..w }
}

// A set whose bit is 1.
fn open_set(run: Run, body: &[u8], s: &mut [u32], w: Stand, out: &mut [u8], e: Set) -> Stand
    requires { Opening run (entry_of e) s.old w }
    ensures { Opened run body.now (entry_of e) s.old out.old w s.new out.new result }
{
    match e {
        Set::TypeA(x) => open_a(run, body, s, w, out, x),
        Set::TypeB(x) => open_b(run, s, w, x),
    }
}

// Whether a set has a member in the level: the roots of level N+1 have none there. Elsewhere each of type A has, and each of type B that was in
// LIS at the beginning; one that was made meanwhile has its members in finer levels.
fn has_member(run: Run, visited: usize, e: Set) -> bool
    ensures { result ≡ has_member run visited (entry_of e) }
{
    run.level.0 <= run.z.n
        && match e {
            Set::TypeA(_) => true,
            Set::TypeB(_) => visited < run.olds,
        }
}

// The bit of a set that has members in the level: it stays in its place, or is opened.
fn weigh(run: Run, body: &[u8], s: &mut [u32], w: Stand, out: &mut [u8], e: Set) -> Stand
    requires { Proper run × InHand run body.now (entry_of e) s.old out.old w × (index_of e < 2 ^ 31) }
    ensures { Weighed run body.now (entry_of e) s.old out.old w s.new out.new result }
{
    let bit = testing::ask_set(run, body, s, out, w.at, e);
    let asked = Stand { at: bit.next, ..w };
    if bit.bit {
        open_set(run, body, s, asked, out, e)
    } else {
        let fill = lists::keep_set(s, run.stretch, w.fill, e);
        Stand { fill, ..asked }
    }
}

// One entry of LIS: moved out of the level if it has no member there, else weighed.
fn visit_set(run: Run, body: &[u8], s: &mut [u32], w: Stand, out: &mut [u8]) -> Stand
    requires { Proper run × Underway run body.now s.old out.old w × (0 < w.fill.left) }
    ensures { Visited run body.now s.old out.old w s.new out.new result
        × (result.fill.visited ≡ w.fill.visited + 1) }
{
    let e = lists::next_set(s, run.stretch, w.fill);
    let past = lists::past_set(w.fill);
    if has_member(run, w.fill.visited, e) {
        weigh(run, body, s, Stand { fill: past, ..w }, out, e)
    } else {
        let fill = lists::move_set(s, run.stretch, past, e);
        Stand { fill, ..w }
    }
}

// Step 2: each entry of LIS, those added to its end meanwhile included.
fn visit_lis(run: Run, body: &[u8], s: &mut [u32], w: Stand, out: &mut [u8]) -> Stand
    requires { Proper run × Underway run body.now s.old out.old w }
    ensures { Visited run body.now s.old out.old w s.new out.new result × (result.fill.left ≤ 0) }
{
    let mut r = w;
    // No range to go over: a set that is opened adds others to the end.
    while 0 < r.fill.left {
        r = visit_set(run, body, s, r, out);
    }
    r
}

// One part's pass in the level's stretch: the three steps.
pub fn run_pass(run: Run, body: &[u8], s: &mut [u32], w: Stand, out: &mut [u8]) -> Stand
    requires { Fresh run body.now s.old out.old w }
    ensures { Ran run body.now s.old out.old w s.new out.new result }
{
    let fill = lists::empty_lip(w.fill);
    let begin = Stand { fill, ..w };
    let ends = testing::test_each(run, body, s, begin, out, w.fill.lip);
    let tested = testing::moved_to(begin, ends);
    let visited = visit_lis(run, body, s, tested, out);
    let at = testing::refine_lsp(run, body, s, w.fill.lsp, out, visited.at);
    Stand { at, ..visited }
}
