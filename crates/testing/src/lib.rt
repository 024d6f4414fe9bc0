// Single coefficients, for coder and decoder alike, in the level's stretch that is lent to a pass: those of LIP and the offspring of an opened set
// tested, those of LSP refined, and the leaves that ask of them and take note for either side.
#![tactic(auto)]

ghost use Rattle.std.specs.Prelude.{true, false, cond, ◌≡◌, [], ◌∷◌, ◌+◌, ◌*◌, ◌^◌, ◌≤◌, ◌<◌, length};
ghost use Rattle.rules.specs.Document.Pyramid.{most_planes};
ghost use Rattle.rules.specs.Document.Passes.{bit?, set?, refined};
ghost use Rattle.bits.specs.Bits.{set_bit};
ghost use Rattle.lists.specs.Lists.{Inside, Marked, coefficient, entry_of, index_of, waiting, known, Fits};
ghost use Rattle.testing.specs.Exchange.{word_at, largest_at, side, Replied, Noted, reads, Silent};
ghost use Rattle.testing.specs.Telling.{SaidFound, ReadFound, AnsweredBy, NotedBy};
ghost use Rattle.testing.specs.Finding.{ends_of, moved_to, Testing, Tested, Refining, Refined};

use bits::{BitPosition, BitRead};
use lists::{Fill, Role, Set, Stretch};
use rules::{Level, Plane, Size};

// Which part is run. The tree numbers of the nodes whose offspring are in the level begin at `parents`, those of the nodes whose offspring's offspring
// are at `elders`. At the beginning its LIS had so many sets, and the bits go on from a place. Those that
// are there end at the place `until`: of a part that is cut, W1 has the tail decoded "as far as its bits go".
// Body, stretch, stand and output go beside it one by one: the contracts of ask_set, test_each, refine_lsp and passes::run_pass name each. Nor do
// types here or in lists keep a bound on a plane, a count or a position: run_of and stretch_for of the definitions make runs of any numbers.
#[derive(Clone, Copy)]
pub struct Run {
    pub z: Size,
    pub plane: Plane,
    pub level: Level,
    pub stretch: Stretch,
    pub parents: usize,
    pub elders: usize,
    pub olds: usize,
    pub from: BitPosition,
    pub until: BitPosition,
}

// Where a pass stands: how full the lists are, and the place of the next bit.
#[derive(Clone, Copy)]
pub struct Stand {
    pub fill: Fill,
    pub at: BitPosition,
}

// What a test moves of where a pass stands: the ends of LIP and LSP, and the place of the next bit. A small answer: the rest of a stand is not
// carried through memory for each block of four.
#[derive(Clone, Copy)]
pub struct Ends {
    pub lip: usize,
    pub lsp: usize,
    pub at: BitPosition,
}

// What was told of a coefficient: whether it is found and, if so, whether it is negative; and the place of the next bit.
// Two bools and no Option<bool>: no branch may wait for the bit that was found, and an Option is opened by one.
#[derive(Clone, Copy)]
pub struct Told {
    pub found: bool,
    pub negative: bool,
    pub next: BitPosition,
}

// The coder's reply, written as the next bit.
fn say(out: &mut [u8], at: BitPosition, bit: bool) -> BitRead
    requires { at.at < 2 ^ 62 }
    ensures { (result.bit ≡ bit) × (result.next.at ≡ at.at + 1) × (out.new ≡ set_bit out.old at.at bit) }
{
    let next = at.write(out, bit);
    BitRead { bit, next }
}

// The word of a coefficient of the level.
fn word_at(run: Run, s: &[u32], x: usize) -> u32
    requires { (4 * run.stretch.n ≤ length s.now) × Inside run.stretch x }
    ensures { result ≡ word_at run s.now x }
{
    stretches::value_at(s, run.stretch.n, x - run.stretch.first)
}

// The sign's bit, 0 where none is asked for.
fn sign_bit(found: bool, negative: bool) -> bool
    ensures { result ≡ cond found negative false }
{
    found && negative
}

// The coder's answers, written: the sign's bit of a coefficient that isn't found is written as 0 and counts for nothing, so that no branch waits for
// the bit before it.
fn say_found(out: &mut [u8], at: BitPosition, found: bool, negative: bool) -> Told
    requires { at.at + 2 < 2 ^ 62 }
    ensures { SaidFound found negative out.old at result out.new }
{
    let second = at.write(out, found);
    second.write(out, sign_bit(found, negative));
    Told {
        found,
        negative,
        next: BitPosition {
            at: second.at + (found as usize),
        },
    }
}

// The decoder reads the bit behind in any case.
fn read_found(body: &[u8], at: BitPosition) -> Told
    requires { at.at + 2 < 2 ^ 62 }
    ensures { ReadFound body.now at result }
{
    let first = at.read(body);
    let second = first.next;
    let sign = second.read(body);
    Told {
        found: first.bit,
        negative: sign.bit,
        next: BitPosition {
            at: second.at + (first.bit as usize),
        },
    }
}

// Whether a coefficient is significant and, if so, negative: the coder has both in its entry.
// The side is a value and no type parameter, here and below: it stands in Stretch, of which theorems speak (Marked, Marks, Started).
fn ask_found(run: Run, body: &[u8], out: &mut [u8], at: BitPosition, e: usize) -> Told
    requires { (at.at + 2 < 2 ^ 62) × (run.plane.0 < most_planes) }
    ensures { AnsweredBy run body.now e out.old at result out.new }
{
    match run.stretch.role {
        Role::Reads => read_found(body, at),
        Role::Codes => {
            let planes = e / 2 % 32;
            say_found(out, at, run.plane.0 < planes, e % 2 == 1)
        }
    }
}

// Bit n of a coefficient. Not one function with ask_set: it would take the coder's answer as a closure, which is longer than the match it saves.
fn ask_bit(run: Run, body: &[u8], s: &[u32], out: &mut [u8], at: BitPosition, x: usize) -> BitRead
    requires { (at.at < 2 ^ 62) × (run.plane.0 < most_planes) × (4 * run.stretch.n ≤ length s.now) × Inside run.stretch x }
    ensures { Replied (side run s.now body.now) (bit? x) out.old at result out.new }
{
    match run.stretch.role {
        Role::Reads => at.read(body),
        Role::Codes => say(out, at, (word_at(run, s, x) / 2 >> run.plane.0) % 2 == 1),
    }
}

// The number of planes, and one more, of the largest magnitude in a set that has members in the level; 0 of any other.
fn largest_in(run: Run, s: &[u32], e: Set) -> u32
    requires { (4 * run.stretch.n ≤ length s.now) × (run.stretch.n < 2 ^ 32) × (index_of e < 2 ^ 32) }
    ensures { result ≡ largest_at run s.now (entry_of e) }
{
    let n = run.stretch.n;
    match e {
        Set::TypeA(x) => {
            if x < run.parents {
                0
            } else {
                stretches::maximum_at(s, n, x - run.parents) % 32
            }
        }
        Set::TypeB(x) => {
            if x < run.elders {
                0
            } else {
                stretches::maximum_at(s, n, 4 * (x - run.elders)) / 32
            }
        }
    }
}

// Whether a set is significant.
pub fn ask_set(run: Run, body: &[u8], s: &[u32], out: &mut [u8], at: BitPosition, e: Set) -> BitRead
    requires { (at.at < 2 ^ 62) × (run.plane.0 < most_planes) × (4 * run.stretch.n ≤ length s.now) × (run.stretch.n < 2 ^ 32)
        × (index_of e < 2 ^ 32) }
    ensures { Replied (side run s.now body.now) (set? (entry_of e)) out.old at result out.new }
{
    match run.stretch.role {
        Role::Reads => at.read(body),
        Role::Codes => say(out, at, run.plane.0 as u32 + 1 < largest_in(run, s, e)),
    }
}

// The decoder draws a coefficient that is found, if its sign is there; the coder draws none. The word of one that isn't found goes to the place behind
// LIP.
fn note_tested(
    run: Run,
    s: &mut [u32],
    f: Fill,
    at: BitPosition,
    x: usize,
    found: bool,
    negative: bool,
)
    requires { (run.plane.0 < most_planes) × Fits run.stretch s.old f × (run.stretch.n < 2 ^ 32) × (f.lip < run.stretch.n)
        × Inside run.stretch x }
    ensures { NotedBy found run at.at x negative f s.old s.new }
{
    match run.stretch.role {
        Role::Codes => {}
        Role::Reads => {
            if at.at <= run.until.at {
                let word = coefficients::found_word(negative, run.plane);
                let spare = lists::lip_end(run.stretch, f);
                stretches::set_value_or(
                    s,
                    run.stretch.n,
                    x - run.stretch.first,
                    word,
                    found,
                    spare,
                );
            }
        }
    }
}

// The decoder draws a coefficient that a bit makes larger; the coder draws none. A bit that isn't there is 0, which makes nothing larger: no test of
// each is needed.
fn note_refined(run: Run, s: &mut [u32], at: BitPosition, x: usize, bit: bool)
    requires { (run.plane.0 < most_planes) × (4 * run.stretch.n ≤ length s.old) × (reads run ≡ true → word_at run s.old x < 2 ^ 30)
        × (reads run ≡ true → run.until.at < at.at → bit ≡ false) × Inside run.stretch x }
    ensures { Noted run at.at (refined x bit) s.old s.new }
{
    match run.stretch.role {
        Role::Codes => {}
        Role::Reads => {
            let i = x - run.stretch.first;
            let old = stretches::value_at(s, run.stretch.n, i);
            let word = coefficients::refined_word(old, bit, run.plane);
            stretches::set_value(s, run.stretch.n, i, word);
        }
    }
}

impl From<Stand> for Ends {
    fn from(w: Stand) -> Ends
        ensures { result ≡ ends_of w }
    {
        Ends {
            lip: w.fill.lip,
            lsp: w.fill.lsp,
            at: w.at,
        }
    }
}

// Where a pass stands, with the ends that a test left.
pub fn moved_to(w: Stand, e: Ends) -> Stand
    ensures { result ≡ moved_to w e }
{
    Stand {
        fill: Fill {
            lip: e.lip,
            lsp: e.lsp,
            ..w.fill
        },
        at: e.at,
    }
}

// The coefficient of an entry is tested: its bits, and its place at the end of LSP or of LIP.
fn test(run: Run, body: &[u8], s: &mut [u32], w: Stand, out: &mut [u8], e: usize) -> Ends
    requires { (run.plane.0 < most_planes) × Fits run.stretch s.old w.fill × (run.stretch.n < 2 ^ 32)
        × (w.fill.lip + w.fill.lsp < run.stretch.n) × (w.at.at + 2 < 2 ^ 62) × (e < 2 ^ 32)
        × Inside run.stretch (coefficient e) × Marked run.stretch s.old e }
    ensures { Tested run body.now (coefficient e ∷ []) s.old out.old w s.new out.new
        (moved_to w result) }
{
    let told = ask_found(run, body, out, w.at, e);
    let x = lists::coefficient_of(e);
    note_tested(run, s, w.fill, told.next, x, told.found, told.negative);
    let fill = lists::push_tested(s, run.stretch, w.fill, e, told.found);
    Ends {
        lip: fill.lip,
        lsp: fill.lsp,
        at: told.next,
    }
}

// Step 1, and the offspring of an opened set: the m coefficients that wait behind LIP are tested, in order. Those that stay are put to its end, which
// never passes the next one that waits.
pub fn test_each(run: Run, body: &[u8], s: &mut [u32], w: Stand, out: &mut [u8], m: usize) -> Ends
    requires { Testing run m s.old w }
    ensures { Tested run body.now (waiting run.stretch.n w.fill.lip m s.old) s.old out.old w
        s.new out.new (moved_to w result) }
{
    let mut r = Ends::from(w);
    for i in 0..m {
        let e = lists::lip_at(s, run.stretch.n, w.fill.lip + i);
        r = test(run, body, s, moved_to(w, r), out, e);
    }
    r
}

// The refinement of a coefficient.
fn refine(
    run: Run,
    body: &[u8],
    s: &mut [u32],
    out: &mut [u8],
    at: BitPosition,
    x: usize,
) -> BitPosition
    requires { (at.at < 2 ^ 62) × (run.plane.0 < most_planes) × (4 * run.stretch.n ≤ length s.old)
        × (reads run ≡ true → word_at run s.old x < 2 ^ 30) × Silent run body.now × Inside run.stretch x }
    ensures { Refined run body.now (x ∷ []) s.old out.old at s.new out.new result }
{
    let bit = ask_bit(run, body, s, out, at, x);
    note_refined(run, s, bit.next, x, bit.bit);
    bit.next
}

// Step 3: each of the m entries of LSP that came in at an earlier plane.
pub fn refine_lsp(
    run: Run,
    body: &[u8],
    s: &mut [u32],
    m: usize,
    out: &mut [u8],
    at: BitPosition,
) -> BitPosition
    requires { Refining run m s.old at × Silent run body.now }
    ensures { Refined run body.now (known run.stretch.n m s.old) s.old out.old at
        s.new out.new result }
{
    let mut next = at;
    for i in 0..m {
        let x = lists::lsp_at(s, run.stretch.n, i);
        next = refine(run, body, s, out, next, x);
    }
    next
}
