// Document 01's types, shared by every crate above. The rules themselves stand in specs/Document.
#![tactic(auto)]

pub const VERSION: usize = 1;

pub const GREATEST_SIDE: usize = 512;

pub const MOST_PLANES: usize = 17;

// Places for one number a level: as many as a record can have levels.
pub const LEVEL_PLACES: usize = 6;

// The lengths of the answers of coding, serving and decoding.
pub const CODE_PLACES: usize = 3;

pub const SERVE_PLACES: usize = 4;

pub const DECODE_PLACES: usize = 3 + 2 * LEVEL_PLACES;

// Planes and levels are counted apart: a place for one never accepts the other.
#[derive(Clone, Copy, PartialEq, Eq, PartialOrd, Ord)]
pub struct Plane(pub usize);

#[derive(Clone, Copy, PartialEq, Eq, PartialOrd, Ord)]
pub struct Level(pub usize);

// Width, height and decomposition count.
#[derive(Clone, Copy)]
pub struct Size {
    pub w: usize,
    pub h: usize,
    pub n: usize,
}

// What a call is refused for, with the place where one is reported.
#[derive(Clone, Copy)]
pub enum Refusal {
    Size,
    Length,
    Work,
    Range(usize),
    Room,
    Head(usize),
    Version,
    Part(usize),
    Pad(usize),
    Fit(usize),
    Ask,
    LongForm(usize),
    Grey,
    Mixed,
    Clash(usize),
}

// What is told of a result beside its bytes: of serving the lengths of the whole and of the tail; of decoding the tail's length, the plane that each
// level reached and how many of its parts were skipped.
#[derive(Clone, Copy)]
pub struct Extent {
    pub length: usize,
    pub tail: usize,
}

#[derive(Clone, Copy)]
pub struct Reach {
    pub tail: usize,
    pub reached: [Plane; LEVEL_PLACES],
    pub skipped: [usize; LEVEL_PLACES],
}

// Why no number stands at a place.
#[derive(Clone, Copy)]
pub enum NoNumber {
    TooManyBytes,
    LongForm,
    CutOff,
}

// A header read: what it says and the place after it.
#[derive(Clone, Copy)]
pub struct Header {
    pub size: Size,
    pub planes: usize,
    pub end: usize,
}

// A part of a record: its head, and where it, its body and the next part begin.
#[derive(Clone, Copy)]
pub struct Part {
    pub plane: Plane,
    pub level: Level,
    pub bits: usize,
    pub place: usize,
    pub body: usize,
    pub end: usize,
}

// What stands at a place of a record that is in order: a part, one that is whole but for its body, or less than a head.
#[derive(Clone, Copy)]
pub enum Piece {
    Part(Part),
    Cut(Part),
    Tail,
}
