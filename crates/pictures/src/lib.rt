// Grey pictures: definitions and laws, in specs, and the types that the crates above share. There is no code here.
#![tactic(auto)]

// A picture in a file: its width and height, and the place where its pixels begin: no slice, as Tells of netpbm speaks of the place.
#[derive(Clone, Copy)]
pub struct Picture {
    pub w: usize,
    pub h: usize,
    pub at: usize,
}

// The length of each grey call's answer.
pub const GREY_PLACES: usize = 4;

// What is told of a result beside its numbers: on the way in the picture's sides, on the way back the length and how many pixels were set to an end.
#[derive(Clone, Copy)]
pub struct Sides {
    pub w: usize,
    pub h: usize,
}

#[derive(Clone, Copy)]
pub struct Printed {
    pub length: usize,
    pub clipped: usize,
}
