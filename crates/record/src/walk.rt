// Walking over the parts of a record: a cursor stands between two parts, and is one value.
ghost use Rattle.std.specs.Prelude.{◌≡◌, true};
ghost use Rattle.rules.specs.Document.Pyramid.{legal_size};
ghost use Rattle.record.specs.Walk.{first_of, next_of, past_of};

use crate::{Name, read};
use rules::{Header, Level, Part, Piece, Plane, Refusal};

// The name of the part before, and the place of the next one.
#[derive(Clone, Copy)]
pub struct Cursor {
    pub before: Name,
    pub place: usize,
}

impl Cursor {
    // Before the first part, at a name that all parts come after: no Option, as the definitions' read_parts begins with it.
    pub fn first(h: Header) -> Cursor
        ensures { result ≡ first_of h }
    {
        Cursor {
            before: Name {
                plane: Plane(h.planes),
                level: Level(0),
            },
            place: h.end,
        }
    }

    // The part that stands here, or what is there instead of it.
    pub fn next(self, bytes: &[u8], h: Header) -> Result<Piece, Refusal>
        requires { legal_size h.size ≡ true }
        ensures { result ≡ next_of h bytes.now self }
    {
        read::part(bytes, h, self.before, self.place)
    }

    // Behind a part that was read.
    pub fn past(p: Part) -> Cursor
        ensures { result ≡ past_of p }
    {
        Cursor {
            before: Name::from(p),
            place: p.end,
        }
    }
}
