// The plane that each level reached, level 1 first, and what it says of the next part: whether it is usable; and how many parts of it were not.
#![tactic(auto)]

ghost use Rattle.std.specs.Prelude.{◌≡◌, true, [], ◌+◌, ◌-◌, ◌^◌, ◌≤◌, ◌<◌, length, set};
ghost use Rattle.rules.specs.Document.Pyramid.{legal_size, most_planes};
ghost use Rattle.rules.specs.Document.Calls.{level_places, reached_planes, count_in};
ghost use Rattle.rules.specs.Laws.Reading.OneWalk.{usable_now};
ghost use Rattle.record.specs.Named.{name_by};
ghost use Rattle.reached.specs.Planes.{reached_at};

use rules::{Header, LEVEL_PLACES, Level, Plane};

// The plane that a level reached. Behind the last place there is nothing to reach.
#[tactic(auto, using(crate::specs::Planes::reached_at_beyond), unfolding(rules::specs::Document::Calls::plane_in))]
fn reached_plane(reached: [Plane; LEVEL_PLACES], level: Level) -> Plane
    requires { (1 ≤ level.0) × (length reached ≡ level_places) }
    ensures { result.0 ≡ reached_at reached level.0 }
{
    reached.get(level.0 - 1).copied().unwrap_or(Plane(0))
}

// Whether a part is usable, by what was reached before it: its level the plane above, the next coarser level its plane.
#[tactic(auto, unfolding(rules::specs::Laws::Reading::OneWalk::usable_now))]
pub fn is_usable(reached: [Plane; LEVEL_PLACES], plane: Plane, level: Level) -> bool
    requires { (plane.0 < most_planes) × (1 ≤ level.0) × (level.0 ≤ level_places) × (length reached ≡ level_places) }
    ensures { result ≡ usable_now (reached_at reached) (name_by plane level) }
{
    let own = reached_plane(reached, level);
    let coarser = reached_plane(reached, Level(level.0 + 1));
    own.0 == plane.0 + 1 && coarser <= plane
}

// That a level has a place stands in three contracts: a type of such levels would ask more of callers, and Level is the definitions' own. Plane 0 for no
// such level is the definitions' own, too.

// A level has reached a plane.
pub fn with_reached(
    mut reached: [Plane; LEVEL_PLACES],
    plane: Plane,
    level: Level,
) -> [Plane; LEVEL_PLACES]
    requires { (1 ≤ level.0) × (level.0 ≤ level_places) }
    ensures { result ≡ set reached (level.0 - 1) plane }
{
    reached[level.0 - 1] = plane;
    reached
}

// One more part of a level was skipped.
#[tactic(auto, unfolding(rules::specs::Document::Calls::count_in))]
pub fn with_skipped(mut skipped: [usize; LEVEL_PLACES], level: Level) -> [usize; LEVEL_PLACES]
    requires { (1 ≤ level.0) × (level.0 ≤ level_places) × (count_in skipped (level.0 - 1) < 2 ^ 32) }
    ensures { result ≡ set skipped (level.0 - 1) (count_in skipped (level.0 - 1) + 1) }
{
    skipped[level.0 - 1] += 1;
    skipped
}

// What the levels reach without any part: no plane, and nothing where there is no such level.
pub fn none_reached(h: Header) -> [Plane; LEVEL_PLACES]
    requires { legal_size h.size ≡ true }
    ensures { result ≡ reached_planes h [] }
{
    let mut reached = [Plane(0); LEVEL_PLACES];
    reached[..h.size.n + 1].fill(Plane(h.planes));
    reached
}
