// How far a segment's events go without a silent step.
ghost use Rattle.std.specs.Prelude.{◌≡◌, ◌≢◌};
ghost use Rattle.segments.specs.Weighing.{Seeable, Seeing};

use crate::words::Segment;
use entries::Site;
use masks::holds;
use scratch::{Waypoint, get_event};
use walking::act_at;

// Whether the events run to the segment's end without a step: with a memory value that is not that of the copies, and
// with that of the copies. Whether the owner has a copy on the way, as far as they go.
#[derive(Clone, Copy)]
pub struct Seen {
    pub other: bool,
    pub same: bool,
    pub owned: bool,
}

// A value that is not u.
fn unlike(u: u32) -> u32
    ensures { result ≢ u }
{
    if u == 0 { 1 } else { 0 }
}

// Follows the events from the first code on, with a value in memory that is not that of the copies. An event that is
// possible with it is possible with every memory value. One that is not is possible with the copies' value in memory
// only if no copy is left.
pub(crate) fn see(w: &[u64], site: Site, s: Segment) -> Seen
    requires { Seeable site s w.now }
    ensures { Seeing site s w.now result }
{
    let memory = unlike(s.copy);
    let mut code = s.code;
    let mut owned = holds(code, site.owner);
    for t in s.first..s.end {
        let here = Waypoint {
            code,
            memory,
            end: 0,
        };
        let made = act_at(site, get_event(w, t), s.copy, here);
        if !made.enabled {
            return Seen {
                other: false,
                same: code == 0,
                owned,
            };
        }
        code = made.entry.sharers;
        owned |= holds(code, site.owner);
    }
    let other = s.closing.accepts(false, code);
    Seen {
        other,
        same: other || code == 0,
        owned,
    }
}
