// The shortest schedule of the events at one location. The walk goes on without a silent step as long as it can, and
// keeps the last place where every run of the events before stands. Where it gets stuck, the block from there to the
// next such place is explained with the fewest steps. If that has no run, neither have all events, and the search for
// any schedule says how many of them have one.
ghost use Rattle.search.specs.Shortening.{Shortenable, Shortened};

use crate::explaining::{Found, explain};
use blocks::blocks::block;
use blocks::splitting::{Kind, Place};
use entries::Site;
use scratch::{STEPS, Waypoint, get_event};
use walking::act_at;

// How many of the events have a run at the site, and behind the `count` words of the list of steps the shortest
// schedule for them if all have one.
pub fn shorten(w: &mut [u64], site: Site, events: usize, count: usize) -> Found
    requires { Shortenable site events count w.old }
    ensures { Shortened site events count w.old result w.new }
{
    let mut known = Place {
        gap: 0,
        code: 0,
        copy: 0,
        memory: site.initial,
        end: STEPS + count,
    };
    let mut at = known;
    while at.gap < events {
        let e = get_event(&*w, at.gap);
        let made = act_at(site, e, at.copy, Waypoint::from(at));
        if made.enabled {
            let bare = (known.gap == at.gap) & (at.code == 0);
            let fixed = Kind::of(e, at.copy).ends_block() | bare;
            let next = Place {
                gap: at.gap + 1,
                code: made.entry.sharers,
                copy: made.entry.copy,
                memory: made.entry.memory,
                end: known.end,
            };
            at = next;
            if fixed {
                known = next;
            }
        } else {
            let Some(next) = block(w, site, known, events) else {
                return explain(w, site, events, count);
            };
            known = next;
            at = next;
        }
    }
    Found::All(known.end - STEPS)
}
