// Explains the events at one location, one after the other. An event that is possible where the walk stands takes no
// silent step. For one that is not, the rows before it say from which earlier waypoint the walk can go on so that it
// is; if from none, the events up to it have no run.
//
// Callers see to it that the scratch area has at least 4,096 words and at most 129 events, and that these are known, so
// that none has a refused operation.
ghost use Rattle.std.specs.Prelude.{◌<◌, true};
ghost use Rattle.search.specs.Paths.{Resumable, Resumed, Stuck, Continuable, Onwards};
ghost use Rattle.search.specs.Paths.{Explainable, Explained};

use crate::backtracking::retrace;
use entries::Site;
use rows::concerned;
use scratch::{STEPS, Waypoint, get_copy, get_event, get_waypoint, put_copy, put_waypoint};
use walking::{act_at, turn};

// How many of the events have a run.
#[derive(Clone, Copy)]
pub enum Found {
    // All of them. The list of steps has so many words with those of their schedule.
    All(usize),
    // Only so many of the first ones.
    First(usize),
}

// Walks again from the waypoint before event `from`, over the rows, to the end of the m events.
fn resume(w: &mut [u64], site: Site, from: usize, m: usize) -> Waypoint
    requires { Resumable site from m w.old }
    ensures { Resumed site from m w.old result w.new }
{
    let mut p = get_waypoint(&*w, from);
    for t in from..m {
        put_waypoint(w, t, p);
        p = turn(w, site, t, p);
    }
    p
}

// The waypoint after event t, by going back and walking again, when the event is not possible where the walk stands.
// None if the events up to it have no run.
fn go_back(w: &mut [u64], site: Site, t: usize, p: Waypoint) -> Option<Waypoint>
    requires { Stuck site t p w.old }
    ensures { Onwards site t p w.old result w.new }
{
    let m = t + 1;
    let from = retrace(w, site, m)?;
    Some(resume(w, site, from, m))
}

// The waypoint after event t, when the walk stands at p before it. None if the events up to it have no run.
fn go_on(w: &mut [u64], site: Site, t: usize, p: Waypoint) -> Option<Waypoint>
    requires { Continuable site t p w.old }
    ensures { Onwards site t p w.old result w.new }
{
    let e = get_event(&*w, t);
    let u = get_copy(&*w, t);
    put_waypoint(w, t, p);
    if !concerned(site, e) {
        put_copy(w, t + 1, u);
        return Some(p);
    }
    let made = act_at(site, e, u, p);
    let after = made.entry;
    put_copy(w, t + 1, after.copy);
    if made.enabled {
        return Some(Waypoint {
            code: after.sharers,
            memory: after.memory,
            end: p.end,
        });
    }
    go_back(w, site, t, p)
}

// How many of the events have a run at the site, and behind the `count` words of the list of steps a schedule for
// them if all have one.
pub fn explain(w: &mut [u64], site: Site, events: usize, count: usize) -> Found
    requires { Explainable site events count w.old }
    ensures { Explained site events count w.old result w.new }
{
    put_copy(w, 0, 0);
    let mut p = Waypoint {
        code: 0,
        memory: site.initial,
        end: STEPS + count,
    };
    for t in 0..events {
        let Some(next) = go_on(w, site, t, p) else {
            return Found::First(t);
        };
        p = next;
    }
    Found::All(p.end - STEPS)
}
