// The rows of one location, from an event backward, as far as the waypoint where the walk can go on from.
//
// Callers see to it that the scratch area has at least 4,096 words and at most 129 events, each known, and that the
// values of the copies and the waypoints of the walk are there.
ghost use Rattle.std.specs.Prelude.{◌≡◌, true, ◌↔◌, ◌≤◌, ◌<◌, length};
ghost use Rattle.rows.specs.Rows.{Fine};
ghost use Rattle.rows.specs.Steps.{Stepped};
ghost use Rattle.scratch.specs.Words.{event_in, copy_in, waypoint_in};
ghost use Rattle.scratch.specs.Layout.{WORDS, MOST};
ghost use Rattle.walking.specs.StepsBack.{Steppable};
ghost use Rattle.search.specs.Paths.{Retraceable, Retraced};

use entries::Site;
use rows::{Row, fine, is_empty, last_row, row_step};
use scratch::{get_copy, get_event, get_waypoint, put_row};

// The row before event t, when `rest` is the row after it.
fn step_back(w: &[u64], site: Site, t: usize, rest: Row) -> Row
    requires { Steppable site t w.now rest }
    ensures { Stepped site (event_in w.now t) (copy_in w.now t) rest result }
{
    row_step(site, get_event(w, t), get_copy(w, t), rest)
}

// The row has the waypoint before event t.
fn has_waypoint(w: &[u64], t: usize, row: Row) -> bool
    requires { (WORDS ≤ length w.now) × (t < MOST) × ((waypoint_in w.now t).code < 64) }
    ensures { (result ≡ true)
        ↔ Fine row (waypoint_in w.now t).code (waypoint_in w.now t).memory }
{
    let p = get_waypoint(w, t);
    fine(row, p.code, p.memory)
}

// The last of the m events from which the rest of them can be finished, when the walk goes on from the waypoint before
// it, if there is one.
pub(crate) fn retrace(w: &mut [u64], site: Site, m: usize) -> Option<usize>
    requires { Retraceable site m w.old }
    ensures { Retraced site m w.old result w.new }
{
    let mut row = last_row();
    for t in (0..m).rev() {
        put_row(w, t + 1, row);
        row = step_back(&*w, site, t, row);
        if has_waypoint(&*w, t, row) {
            return Some(t);
        }
        // No run leads to an empty row, wherever it begins.
        if is_empty(row) {
            return None;
        }
    }
    None
}
