// The shortest schedule of a block: its segments are weighed from the last one to the first, and walked through from
// the first one on, as long as there is a step to pay.
ghost use Rattle.std.specs.Prelude.{◌+◌, ◌≡◌};
ghost use Rattle.segments.specs.Words.{segment_in};
ghost use Rattle.blocks.specs.Blocks.{Laid, Priced, Numbered, Planned, Ahead, Come, Through};
ghost use Rattle.blocks.specs.Blocks.{Closable, Closed, Blockable, Blocked};

use crate::splitting::{Place, split};
use crate::treading::{Stand, over_event, tread};
use entries::Site;
use levels::{FAR, Task};
use scratch::{Waypoint, get_event};
use segments::backing::fill_backs;
use segments::resting::rest;
use segments::weighing::{again, behind, cleared, task, weigh};
use segments::words::{Block, Segment, get_costs, get_segment};
use walking::act_at;

// The costs of all segments.
fn weigh_all(w: &mut [u64], site: Site, b: Block)
    requires { Laid site b w.old }
    ensures { Priced site b w.old w.new }
{
    let mut least: u64 = 0;
    for l in (0..b.count).rev() {
        least = weigh(w, site, b, l, least);
    }
}

// The task of segment l, which is s, with memory value m at its first gap; what is left after write-backs is filled in.
fn plan(w: &mut [u64], site: Site, b: Block, l: usize, s: Segment, m: u32) -> Task
    requires { Numbered site b l w.old × (s ≡ segment_in w.old l) }
    ensures { Planned site b l m w.old result w.new }
{
    let back = get_costs(&*w, l).back;
    let after = cleared(&*w, site, b, l, s);
    let kept = rest(&*w, b, l + 1, m);
    let bounds = fill_backs(w, site, b, l, s, back, again(site, s, after));
    task(site, s, m == s.copy, behind(s, after, kept), bounds)
}

// Walks through segment l and over the event that closes it, if there is one.
fn cross(w: &mut [u64], site: Site, b: Block, l: usize, p: Stand) -> Stand
    requires { Ahead site b l p w.old }
    ensures { Come site b l p w.old (l + 1) result w.new }
{
    let s = get_segment(&*w, l);
    let q = plan(w, site, b, l, s, p.memory);
    let at = tread(w, site, b, l, s, q, p);
    if s.end < b.end {
        return over_event(&*w, site, s.end, s.copy, at);
    }
    at
}

// Walks through the segments as long as there is a step to pay; where the list of steps ends then.
fn walk(w: &mut [u64], site: Site, b: Block, p: Stand) -> usize
    requires { Ahead site b 0 p w.old }
    ensures { Through site b p w.old result w.new }
{
    let mut at = p;
    for l in 0..b.count {
        if at.steps == 0 {
            break;
        }
        at = cross(w, site, b, l, at);
    }
    at.end
}

// The place after the block, which is known, if it is not at the end of the events.
fn after_block(w: &[u64], site: Site, b: Block, end: usize) -> Place
    requires { Closable site b w.now }
    ensures { Closed site b end w.now result }
{
    let last = get_segment(w, b.count - 1);
    let here = Waypoint {
        code: 0,
        memory: b.forced.unwrap_or(0),
        end,
    };
    let made = act_at(site, get_event(w, last.end), last.copy, here);
    Place {
        gap: b.end,
        code: made.entry.sharers,
        copy: made.entry.copy,
        memory: made.entry.memory,
        end,
    }
}

// The shortest schedule from a place to the next one that is known, or to the end of the k events. It answers that next
// place, or None if the events up to there have no run.
pub fn block(w: &mut [u64], site: Site, p: Place, k: usize) -> Option<Place>
    requires { Blockable site p k w.old }
    ensures { Blocked site p k w.old result w.new }
{
    let b = split(w, site, p, k);
    weigh_all(w, site, b);
    let steps = rest(&*w, b, 0, p.memory);
    if FAR <= steps {
        return None;
    }
    let from = Stand {
        code: p.code,
        memory: p.memory,
        end: p.end,
        steps,
    };
    let end = walk(w, site, b, from);
    if b.end == k {
        return Some(Place {
            gap: k,
            code: 0,
            copy: 0,
            memory: 0,
            end,
        });
    }
    Some(after_block(&*w, site, b, end))
}
