// The costs of a segment, once those after it are known.
ghost use Rattle.std.specs.Prelude.{◌≡◌, ◌+◌, ◌≤◌};
ghost use Rattle.levels.specs.Stretches.{FAR};
ghost use Rattle.levels.specs.Tasks.{Fewest};
ghost use Rattle.segments.specs.Segments.{cleared_of, again_of, behind_of};
ghost use Rattle.segments.specs.Weighing.{task_of, keeping_of, Restable, Seeing, written_of, Sameable};
ghost use Rattle.segments.specs.Weighing.{Keepable, Keeps, spared_of, only_below, Otherable, OthersOf};
ghost use Rattle.segments.specs.Weighing.{Weighable, Weighed};

use crate::backing::{Bounds, fill_backs};
use crate::resting::{add, other, rest};
use crate::seeing::{Seen, see};
use crate::words::{Block, Costs, Segment, get_segment, put_costs};
use entries::Site;
use levels::{FAR, Task, fewest};

// What is to pay with a memory value that no event reads, and to keep one that the segment does not read.
#[derive(Clone, Copy)]
pub struct Others {
    pub other: u64,
    pub keep: u64,
}

// The segment with memory that has the value of the copies, or not, and `last` to pay behind it.
pub fn task(site: Site, s: Segment, same: bool, last: u64, bounds: Bounds) -> Task
    requires { bounds.least ≤ FAR }
    ensures { result ≡ task_of site s same last bounds }
{
    let low = last.min(bounds.least + 1);
    let high = if last < FAR {
        last.max(bounds.most)
    } else {
        bounds.most
    };
    Task {
        owner: site.owner,
        end: s.end,
        closing: s.closing,
        reset: s.reset,
        same,
        later: site.initial == s.copy,
        writes: true,
        last,
        low,
        high,
    }
}

// The same without a write-back, with a memory value that is not that of the copies, and nothing to pay behind it.
fn keeping(site: Site, s: Segment) -> Task
    ensures { result ≡ keeping_of site s }
{
    let none = Bounds { least: 0, most: 0 };
    Task {
        writes: false,
        ..task(site, s, false, 0, none)
    }
}

// What is to pay behind the last gap of segment l with the initial value in memory, if it has a reset.
pub fn cleared(w: &[u64], site: Site, b: Block, l: usize, s: Segment) -> u64
    requires { Restable w.now b (l + 1) }
    ensures { result ≡ cleared_of w.now b l s site.initial }
{
    if s.reset < s.end {
        rest(w, b, l + 1, site.initial)
    } else {
        FAR
    }
}

// What `cleared` gives, where no copy is left; FAR if the closing event does not accept that.
pub fn again(site: Site, s: Segment, after: u64) -> u64
    ensures { result ≡ again_of s site.initial after }
{
    if s.closing.accepts(site.initial == s.copy, 0) {
        after
    } else {
        FAR
    }
}

// What is to pay behind the last gap: after a reset, or else with the memory value of the first gap.
pub fn behind(s: Segment, after: u64, kept: u64) -> u64
    ensures { result ≡ behind_of s after kept }
{
    if s.reset < s.end { after } else { kept }
}

// What is to pay with a write-back on the way, from the start of a segment without a reset; `back` is left after it. It
// takes one step where the owner has a copy or gets one without a step, else two; without a copy there is none.
fn written(s: Segment, back: u64, seen: Seen) -> u64
    requires { back ≤ FAR }
    ensures { result ≡ written_of s back seen }
{
    if s.code == 0 {
        return FAR;
    }
    if seen.owned {
        return add(back, 1);
    }
    add(back, 2)
}

// What is to pay from the start of a segment with the value of its copies in memory, which is its task q. Where the
// events do not run through, it is at most what a write-back costs.
fn same_cost(w: &mut [u64], site: Site, s: Segment, q: Task, back: u64, seen: Seen) -> u64
    requires { Sameable site s q back seen w.old }
    ensures { Fewest q s.first s.code FAR w.old result w.new }
{
    if s.reset < s.end {
        return fewest(w, q, s.first, s.code, FAR);
    }
    if seen.same {
        return back;
    }
    let paid = written(s, back, seen);
    if paid <= back + 1 {
        return paid;
    }
    paid.min(fewest(w, q, s.first, s.code, paid))
}

// What keeping a memory value costs in a segment without a reset. From `below` on, that is no better than any value.
fn keep(w: &mut [u64], site: Site, s: Segment, below: u64, seen: Seen) -> u64
    requires { Keepable site s below w.old × Seeing site s w.old seen }
    ensures { Keeps site s below w.old result w.new }
{
    if seen.other && 0 < below {
        return 0;
    }
    if below <= 1 {
        return FAR;
    }
    fewest(w, keeping(site, s), s.first, s.code, below)
}

// How much more one number is than another; FAR is more than any.
fn spared(a: u64, b: u64) -> u64
    ensures { result ≡ spared_of a b }
{
    if FAR <= a {
        return FAR;
    }
    a.saturating_sub(b)
}

// The number, if it is below the bound, else FAR.
fn only_below(n: u64, bound: u64) -> u64
    ensures { result ≡ only_below n bound }
{
    if n < bound { n } else { FAR }
}

// What is to pay from the start of a segment with another value in memory, which is its task q, and to keep it; `least`
// is at most what the segments after it cost. Without a reset, either the value is kept or the copies are written back.
fn other_costs(
    w: &mut [u64],
    site: Site,
    s: Segment,
    q: Task,
    back: u64,
    least: u64,
    seen: Seen,
) -> Others
    requires { Otherable site s q back least seen w.old }
    ensures { OthersOf site s q least w.old result w.new }
{
    if s.reset < s.end {
        return Others {
            other: fewest(w, q, s.first, s.code, FAR),
            keep: FAR,
        };
    }
    let paid = written(s, back, seen);
    let kept = keep(w, site, s, spared(paid, least), seen);
    let other = paid.min(add(kept, q.last));
    Others {
        other,
        keep: only_below(kept, spared(other, least)),
    }
}

// Puts the costs of segment l; `least` is at most what the segments after it cost, with any memory value. Hands back
// such a number for this segment.
pub fn weigh(w: &mut [u64], site: Site, b: Block, l: usize, least: u64) -> u64
    requires { Weighable site b l least w.old }
    ensures { Weighed site b l w.old result w.new }
{
    let s = get_segment(w, l);
    let back = rest(w, b, l + 1, s.copy);
    let next = other(w, b, l + 1);
    let after = cleared(w, site, b, l, s);
    let bounds = fill_backs(w, site, b, l, s, back, again(site, s, after));
    let seen = see(w, site, s);
    let same = same_cost(
        w,
        site,
        s,
        task(site, s, true, behind(s, after, back), bounds),
        back,
        seen,
    );
    let others = other_costs(
        w,
        site,
        s,
        task(site, s, false, behind(s, after, next), bounds),
        back,
        least,
        seen,
    );
    put_costs(
        w,
        l,
        Costs {
            keep: others.keep,
            other: others.other,
            same,
            back,
        },
    );
    same.min(others.other).min(add(others.keep, least))
}
