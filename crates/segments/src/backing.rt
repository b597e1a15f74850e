// What is left to pay after a write-back at each gap of a segment. There is no copy then, so that no silent step comes
// before the next store.
ghost use Rattle.std.specs.Prelude.{◌≡◌};
ghost use Rattle.model.specs.OneLocation.{clears_site};
ghost use Rattle.model.specs.Meaning.{meant};
ghost use Rattle.masks.specs.Sets.{OneToSix};
ghost use Rattle.rows.specs.Sites.{Known};
ghost use Rattle.entries.specs.Entries.{site_meant};
ghost use Rattle.segments.specs.Weighing.{Bounded, Backable, Backed};
ghost use Rattle.segments.specs.Words.{segment_in};

use crate::words::{Block, Segment};
use entries::Site;
use levels::FAR;
use masks::holds;
use model::Event;
use scratch::{BACKS, get_event};

// No number of a list is below `least`, and one more than each that is not FAR is at most `most`.
#[derive(Clone, Copy)]
pub struct Bounds {
    pub least: u64,
    pub most: u64,
}

// The event resets the memory of the site.
pub fn resets(site: Site, e: Event) -> bool
    requires { Known e × OneToSix site.owner.0 }
    ensures { result ≡ clears_site (meant e) (site_meant site) }
{
    if !site.volatile {
        return false;
    }
    let operation = e.operation;
    match operation {
        7 => site.owner == e.machine,
        11 => holds(e.location.0, site.owner),
        _ => false,
    }
}

impl Bounds {
    // The bounds with one number more.
    fn with(self, n: u64) -> Bounds
        ensures { Bounded self n result }
    {
        let more = if n < FAR { n + 1 } else { 0 };
        Bounds {
            least: self.least.min(n),
            most: self.most.max(more),
        }
    }
}

// Fills in what is left to pay at each gap of segment l, which is s: `back` and `zeta` are what is left behind the last
// gap with the value of the copies in memory, and with the initial value.
pub fn fill_backs(
    w: &mut [u64],
    site: Site,
    b: Block,
    l: usize,
    s: Segment,
    back: u64,
    zeta: u64,
) -> Bounds
    requires { Backable site b l back zeta w.old × (s ≡ segment_in w.old l) × OneToSix site.owner.0 }
    ensures { Backed site b l w.old result w.new }
{
    let mut now = back;
    let mut again = zeta;
    let none = Bounds {
        least: FAR,
        most: 0,
    };
    let mut bounds = none.with(back);
    w[BACKS + s.end] = now;
    for t in (s.reset..s.end).rev() {
        let e = get_event(w, t);
        if resets(site, e) {
            now = again;
            bounds = bounds.with(now);
        } else if e.operation == 4 && site.initial != s.copy {
            again = FAR;
        }
        w[BACKS + t] = now;
    }
    // Up to the first reset, nothing changes what is left to pay.
    w[BACKS + s.first..BACKS + s.reset.min(s.end)].fill(now);
    bounds
}
