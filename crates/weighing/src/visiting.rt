// The search over all locations, one after the other, each with only the events of the log that matter there.
ghost use Rattle.std.specs.Prelude.{suc, ◌≡◌};
ghost use Rattle.model.specs.OneLocation.{site_of};
ghost use Rattle.model.specs.Meaning.{topology_of};
ghost use Rattle.entries.specs.Entries.{site_meant};
ghost use Rattle.weighing.specs.Weighing.{Weighable};
ghost use Rattle.weighing.specs.Visiting.{Visitable, Visited};

use entries::Site;
use events::picking::{index, pick_events};
use events::retiming::retime;
use model::{Location, Topology};
use search::explaining::Found;
use search::shortening::shorten;

// How many of the events have a run at each location so far, and how many steps their shortest schedules have.
#[derive(Clone, Copy)]
pub struct Progress {
    pub events: usize,
    pub steps: usize,
}

// Visits the location of a site: the events that go on from it, and the steps with those of its shortest schedule.
fn visit(w: &mut [u64], t: Topology, site: Site, all: usize, p: Progress) -> Progress
    requires { Visitable t all site.location.0 p w.old
        × (site_meant site ≡ site_of (topology_of t) site.location.0) }
    ensures { Visited t all (suc site.location.0) w.old result w.new }
{
    let count = pick_events(w, site.location, p.events);
    if count == 0 {
        return p;
    }
    match shorten(w, site, count, p.steps) {
        Found::First(n) => {
            let events = index(&*w, n);
            Progress { events, ..p }
        }
        // Not all events of the log had a run before: no schedule is sought any more.
        Found::All(_) if p.events < all => p,
        Found::All(steps) => {
            retime(w, count, p.steps, steps);
            Progress { steps, ..p }
        }
    }
}

// Visits every location. Where it lives is looked up here, since a call would copy the topology.
pub(crate) fn visit_all(w: &mut [u64], t: Topology, events: usize) -> Progress
    requires { Weighable t events w.old }
    ensures { Visited t events t.locations w.old result w.new }
{
    let mut p = Progress { events, steps: 0 };
    for x in 0..t.locations {
        let h = t.homes[x as usize];
        p = visit(w, t, Site::at(t, Location(x), h), events, p);
    }
    p
}
