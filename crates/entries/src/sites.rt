// What the topology says of a location.
ghost use Rattle.std.specs.Prelude.{◌≡◌};
ghost use Rattle.model.specs.OneLocation.{site_of};
ghost use Rattle.model.specs.Meaning.{home_of, topology_of};
ghost use Rattle.entries.specs.Entries.{site_meant, site_at};

use super::Site;
use model::{Home, Location, Topology};

impl Site {
    // A location by its home.
    #[tactic(auto, unfolding(crate::specs::Entries::site_at, model::specs::Meaning::topology_of))]
    pub fn at(t: Topology, x: Location, h: Home) -> Site
        ensures { (site_meant result ≡ site_at (topology_of t) (home_of h)) × (result.location ≡ x) }
    {
        Site {
            location: x,
            owner: h.owner,
            volatile: !h.keeps(t.persistent),
            initial: h.initial,
        }
    }

    #[tactic(auto,
    // A site by its home, and by its location.
    unfolding(crate::specs::Entries::site_at, model::specs::OneLocation::site_of,
    // What the model says of a location.
    model::specs::Cxl0::owner, model::specs::Cxl0::initial, model::specs::Cxl0::is_persistent))]
    pub fn of(t: Topology, x: Location) -> Site
        ensures { (site_meant result ≡ site_of (topology_of t) x.0) × (result.location ≡ x) }
    {
        Site::at(t, x, t.home(x))
    }
}
