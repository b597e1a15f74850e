// What a topology says: whether it is within the limits, and who owns what.
ghost use Rattle.std.specs.Prelude.{◌≡◌, ◌&&◌, ◌≤◌, get_or};
ghost use Rattle.model.specs.Cxl0.{nowhere, is_machine, is_location, named, event, SetCrash};
ghost use Rattle.model.specs.Meaning.{home_of, topology_of, owners_fit, within_limits};

use super::codes::none_above;
use super::{Home, LOCATIONS, Location, MACHINES, Machine, NOWHERE, Topology};

impl Topology {
    // Each location is owned by one of the machines.
    fn owners_fit(self) -> bool
        requires { self.locations ≤ 32 }
        ensures { result ≡ owners_fit self.machines (topology_of self).homes }
    {
        let listed = &self.homes[..self.locations as usize];
        listed.iter().all(|home| self.is_machine(home.owner))
    }

    // 1 to 6 machines, at most 32 locations, each owned by one of the machines.
    #[tactic(auto, unfolding(crate::specs::Meaning::within_limits))]
    pub fn within_limits(self) -> bool
        ensures { result ≡ within_limits self }
    {
        let n = self.machines;
        let count = self.locations as usize;
        1 <= n && n <= MACHINES && count <= LOCATIONS && self.owners_fit()
    }

    #[tactic(auto, unfolding(crate::specs::Cxl0::is_machine, crate::specs::Meaning::topology_of))]
    pub fn is_machine(self, i: Machine) -> bool
        ensures { result ≡ is_machine (topology_of self) i.0 }
    {
        1 <= i.0 && i.0 <= self.machines
    }

    // No machine above the last one is in the set, so that all of it may crash.
    #[tactic(auto, unfolding(crate::specs::Cxl0::named, crate::specs::Meaning::topology_of))]
    pub fn are_machines(self, set: u8) -> bool
        ensures { result ≡ named (topology_of self) (event (SetCrash set)) }
    {
        none_above(self.machines, set)
    }

    #[tactic(auto, using(crate::proofs::Limits::listed, crate::proofs::Limits::mapped))]
    pub fn is_location(self, x: Location) -> bool
        ensures { result ≡ is_location (topology_of self) x.0 }
    {
        let at = x.0 as usize;
        let count = self.locations as usize;
        at < count && at < LOCATIONS
    }

    // Where a location lives.
    #[tactic(auto, using(crate::proofs::Limits::homes_found))]
    pub fn home(self, x: Location) -> Home
        ensures { home_of result ≡ get_or (topology_of self).homes x.0 nowhere }
    {
        if self.is_location(x) {
            self.homes[x.0 as usize]
        } else {
            NOWHERE
        }
    }

    // Within the limits, with this machine and this location.
    pub fn names(self, i: Machine, x: Location) -> bool
        ensures { result ≡ (within_limits self
            && (is_machine (topology_of self) i.0 && is_location (topology_of self) x.0)) }
    {
        self.within_limits() && self.is_machine(i) && self.is_location(x)
    }
}
