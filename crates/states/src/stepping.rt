// The steps of a whole system. Each event and each silent step has a method of its own, as the specification asks.
ghost use Rattle.std.specs.Prelude.{◌≡◌, ◌≢◌, ◌≤◌, cond, ◌&&◌, ◌⊎◌};
ghost use Rattle.model.specs.Cxl0.{nowhere, start, event, LStore, RStore, MStore, Load, LFlush, RFlush};
ghost use Rattle.model.specs.Cxl0.{Crash, SetCrash, RMW, L, R, M, silent, Propagate, WriteBack, named};
ghost use Rattle.model.specs.Meaning.{home_of, topology_of, within_limits, meant, attempt_event};
ghost use Rattle.states.specs.States.{state_of, outcome_of, start_state, state_after, applied_of, Answers};

use super::State;
use entries::{EMPTY, Entry, Site};
use model::{Event, Home, LOCATIONS, Location, Machine, NOWHERE, Topology};

// The event of an operation by its number, of which the event uses what it needs.
fn numbered(operation: u8, machine: Machine, location: Location, value: u32, written: u32) -> Event
    ensures { result ≡ record {
      operation = operation;
      machine = machine;
      location = location;
      value = value;
      written = written;
    } }
{
    Event {
        operation,
        machine,
        location,
        value,
        written,
    }
}

// Where a location lives that is listed or not.
fn home_if(listed: bool, home: Home) -> Home
    ensures { home_of result ≡ cond listed (home_of home) nowhere }
{
    if listed { home } else { NOWHERE }
}

impl State {
    // At the start no cache holds anything and memories hold their initial values. Where a location lives is looked up
    // here, since a call would copy the topology.
    pub fn start(t: Topology) -> State
        ensures result_value { state_of t result ≡ start (topology_of t) }
        ensures whole { result ≡ start_state t }
    {
        let mut entries = [EMPTY; LOCATIONS];
        let count = t.locations as usize;
        for (at, entry) in entries.iter_mut().enumerate() {
            let h = home_if(at < count, t.homes[at]);
            *entry = Entry::start(h.initial);
        }
        State { entries }
    }

    // Every entry as a crash leaves it.
    fn crashed(mut self, t: Topology, e: Event) -> State
        requires { (e.operation ≡ 7) ⊎ (e.operation ≡ 11) }
        ensures { result ≡ state_after t (event (meant e)) self }
    {
        let count = t.locations as usize;
        for (at, entry) in self.entries.iter_mut().enumerate() {
            let home = home_if(at < count, t.homes[at]);
            let site = Site::at(t, Location(at as u8), home);
            *entry = entry.masked(t.machines).act(site, e).entry;
        }
        self
    }

    // The answer to a crash, which is possible if the topology admits it.
    fn crash_if(self, t: Topology, admitted: bool, e: Event) -> Option<State>
        requires is_crash { (e.operation ≡ 7) ⊎ (e.operation ≡ 11) }
        requires admitted_value { admitted ≡ (within_limits t && named (topology_of t) (event (meant e))) }
        ensures { Answers t (event (meant e)) self result }
    {
        if admitted {
            Some(self.crashed(t, e))
        } else {
            None
        }
    }
}

// The crashes, each by its number.
#[tactic(auto, unfolding(model::specs::Operations::event_of, model::specs::Cxl0::named))]
impl State {
    // i's cache is emptied; if i's memory is volatile, the locations that i owns return to their initial values.
    pub fn crash(self, t: Topology, i: Machine) -> Option<State>
        ensures { Answers t (event (Crash i.0)) self result }
    {
        let admitted = t.within_limits() && t.is_machine(i);
        self.crash_if(t, admitted, numbered(7, i, Location(0), 0, 0))
    }

    // All machines of the set crash in one step: bit i - 1 is set if machine i does.
    pub fn set_crash(self, t: Topology, set: u8) -> Option<State>
        ensures { Answers t (event (SetCrash set)) self result }
    {
        let admitted = t.within_limits() && t.are_machines(set);
        self.crash_if(t, admitted, numbered(11, Machine(0), Location(set), 0, 0))
    }
}

impl State {
    // The answer to an event at its location: what `Entry` makes of the entry there takes its place, if it is enabled.
    fn at_location(mut self, t: Topology, e: Event) -> Option<State>
        requires { (1 ≤ e.operation) × (e.operation ≤ 10) × (e.operation ≢ 7) }
        ensures { Answers t (event (meant e)) self result }
    {
        let x = e.location;
        if !t.names(e.machine, x) {
            return None;
        }
        let entry = &mut self.entries[x.0 as usize];
        let made = entry.masked(t.machines).act(Site::of(t, x), e);
        *entry = made.entry;
        made.enabled.then_some(self)
    }
}

// The events at a location, each by its number.
#[tactic(auto, unfolding(model::specs::Operations::event_of))]
impl State {
    pub fn l_store(self, t: Topology, i: Machine, x: Location, v: u32) -> Option<State>
        ensures { Answers t (event (LStore i.0 x.0 v)) self result }
    {
        self.at_location(t, numbered(1, i, x, v, 0))
    }

    pub fn r_store(self, t: Topology, i: Machine, x: Location, v: u32) -> Option<State>
        ensures { Answers t (event (RStore i.0 x.0 v)) self result }
    {
        self.at_location(t, numbered(2, i, x, v, 0))
    }

    pub fn m_store(self, t: Topology, i: Machine, x: Location, v: u32) -> Option<State>
        ensures { Answers t (event (MStore i.0 x.0 v)) self result }
    {
        self.at_location(t, numbered(3, i, x, v, 0))
    }

    pub fn load(self, t: Topology, i: Machine, x: Location, v: u32) -> Option<State>
        ensures { Answers t (event (Load i.0 x.0 v)) self result }
    {
        self.at_location(t, numbered(4, i, x, v, 0))
    }

    pub fn l_flush(self, t: Topology, i: Machine, x: Location) -> Option<State>
        ensures { Answers t (event (LFlush i.0 x.0)) self result }
    {
        self.at_location(t, numbered(5, i, x, 0, 0))
    }

    pub fn r_flush(self, t: Topology, i: Machine, x: Location) -> Option<State>
        ensures { Answers t (event (RFlush i.0 x.0)) self result }
    {
        self.at_location(t, numbered(6, i, x, 0, 0))
    }

    // A load of v and the store of w, with nothing between them.
    pub fn l_rmw(self, t: Topology, i: Machine, x: Location, v: u32, w: u32) -> Option<State>
        ensures { Answers t (event (RMW L i.0 x.0 v w)) self result }
    {
        self.at_location(t, numbered(8, i, x, v, w))
    }

    pub fn r_rmw(self, t: Topology, i: Machine, x: Location, v: u32, w: u32) -> Option<State>
        ensures { Answers t (event (RMW R i.0 x.0 v w)) self result }
    {
        self.at_location(t, numbered(9, i, x, v, w))
    }

    pub fn m_rmw(self, t: Topology, i: Machine, x: Location, v: u32, w: u32) -> Option<State>
        ensures { Answers t (event (RMW M i.0 x.0 v w)) self result }
    {
        self.at_location(t, numbered(10, i, x, v, w))
    }
}

impl State {
    pub fn propagate(mut self, t: Topology, i: Machine, x: Location) -> Option<State>
        ensures { Answers t (silent (Propagate i.0 x.0)) self result }
    {
        if !t.names(i, x) {
            return None;
        }
        let entry = &mut self.entries[x.0 as usize];
        let made = entry.masked(t.machines).propagate(Site::of(t, x), i);
        *entry = made.entry;
        made.enabled.then_some(self)
    }

    pub fn write_back(mut self, t: Topology, x: Location) -> Option<State>
        ensures { Answers t (silent (WriteBack x.0)) self result }
    {
        if !(t.within_limits() && t.is_location(x)) {
            return None;
        }
        let entry = &mut self.entries[x.0 as usize];
        let made = entry.masked(t.machines).write_back(Site::of(t, x));
        *entry = made.entry;
        made.enabled.then_some(self)
    }

    // The step of a log's event: its operation number chooses the method.
    #[tactic(auto, unfolding(model::specs::Operations::event_of, model::specs::Operations::is_operation))]
    pub fn apply(self, t: Topology, e: Event) -> Option<State>
        ensures result_value { outcome_of t self result ≡ attempt_event t e (state_of t self) }
        ensures whole { result ≡ applied_of t e self }
    {
        let i = e.machine;
        let x = e.location;
        let v = e.value;
        let w = e.written;
        match e.operation {
            1 => self.l_store(t, i, x, v),
            2 => self.r_store(t, i, x, v),
            3 => self.m_store(t, i, x, v),
            4 => self.load(t, i, x, v),
            5 => self.l_flush(t, i, x),
            6 => self.r_flush(t, i, x),
            7 => self.crash(t, i),
            8 => self.l_rmw(t, i, x, v, w),
            9 => self.r_rmw(t, i, x, v, w),
            10 => self.m_rmw(t, i, x, v, w),
            11 => self.set_crash(t, x.0),
            0 => None,
            12..=255 => None,
        }
    }
}
