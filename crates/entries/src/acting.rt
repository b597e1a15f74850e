// What each action makes of the entry of its location. Names that the system does not have are for the state
// to refuse; the equations hold for them too.
ghost use Rattle.std.specs.Prelude.{◌≡◌, cond, ◌&&◌};
ghost use Rattle.model.specs.Cxl0.{silent, Propagate, WriteBack};
ghost use Rattle.model.specs.OneLocation.{readable_at};
ghost use Rattle.entries.specs.Entries.{site_meant, short_of, start_entry, masked_to, acted_of, acted_by};

use super::{Acted, Entry, Site};
use model::codes::{bit, up_to};
use model::{Event, Machine};

// The answer by its parts.
fn acted(enabled: bool, sharers: u8, copy: u32, memory: u32) -> Acted
    ensures { result ≡ record {
      enabled = enabled;
      entry = record { sharers = sharers; copy = copy; memory = memory };
    } }
{
    let entry = Entry {
        sharers,
        copy,
        memory,
    };
    Acted { enabled, entry }
}

impl Site {
    // What a crash leaves of memory value m: the initial value, if the owner crashes and its memory is volatile.
    fn left(self, owner_crashes: bool, m: u32) -> u32
        ensures { result ≡ cond (owner_crashes && self.volatile) self.initial m }
    {
        if owner_crashes && self.volatile {
            self.initial
        } else {
            m
        }
    }
}

#[tactic(auto,
// What each effect leaves.
using(crate::proofs::Effects::effects),
// The event of an operation.
unfolding(model::specs::Operations::is_operation, model::specs::Operations::event_of, model::specs::Cxl0::crashes,
// What it asks and does at a location.
model::specs::OneLocation::enabled_at, model::specs::OneLocation::effect, model::specs::OneLocation::moved,
// Entries.
crate::specs::Entries::short_of, crate::specs::Entries::entry_of, crate::specs::Entries::masked_to,
// Answers.
crate::specs::Entries::acted_of, crate::specs::Entries::acted_by))]
impl Entry {
    // At the start: no cache holds the location, and memory holds its initial value.
    pub fn start(initial: u32) -> Entry
        ensures { result ≡ start_entry initial }
    {
        Entry {
            sharers: 0,
            copy: 0,
            memory: initial,
        }
    }

    // The entry with the copies of machines 1 to n and no others.
    pub fn masked(self, n: u8) -> Entry
        ensures { result ≡ masked_to n self }
    {
        Entry {
            sharers: up_to(n, self.sharers),
            ..self
        }
    }

    // A load of v is possible: copies have the value v, or memory where there is no copy.
    fn reads(self, v: u32) -> bool
        ensures { result ≡ readable_at v (short_of self) }
    {
        if self.sharers == 0 {
            self.memory == v
        } else {
            self.copy == v
        }
    }

    // An event by its operation number; one that is no operation's is not possible. A line has what the event asks, who
    // holds copies after it, their value, and the value in memory.
    pub fn act(self, site: Site, e: Event) -> Acted
        ensures { result ≡ acted_by (site_meant site) e self }
    {
        let held = self.sharers;
        let copy = self.copy;
        let memory = self.memory;
        let mine = bit(e.machine);
        let owners = bit(site.owner);
        // in place of the location
        let set = e.location.0;
        let v = e.value;
        let reads = self.reads(v);
        match e.operation {
            // LStore, RStore, MStore
            1 => acted(true, mine, v, memory),
            2 => acted(true, owners, v, memory),
            3 => acted(true, 0, copy, v),
            // Load, from memory if there is no copy, and then it leaves none
            4 => if held == 0 {
                acted(reads, 0, copy, memory)
            } else {
                acted(reads, held | mine, copy, memory)
            },
            // LFlush, RFlush
            5 => acted(held & mine == 0, held, copy, memory),
            6 => acted(held == 0, held, copy, memory),
            // a crash
            7 => {
                let kept = site.left(site.owner == e.machine, memory);
                acted(true, held & !mine, copy, kept)
            }
            // L-RMW, R-RMW, M-RMW: the load of v, and at once the store
            8 => acted(reads, mine, e.written, memory),
            9 => acted(reads, owners, e.written, memory),
            10 => acted(reads, 0, copy, e.written),
            // a set crash
            11 => {
                let kept = site.left(set & owners != 0, memory);
                acted(true, held & !set, copy, kept)
            }
            0 => acted(false, held, copy, memory),
            12..=255 => acted(false, held, copy, memory),
        }
    }

    // The moving machine, which is not the owner, loses its copy, and the owner's cache gets it.
    pub fn propagate(self, site: Site, i: Machine) -> Acted
        ensures { result ≡ acted_of (site_meant site) (silent (Propagate i.0 site.location.0)) self }
    {
        let held = self.sharers;
        let k = site.owner;
        let mine = bit(i);
        acted(
            (i != k) & (held & mine != 0),
            held & !mine | bit(k),
            self.copy,
            self.memory,
        )
    }

    // Memory gets the value that the owner's cache holds, and every cache loses its copy.
    pub fn write_back(self, site: Site) -> Acted
        ensures { result ≡ acted_of (site_meant site) (silent (WriteBack site.location.0)) self }
    {
        let held = self.sharers;
        let owners = bit(site.owner);
        acted(held & owners != 0, 0, self.copy, self.copy)
    }
}
