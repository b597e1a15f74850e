// One location of a system, as a state keeps it, with what each action makes of it: whether the entry enables the
// action, and the entry after it. specs/Entries.antt says what an entry means and what the answer to an action is.
#![tactic(auto)]

mod acting;
mod sites;

use model::{Location, Machine, NOWHERE};

// One location: bit i - 1 of `sharers` is set if machine i's cache holds a copy, all copies have the value
// `copy`, and `memory` is the value in memory.
#[derive(Clone, Copy)]
pub struct Entry {
    pub sharers: u8,
    pub copy: u32,
    pub memory: u32,
}

// A location that is not listed: no cache ever holds it.
pub const EMPTY: Entry = Entry {
    sharers: 0,
    copy: 0,
    memory: NOWHERE.initial,
};

// What an action at a location depends on beside its entry: the owner, whether a crash of the owner clears the memory,
// and the value that memory has at the start and after such a crash.
#[derive(Clone, Copy)]
pub struct Site {
    pub location: Location,
    pub owner: Machine,
    pub volatile: bool,
    pub initial: u32,
}

// The answer to an action: whether the entry enables it, and the entry after it. The search asks for that entry also
// where the action is not enabled, so that it is no Option.
#[derive(Clone, Copy)]
pub struct Acted {
    pub enabled: bool,
    pub entry: Entry,
}
