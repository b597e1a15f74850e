// CXL0: what a system of machines that share memory may do, and the fixed part of such a system. The
// definitions are those of specs/Cxl0.antt; the contracts are equations with them.
#![tactic(auto)]

pub mod codes;
mod homes;
mod topologies;

// The most machines and locations that a system has.
pub const MACHINES: u8 = 6;

pub const LOCATIONS: usize = 32;

// A machine, numbered from 1.
#[derive(Clone, Copy, PartialEq, Eq)]
pub struct Machine(pub u8);

// A location, numbered from 0.
#[derive(Clone, Copy, PartialEq, Eq)]
pub struct Location(pub u8);

// Where a location lives: its owner, whether its memory differs in kind from its owner's, and the value that it holds
// at the start and after a crash that clears it.
#[derive(Clone, Copy)]
pub struct Home {
    pub owner: Machine,
    pub differs: bool,
    pub initial: u32,
}

// Where a location lives that is not listed: at no machine. `Topology::home`, which cannot fail, gives it.
pub const NOWHERE: Home = Home {
    owner: Machine(0),
    differs: false,
    initial: 0,
};

// The fixed part of a system: machines 1 to `machines`, the first `locations` of `homes`, and bit i - 1 of
// `persistent` set if machine i's memory is persistent.
#[derive(Clone, Copy)]
pub struct Topology {
    pub machines: u8,
    pub persistent: u8,
    pub locations: u8,
    pub homes: [Home; LOCATIONS],
}

// An event by its operation number; what the operation does not use is ignored. `value` is what was stored or read,
// `written` what a read-modify-write stored after its read. A set crash has its set in `location`, as in the bytes. The
// operation is a number and no enum, since every number has an answer: one that is no operation's is not possible.
#[derive(Clone, Copy)]
pub struct Event {
    pub operation: u8,
    pub machine: Machine,
    pub location: Location,
    pub value: u32,
    pub written: u32,
}
