// The scratch area: where its regions begin, as specs/Layout.antt has them, and the words of events, rows, the
// values of the copies, and the waypoints of the walk, as specs/Words.antt has them; clearing it.
//
// Its callers see to it that the scratch area has at least 4,096 words, an event's number is below 129, and a row's is
// at most 129. The area is a slice and no type of its own, since it is lent by callers in C.
#![tactic(auto)]

ghost use Rattle.std.specs.Prelude.{◌≡◌, ◌+◌, ◌≤◌, ◌<◌, length};
ghost use Rattle.scratch.specs.Layout.{WORDS, MOST};
ghost use Rattle.scratch.specs.Clearing.{zeros};
ghost use Rattle.scratch.specs.Words.{pair_at, row_in, copy_in, waypoint_in, struct_in};
ghost use Rattle.scratch.specs.Words.{RowPut, CopyPut, WaypointPut};

use model::{Event, Location, Machine};
use rows::Row;

// The fewest words of a scratch area, the most events that it holds, and the most steps of a schedule.
pub const WORDS: usize = 4096;

const MOST: usize = 129;

const MOST_STEPS: usize = 2 * MOST;

// The events that matter at the location at hand, the rows with the values of the copies, and the steps of the
// locations so far. The walk's own steps may run on over the two regions after that, up to the waypoints.
pub const EVENTS: usize = 0;

pub const ROWS: usize = EVENTS + 2 * MOST;

pub const STEPS: usize = ROWS + 4 * (MOST + 1);

// The steps in order, and the buckets of the sort.
pub const SORTED: usize = STEPS + MOST_STEPS;

pub const BUCKETS: usize = SORTED + MOST_STEPS;

// Where the walk stood before each event.
pub const WAYPOINTS: usize = SORTED + 6 * MOST;

// For each gap the level of a segment and what is left to pay after a write-back, and the segments of a block.
pub const LEVELS: usize = WAYPOINTS + MOST;

pub const BACKS: usize = LEVELS + (MOST + 1);

pub const SEGMENTS: usize = BACKS + (MOST + 1);

// The events of the log, and the first event of each location.
pub const LOG: usize = SEGMENTS + 2 * (MOST + 1);

pub const HEADS: usize = LOG + 2 * MOST;

// The first word of an event has a byte for each of operation, machine, location or set, its index in the log, the
// index of the next event of its location, and that of the next crash, from the lowest on: what a byte counts in it.
pub const MACHINE: u64 = 256;

pub const LOCATION: u64 = 256 * MACHINE;

pub const INDEX: u64 = 256 * LOCATION;

pub const NEXT_OWN: u64 = 256 * INDEX;

pub const NEXT_CRASH: u64 = 256 * NEXT_OWN;

// How many values 32 bits have. The second word of an event has the value in its lower half and the value written in
// its upper one. A waypoint has its code in the lowest byte of a word, its memory value in the next four and where its
// steps end above them.
pub const U32: u64 = 1 << 32;

const STEPS_END: u64 = 256 * U32;

// Where the walk stands: the code and the memory value of the location, and where the list of steps ends.
#[derive(Clone, Copy)]
pub struct Waypoint {
    pub code: u8,
    pub memory: u32,
    pub end: usize,
}

// Puts two words, the second after the first.
pub fn put_pair(w: &mut [u64], at: usize, first: u64, second: u64)
    requires { at + 1 < length w.old }
    ensures { w.new ≡ pair_at at first second w.old }
{
    w[at] = first;
    w[at + 1] = second;
}

// Event j.
pub fn get_event(w: &[u64], j: usize) -> Event
    requires { (WORDS ≤ length w.now) × (j < MOST) }
    ensures { result ≡ struct_in w.now j }
{
    let at = EVENTS + 2 * j;
    let word = w[at];
    let values = w[at + 1];
    Event {
        operation: (word % 256) as u8,
        machine: Machine((word / MACHINE % 256) as u8),
        location: Location((word / LOCATION % 256) as u8),
        value: (values % U32) as u32,
        written: (values / U32 % U32) as u32,
    }
}

// Row t.
#[tactic(auto, unfolding(crate::specs::Words::row_in))]
pub fn get_row(w: &[u64], t: usize) -> Row
    requires { (WORDS ≤ length w.now) × (t ≤ MOST) }
    ensures { result ≡ row_in w.now t }
{
    let at = ROWS + 4 * t;
    Row {
        any: w[at],
        one: w[at + 1],
        value: (w[at + 2] % U32) as u32,
    }
}

// Makes `row` row t.
pub fn put_row(w: &mut [u64], t: usize, row: Row)
    requires { (WORDS ≤ length w.old) × (t ≤ MOST) }
    ensures { RowPut w.old t row w.new }
{
    let at = ROWS + 4 * t;
    w[at] = row.any;
    w[at + 1] = row.one;
    w[at + 2] = row.value as u64;
}

// The value of the copies before event t.
#[tactic(auto, unfolding(crate::specs::Words::copy_in))]
pub fn get_copy(w: &[u64], t: usize) -> u32
    requires { (WORDS ≤ length w.now) × (t ≤ MOST) }
    ensures { result ≡ copy_in w.now t }
{
    (w[ROWS + 4 * t + 3] % U32) as u32
}

// Makes u the value of the copies before event t.
pub fn put_copy(w: &mut [u64], t: usize, u: u32)
    requires { (WORDS ≤ length w.old) × (t ≤ MOST) }
    ensures { CopyPut w.old t u w.new }
{
    w[ROWS + 4 * t + 3] = u as u64;
}

// The waypoint before event t.
#[tactic(auto, unfolding(crate::specs::Words::waypoint_in))]
pub fn get_waypoint(w: &[u64], t: usize) -> Waypoint
    requires { (WORDS ≤ length w.now) × (t < MOST) }
    ensures { result ≡ waypoint_in w.now t }
{
    let word = w[WAYPOINTS + t];
    Waypoint {
        code: (word % 256) as u8,
        memory: (word / 256 % U32) as u32,
        end: (word / STEPS_END) as usize,
    }
}

// Makes p the waypoint before event t.
pub fn put_waypoint(w: &mut [u64], t: usize, p: Waypoint)
    requires { (WORDS ≤ length w.old) × (t < MOST) × (p.end ≤ WORDS) }
    ensures { WaypointPut w.old t p w.new }
{
    w[WAYPOINTS + t] = p.code as u64 + 256 * (p.memory as u64) + STEPS_END * (p.end as u64);
}

// Makes every word 0, of an area of any length.
pub fn clear(w: &mut [u64])
    ensures { w.new ≡ zeros (length w.old) }
{
    w.fill(0);
}
