// The walk of one location over rows: before each event, the silent steps that lead to a state from which the event
// is possible and the events after it can be finished.
//
// Its callers see to it that the rows are there, that the events have a run from where the walk begins, and that they
// are known, so that none has a refused operation.
#![tactic(auto)]

ghost use Rattle.std.specs.Prelude.{◌+◌, ◌≤◌, ◌<◌, ◌≡◌, ◌≢◌, length};
ghost use Rattle.masks.specs.Sets.{OneToSix};
ghost use Rattle.rows.specs.Rows.{Fine};
ghost use Rattle.model.specs.Meaning.{meant};
ghost use Rattle.rows.specs.Sites.{Known};
ghost use Rattle.scratch.specs.Stored.{Stored};
ghost use Rattle.walking.specs.Trails.{FirstHolder, one_if, gives_up, leaving, word_of};
ghost use Rattle.walking.specs.Acting.{Acts};
ghost use Rattle.walking.specs.Walks.{Noted, Enters, Moved, Standing, Turned};

use entries::{Acted, Entry, Site};
use masks::{holds, lowest};
use model::{Event, Machine};
use moves::reach;
use rows::{Row, codes, concerned, fine, row_before};
use scratch::{Waypoint, get_copy, get_event, get_row};

// What stands for a write-back where a step names its machine: no machine has the number 0.
pub const WRITE_BACK: Machine = Machine(0);

// The word of a step of the site after t events, by machine i.
pub fn word(site: Site, t: usize, i: Machine) -> u64
    requires { t < 256 }
    ensures { result ≡ word_of t site.location.0 i.0 }
{
    t as u64 + 256 * (site.location.0 as u64) + 65536 * (i.0 as u64)
}

// Stores a word where the test holds, and hands back the place after it.
#[tactic(auto, using(scratch::proofs::Stored::stored_none, scratch::proofs::Stored::stored_one))]
fn put_if(w: &mut [u64], at: usize, yes: bool, word: u64) -> usize
    requires { at < length w.old }
    ensures { Stored w.old at (one_if yes word) w.new result }
{
    if yes {
        w[at] = word;
        at + 1
    } else {
        at
    }
}

// The first machine in the set of code c.
fn first_holder(c: u8) -> Machine
    requires { (c < 64) × (c ≢ 0) }
    ensures { FirstHolder result.0 c }
{
    Machine(lowest(c as u64) + 1)
}

// Machine i gives its copy up to the owner, between code c and code d. The tests are joined by `&`, which does not
// branch as `&&` does.
#[tactic(auto, unfolding(crate::specs::Trails::gives_up))]
fn gives_up(site: Site, c: u8, d: u8, i: Machine) -> bool
    requires c_bound { (c < 64) × (d < 64) }
    requires one_to_six { OneToSix i.0 }
    ensures { result ≡ gives_up site.owner.0 c d i.0 }
{
    (i != site.owner) & (holds(c, i) & !holds(d, i))
}

// The moves of the machines that give up their copies between code c and code d, in rising order.
fn move_to(w: &mut [u64], at: usize, site: Site, t: usize, c: u8, d: u8) -> usize
    requires at_in_bounds { (at + 6 ≤ length w.old) × (t < 256) }
    requires c_bound { (c < 64) × (d < 64) }
    ensures { Noted site t (leaving site.owner.0 c d 6) w.old at w.new result }
{
    let mut to = at;
    for n in 1..=6 {
        let i = Machine(n);
        to = put_if(w, to, gives_up(site, c, d, i), word(site, t, i));
    }
    to
}

// A write-back of copies of the value u, after a move of the first machine that has one if the owner has none.
fn write_back(w: &mut [u64], site: Site, t: usize, u: u32, p: Waypoint) -> Waypoint
    requires end_in_bounds { (p.end + 2 ≤ length w.old) × (t < 256) }
    requires one_to_six { OneToSix site.owner.0 }
    requires code_bound { (p.code < 64) × (p.code ≢ 0) }
    ensures moved { Moved site t u p w.old result w.new }
    ensures code_value { (result.code ≡ 0) × (result.memory ≡ u) }
{
    let c = p.code;
    let first = first_holder(c);
    let owned = holds(c, site.owner);
    let to = put_if(w, p.end, !owned, word(site, t, first));
    w[to] = word(site, t, WRITE_BACK);
    Waypoint {
        code: 0,
        memory: u,
        end: to + 1,
    }
}

// The silent steps before event t, in which copies have the value u: none if the row has the waypoint, else moves
// to the least code that they reach and the row has, else a write-back. No moves reach code 0, so that a row
// with no other code takes a write-back.
fn gap(w: &mut [u64], site: Site, t: usize, u: u32, row: Row, p: Waypoint) -> Waypoint
    requires end_in_bounds { (p.end + 6 ≤ length w.old) × (t < 256) }
    requires one_to_six { OneToSix site.owner.0 }
    requires code_bound { (p.code < 64) × Enters site.owner.0 u row p.code p.memory }
    ensures { Moved site t u p w.old result w.new × Fine row result.code result.memory }
{
    if fine(row, p.code, p.memory) {
        return p;
    }
    let wanted = codes(row, p.memory);
    if wanted < 2 {
        return write_back(w, site, t, u, p);
    }
    let there = reach(site.owner, p.code) & wanted;
    if there != 0 {
        let d = lowest(there);
        let end = move_to(w, p.end, site, t, p.code, d);
        return Waypoint { code: d, end, ..p };
    }
    write_back(w, site, t, u, p)
}

// What an event of the site makes of a waypoint, where copies have the value u.
pub fn act_at(site: Site, e: Event, u: u32, p: Waypoint) -> Acted
    requires one_to_six { OneToSix site.owner.0 }
    requires known { Known e }
    requires code_bound { p.code < 64 }
    ensures { Acts site (meant e) u p result }
{
    let held = Entry {
        sharers: p.code,
        copy: u,
        memory: p.memory,
    };
    held.act(site, e)
}

// One event, with the silent steps before it.
pub fn turn(w: &mut [u64], site: Site, t: usize, p: Waypoint) -> Waypoint
    requires { Standing site t p w.old }
    ensures { Turned site t p w.old result w.new }
{
    let e = get_event(w, t);
    if concerned(site, e) {
        let u = get_copy(w, t);
        let rest = get_row(w, t + 1);
        // The event is read again for the table, which is quicker than handing on e.
        let row = row_before(site, get_event(w, t), u, rest);
        let q = gap(w, site, t, u, row, p);
        let made = act_at(site, e, u, q);
        let after = made.entry;
        return Waypoint {
            code: after.sharers,
            memory: after.memory,
            end: q.end,
        };
    }
    p
}
