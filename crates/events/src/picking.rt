// The events of the log that matter at a location, copied to where the search looks for events.
ghost use Rattle.std.specs.Prelude.{◌+◌, ◌*◌, ◌/◌, ◌%◌, ◌≤◌, ◌<◌, ◌≡◌, List, length, get_or};
ghost use Rattle.model.specs.Cxl0.{Event};
ghost use Rattle.scratch.specs.Layout.{EVENTS, WORDS, MOST, LOG};
ghost use Rattle.events.specs.Linking.{index_in, Linked, Picked};
ghost use Rattle.events.specs.Picking.{copied, nearer, pick_after, pick_from};

use crate::linking::head_of;
use model::Location;
use scratch::{EVENTS, INDEX, LOG, NEXT_CRASH, NEXT_OWN, put_pair};

// The indices of the next event of the location and of the next crash, and how many events have been copied.
#[derive(Clone, Copy)]
pub struct Pick {
    pub own: usize,
    pub crash: usize,
    pub count: usize,
}

// The index that stands at a place in the first word of an event, its own or that of a later event.
pub(crate) fn index_in(word: u64, place: u64) -> usize
    requires { 0 < place }
    ensures { result ≡ word / place % 256 }
{
    (word / place % 256) as usize
}

// The index of event t of the search among the events of the log.
pub fn index(w: &[u64], t: usize) -> usize
    requires { (WORDS ≤ length w.now) × (t < MOST) }
    ensures { result ≡ index_in EVENTS w.now t }
{
    index_in(w[EVENTS + 2 * t], INDEX)
}

// Makes event j of the log event k of the search, and hands back its first word.
fn copy_event(w: &mut [u64], j: usize, k: usize) -> u64
    requires { (WORDS ≤ length w.old) × (j < MOST) × (k < MOST) }
    ensures w_after { w.new ≡ copied j k w.old }
    ensures value { result ≡ get_or w.old (LOG + 2 * j) 0 }
{
    let from = LOG + 2 * j;
    let word = w[from];
    let value = w[from + 1];
    put_pair(w, EVENTS + 2 * k, word, value);
    word
}

// Copies the first event, which is of the location.
fn pick_first(w: &mut [u64], first: usize) -> Pick
    requires { (WORDS ≤ length w.old) × (first < MOST) }
    ensures w_after { w.new ≡ copied first 0 w.old }
    ensures value { result ≡ pick_from first w.old }
{
    let word = copy_event(w, first, 0);
    Pick {
        own: index_in(word, NEXT_OWN),
        crash: index_in(word, NEXT_CRASH),
        count: 1,
    }
}

// Copies the next event: a crash that comes before the next event of the location, else that one.
fn pick_one(w: &mut [u64], p: Pick) -> Pick
    requires { (WORDS ≤ length w.old) × (p.own < MOST) × (p.count < MOST) }
    ensures w_after { w.new ≡ copied (nearer p) p.count w.old }
    ensures value { result ≡ pick_after p w.old }
{
    if p.crash < p.own {
        let word = copy_event(w, p.crash, p.count);
        Pick {
            crash: index_in(word, NEXT_CRASH),
            count: p.count + 1,
            ..p
        }
    } else {
        let word = copy_event(w, p.own, p.count);
        Pick {
            own: index_in(word, NEXT_OWN),
            count: p.count + 1,
            ..p
        }
    }
}

// Copies those of the first m events of the log that matter at a location, and hands back how many they are.
pub fn pick_events(w: &mut [u64], x: Location, m: usize) -> usize
    requires linked { (es : List Event) × Linked es w.old × (m ≤ length es) }
    requires x_bound { x.0 < 32 }
    ensures { Picked x.0 m w.old result w.new }
{
    let head = head_of(x);
    let first = w[head] as usize;
    if m <= first {
        return 0;
    }
    let mut p = pick_first(w, first);
    while p.own < m {
        p = pick_one(w, p);
    }
    p.count
}
