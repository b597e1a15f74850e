// The walk through a segment: at each gap the least steps that leave one step less to pay, then the event.
ghost use Rattle.std.specs.Prelude.{◌<◌, ◌≡◌};
ghost use Rattle.model.specs.OneLocation.{moved};
ghost use Rattle.masks.specs.Sets.{OneToSix};
ghost use Rattle.scratch.specs.Layout.{WORDS};
ghost use Rattle.segments.specs.Words.{segment_in};
ghost use Rattle.blocks.specs.Treading.{point_of, number_of, IsStep, LeastMove, SteppedTo, Takeable, Taken};
ghost use Rattle.blocks.specs.Treading.{Payable, Standing, Chosen, Paid, Actable, Over, Treadable, Trodden};

use entries::Site;
use levels::{Task, build};
use masks::{alone, contains, holds};
use model::Machine;
use scratch::{BACKS, LEVELS, Waypoint, get_event};
use segments::words::{Block, Segment};
use walking::{WRITE_BACK, act_at, word};

// Where the walk stands: the code and the memory value of the location, where the list of steps ends, and how many are
// left to pay.
#[derive(Clone, Copy)]
pub struct Stand {
    pub code: u8,
    pub memory: u32,
    pub end: usize,
    pub steps: u64,
}

// The waypoint where the walk stands.
impl From<Stand> for Waypoint {
    ghost from_gives = { λ p w. w ≡ point_of p };

    fn from(p: Stand) -> Waypoint {
        Waypoint {
            code: p.code,
            memory: p.memory,
            end: p.end,
        }
    }
}

// A silent step of the walk: a write-back, or the move of a machine's copy to the owner.
#[derive(Clone, Copy)]
enum Silent {
    WriteBack,
    Move(Machine),
}

impl Silent {
    // The machine that the word of the step names.
    fn machine(self) -> Machine
        ensures { result.0 ≡ number_of self }
    {
        match self {
            Silent::WriteBack => WRITE_BACK,
            Silent::Move(i) => i,
        }
    }
}

// The code after a move of machine i to the owner.
fn moved_code(owner: Machine, i: Machine, c: u8) -> u8
    requires { OneToSix owner.0 × OneToSix i.0 × (c < 64) }
    ensures { (result ≡ moved owner.0 i.0 c) × (result < 64) }
{
    (c & !alone(i)) | alone(owner)
}

// The least machine whose move leads from code c into the set.
fn least_move(owner: Machine, c: u8, into: u64) -> Option<Machine>
    requires { OneToSix owner.0 × (c < 64) }
    ensures { LeastMove owner.0 c into result }
{
    for n in 1..=6 {
        let i = Machine(n);
        if i != owner && holds(c, i) && contains(into, moved_code(owner, i, c)) {
            return Some(i);
        }
    }
    None
}

// The step to take at gap t, if there is one that leaves one step less to pay.
fn choose(
    w: &[u64],
    site: Site,
    b: Block,
    l: usize,
    m: u32,
    q: Task,
    t: usize,
    p: Stand,
) -> Option<Silent>
    requires { Payable site b l m q w.now × Standing site b l m q t p w.now }
    ensures { Chosen site b l t p w.now result }
{
    if holds(p.code, site.owner) && w[BACKS + t] + 1 == p.steps {
        return Some(Silent::WriteBack);
    }
    if p.steps <= q.low {
        return None;
    }
    let i = least_move(site.owner, p.code, w[LEVELS + t])?;
    Some(Silent::Move(i))
}

// Where the walk stands after a step that it chose, noted at the end of the list.
fn stepped(site: Site, copy: u32, step: Silent, p: Stand) -> Stand
    requires { OneToSix site.owner.0 × IsStep step × (p.code < 64) × (0 < p.steps) × (p.end < WORDS) }
    ensures { SteppedTo site copy (number_of step) p result }
{
    let (code, memory) = match step {
        Silent::WriteBack => (0, copy),
        Silent::Move(i) => (moved_code(site.owner, i, p.code), p.memory),
    };
    Stand {
        code,
        memory,
        end: p.end + 1,
        steps: p.steps - 1,
    }
}

// Takes a step that it chose at gap t: notes it, and makes the masks of one step less. After a write-back there is no
// copy, and so no step to choose.
fn take_step(
    w: &mut [u64],
    site: Site,
    copy: u32,
    q: Task,
    t: usize,
    step: Silent,
    p: Stand,
) -> Stand
    requires { Takeable site q t step p w.old }
    ensures { Taken site copy q t (number_of step) p w.old result w.new }
{
    w[p.end] = word(site, t, step.machine());
    let at = stepped(site, copy, step, p);
    if let Silent::Move(_) = step {
        build(w, q, t, at.steps);
    }
    at
}

// The steps of gap t.
fn pay(
    w: &mut [u64],
    site: Site,
    b: Block,
    l: usize,
    m: u32,
    copy: u32,
    q: Task,
    t: usize,
    p: Stand,
) -> Stand
    requires { Payable site b l m q w.old × Standing site b l m q t p w.old
        × (copy ≡ (segment_in w.old l).copy) }
    ensures { Paid site b l m q t p w.old result w.new }
{
    let mut at = p;
    while let Some(step) = choose(&*w, site, b, l, m, q, t, at) {
        at = take_step(w, site, copy, q, t, step, at);
    }
    at
}

// Where the walk stands after event t, in which copies have the value u.
pub(crate) fn over_event(w: &[u64], site: Site, t: usize, u: u32, p: Stand) -> Stand
    requires { Actable site t p w.now }
    ensures { Over site t u p w.now result }
{
    let made = act_at(site, get_event(w, t), u, Waypoint::from(p));
    Stand {
        code: made.entry.sharers,
        memory: made.entry.memory,
        ..p
    }
}

// Walks through segment l, which is s, to its last gap.
pub(crate) fn tread(
    w: &mut [u64],
    site: Site,
    b: Block,
    l: usize,
    s: Segment,
    q: Task,
    p: Stand,
) -> Stand
    requires { Treadable site b l q p w.old × (s ≡ segment_in w.old l) }
    ensures { Trodden site b l p w.old result w.new }
{
    let m = p.memory;
    build(w, q, s.first, p.steps);
    let mut at = p;
    for t in s.first..s.end {
        let paid = pay(w, site, b, l, m, s.copy, q, t, at);
        at = over_event(&*w, site, t, s.copy, paid);
    }
    pay(w, site, b, l, m, s.copy, q, s.end, at)
}
