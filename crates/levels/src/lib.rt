// The levels of a task: for each gap of a stretch of events without a store, the codes from which it can be finished
// within so many silent steps, as a mask. A pass makes them of those of one step less.
//
// Its callers see to it that the scratch area has 4,096 words, the events are known, and the bounds of a task are
// right.
#![tactic(auto)]

ghost use Rattle.std.specs.Prelude.{◌≡◌, T, length, ◌≤◌, ◌<◌};
ghost use Rattle.model.specs.Meaning.{meant};
ghost use Rattle.masks.specs.Sets.{Exactly};
ghost use Rattle.rows.specs.Sites.{Known};
ghost use Rattle.scratch.specs.Layout.{WORDS, MOST};
ghost use Rattle.levels.specs.Stretches.{FAR, Over};
ghost use Rattle.levels.specs.Tasks.{closing_at, reads_at, accepting, below_in};
ghost use Rattle.levels.specs.Tasks.{Ready, OnwardOf, GapOf, Passable, Passed, Fewest, Built};

use masks::{
    all, all_but_empty, contains, gaining, holding, lacking, losing, losing_all, one_move, single,
};
use model::{Event, Machine};
use scratch::{BACKS, LEVELS, get_event};

// Where there is no run: more than any number of steps. It is a number and no Option, since the numbers of steps are
// packed in 16 bits each, and compared.
pub const FAR: u64 = 65535;

// How a stretch closes: with an event that reads nothing, or with none; with a read of the value of the copies; with a
// read of another value.
#[derive(Clone, Copy, PartialEq, Eq)]
pub enum Closing {
    Open,
    Same,
    Other,
}

impl Closing {
    // The closing event accepts the code at a gap where memory has the value of the copies, or not.
    pub fn accepts(self, reads: bool, code: u8) -> bool
        ensures { result ≡ accepting self reads code }
    {
        match self {
            Closing::Open => true,
            Closing::Same => code != 0 || reads,
            Closing::Other => code == 0,
        }
    }
}

// How a stretch closes, by its number: 0 is Open, 1 is Same, any other is Other.
impl From<u8> for Closing {
    ghost from_gives = { λ number closing. closing ≡ closing_at number };

    fn from(number: u8) -> Closing {
        match number {
            0 => Closing::Open,
            1 => Closing::Same,
            _ => Closing::Other,
        }
    }
}

// The gaps up to `end`, and how the stretch closes there; whether memory has the value of the copies, up to the gap
// `reset` and after it; whether copies may be written back; what is to pay after the last gap; and bounds of the
// levels.
#[derive(Clone, Copy)]
pub struct Task {
    pub owner: Machine,
    pub end: usize,
    pub closing: Closing,
    pub reset: usize,
    pub same: bool,
    pub later: bool,
    pub writes: bool,
    pub last: u64,
    pub low: u64,
    pub high: u64,
}

// Memory has the value of the copies at gap t.
fn reads(q: Task, t: usize) -> bool
    ensures { result ≡ reads_at q t }
{
    if t <= q.reset { q.same } else { q.later }
}

// The codes that finish within so many steps by what follows the last gap.
fn ending(q: Task, level: u64) -> u64
    ensures { Exactly result (λ c. T (accepting q.closing (reads_at q q.end) c) × (q.last ≤ level)) }
{
    if level < q.last {
        return 0;
    }
    match q.closing {
        Closing::Open => all(),
        Closing::Same => if reads(q, q.end) {
            all()
        } else {
            all_but_empty()
        },
        Closing::Other => single(0),
    }
}

// The codes before an event inside the stretch from which it leads into the set `rest`, at a gap where memory has the
// value of the copies, or not.
fn over(e: Event, read: bool, rest: u64) -> u64
    requires { Known e }
    ensures { Over (meant e) read rest result }
{
    let operation = e.operation;
    let i = e.machine;
    match operation {
        4 => {
            let copied = gaining(rest, i) & all_but_empty();
            if read {
                copied | (rest & single(0))
            } else {
                copied
            }
        }
        5 => lacking(rest, i),
        6 => rest & single(0),
        7 => losing(rest, i),
        11 => losing_all(rest, e.location.0),
        _ => rest,
    }
}

// The codes of gap t that finish within so many steps by what comes after the gap, where `rest` is the next gap's mask.
fn onward(w: &[u64], q: Task, t: usize, level: u64, rest: u64) -> u64
    requires { Ready q t w.now }
    ensures { OnwardOf q t level w.now rest result }
{
    if t == q.end {
        return ending(q, level);
    }
    over(get_event(w, t), reads(q, t), rest)
}

// The mask of gap t at the level below, which is empty at the lowest level.
fn below(w: &[u64], q: Task, t: usize, level: u64) -> u64
    requires { (WORDS ≤ length w.now) × (t ≤ MOST) }
    ensures { result ≡ below_in q level w.now t }
{
    if level == q.low {
        return 0;
    }
    w[LEVELS + t]
}

// The mask of gap t at a level: the codes that finish by what comes after the gap; those from which one move leads to
// a code of the level below; and those that may be written back, if what is left to pay then is less.
fn gap(w: &[u64], q: Task, t: usize, level: u64, rest: u64, under: u64) -> u64
    requires { Ready q t w.now × (q.low ≤ level) × (level ≤ FAR) }
    ensures { GapOf q t level w.now rest under result }
{
    let reached = onward(w, q, t, level, rest) | one_move(under, q.owner);
    // One test of both, since a branch for each is slower here.
    if q.writes & (w[BACKS + t] < level) {
        return reached | holding(q.owner);
    }
    reached
}

// Makes the masks of a level from gap `from` on, out of those of the level below; says whether any has changed.
fn pass(w: &mut [u64], q: Task, from: usize, level: u64) -> bool
    requires { Passable q from level w.old }
    ensures { Passed q from level w.old result w.new }
{
    let mut rest: u64 = 0;
    let mut more = false;
    // The end is `q.end + 1` and no `..=q.end`, with which the loop is slower.
    for t in (from..q.end + 1).rev() {
        let under = below(w, q, t, level);
        rest = gap(w, q, t, level, rest, under);
        w[LEVELS + t] = rest;
        more |= rest != under;
    }
    more
}

// The fewest steps to pay from code c at gap `from`, if they are fewer than `below`, else FAR.
pub fn fewest(w: &mut [u64], q: Task, from: usize, c: u8, below: u64) -> u64
    requires { Ready q from w.old × (c < 64) × (below ≤ FAR) }
    ensures { Fewest q from c below w.old result w.new }
{
    for level in q.low..below {
        let more = pass(w, q, from, level);
        if contains(w[LEVELS + from], c) {
            return level;
        }
        // No code is gained by one step more, nor will one be by any number.
        if !more && q.high <= level {
            return FAR;
        }
    }
    FAR
}

// Makes the masks of the level below r, if there is one.
pub fn build(w: &mut [u64], q: Task, from: usize, r: u64)
    requires { Ready q from w.old × (r ≤ FAR) }
    ensures { Built q from r w.old w.new }
{
    for level in q.low..r {
        pass(w, q, from, level);
    }
}
