// Cuts the events from a place on into segments, up to the first event after which the state is known.
ghost use Rattle.std.specs.Prelude.{◌<◌, ◌≡◌};
ghost use Rattle.model.specs.Meaning.{meant};
ghost use Rattle.rows.specs.Sites.{Known};
ghost use Rattle.blocks.specs.Splitting.{waypoint_at, kind_of, ends_block, closing_of, forced_of, Splittable, Split};

use entries::Site;
use levels::Closing;
use model::Event;
use scratch::{Waypoint, get_event};
use segments::backing::resets;
use segments::words::{Block, Segment, put_segment};
use walking::act_at;

// No reset. The number is past every gap, so that one comparison says whether a gap stands before the reset.
const NONE: usize = 255;

// A gap, the state of the location there, and where the list of steps ends.
#[derive(Clone, Copy)]
pub struct Place {
    pub gap: usize,
    pub code: u8,
    pub copy: u32,
    pub memory: u32,
    pub end: usize,
}

// The waypoint there.
impl From<Place> for Waypoint {
    ghost from_gives = { λ p w. w ≡ waypoint_at p };

    fn from(p: Place) -> Waypoint {
        Waypoint {
            code: p.code,
            memory: p.memory,
            end: p.end,
        }
    }
}

// What an event is to a segment whose copies have the value u. After the last three the state is known.
#[derive(Clone, Copy, PartialEq, Eq)]
pub enum Kind {
    // It stands inside the segment.
    Inside,
    // A store, with which the next segment begins.
    Store,
    // A store that first reads u.
    ReadStore,
    // A store that reaches memory.
    MemoryStore,
    // A store that reaches memory and first reads u.
    ReadMemoryStore,
    // A read of another value, which must come from memory.
    OtherRead,
}

impl Kind {
    // What event e is to a segment whose copies have the value u.
    #[tactic(auto, unfolding(crate::specs::Splitting::kind_of, model::specs::Operations::event_of))]
    pub fn of(e: Event, u: u32) -> Kind
        requires { Known e }
        ensures { result ≡ kind_of u (meant e) }
    {
        match e.operation {
            1 | 2 => Kind::Store,
            3 => Kind::MemoryStore,
            4 | 8..=10 if e.value != u => Kind::OtherRead,
            8 | 9 => Kind::ReadStore,
            10 => Kind::ReadMemoryStore,
            _ => Kind::Inside,
        }
    }

    // Its block ends with it.
    pub fn ends_block(self) -> bool
        ensures { result ≡ ends_block self }
    {
        match self {
            Kind::MemoryStore | Kind::ReadMemoryStore | Kind::OtherRead => true,
            Kind::Inside | Kind::Store | Kind::ReadStore => false,
        }
    }

    // How a segment closes with it.
    fn closing(self) -> Closing
        ensures { result ≡ closing_of self }
    {
        match self {
            Kind::Inside | Kind::Store | Kind::MemoryStore => Closing::Open,
            Kind::ReadStore | Kind::ReadMemoryStore => Closing::Same,
            Kind::OtherRead => Closing::Other,
        }
    }

    // The value that memory must have for it, where it reads `value`.
    fn forced(self, value: u32) -> Option<u32>
        ensures { result ≡ forced_of self value }
    {
        match self {
            Kind::OtherRead => Some(value),
            _ => None,
        }
    }
}

// The segments from a place on, of k events.
pub(crate) fn split(w: &mut [u64], site: Site, p: Place, k: usize) -> Block
    requires { Splittable site p k w.old }
    ensures { Split site p k w.old result w.new }
{
    let mut l: usize = 0;
    let mut s = Segment {
        copy: p.copy,
        first: p.gap,
        end: k,
        code: p.code,
        closing: Closing::Open,
        reset: NONE,
    };
    for t in p.gap..k {
        let e = get_event(&*w, t);
        let what = Kind::of(e, s.copy);
        if what == Kind::Inside {
            if s.reset == NONE && resets(site, e) {
                s.reset = t;
            }
        } else {
            s.end = t;
            s.closing = what.closing();
            put_segment(w, l, s);
            l += 1;
            if what.ends_block() {
                return Block {
                    count: l,
                    end: t + 1,
                    forced: what.forced(e.value),
                };
            }
            let here = Waypoint {
                code: 0,
                memory: 0,
                end: 0,
            };
            let made = act_at(site, e, s.copy, here);
            s = Segment {
                copy: made.entry.copy,
                first: t + 1,
                end: k,
                code: made.entry.sharers,
                closing: Closing::Open,
                reset: NONE,
            };
        }
    }
    put_segment(w, l, s);
    Block {
        count: l + 1,
        end: k,
        forced: None,
    }
}
