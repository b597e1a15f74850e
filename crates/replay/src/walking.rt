// The walk through events and silent steps: the whole system's state goes from one to the next.
ghost use Rattle.std.specs.Prelude.{ℕ, suc, ◌+◌, ◌<◌, ◌≡◌};
ghost use Rattle.std.specs.Option.{IsSomeAnd};
ghost use Rattle.std.proofs.Math.Option.{some};
ghost use Rattle.model.specs.Cxl0 as cxl0;
ghost use Rattle.model.specs.Cxl0.{event, silent};
ghost use Rattle.model.specs.Schedule.{silent_of};
ghost use Rattle.model.specs.Meaning.{topology_of, attempt};
ghost use Rattle.model.specs.declared.Topology.{Topology};
ghost use Rattle.states.specs.States.{state_of, outcome_of};
ghost use Rattle.log_bytes.specs.Payloads.{Numbers, event_with};
ghost use Rattle.cursors.specs.Cursors.{event_at};
ghost use Rattle.schedules.specs.Answers.{step_of};
ghost use Rattle.replay.specs.Replaying.{Answer};
ghost use Rattle.replay.specs.Answers.{said_of};
ghost use Rattle.replay.specs.Places.{taken, Takes, Stands, Goes};

use crate::Replayed;
use cursors::event_at;
use model::{Event, Topology};
use schedules::{Step, step_at};
use states::State;

// Where a replay stands: how many events have passed, and the positions of the next event in the log and of the next
// step in the schedule.
#[derive(Clone, Copy)]
pub struct Place {
    pub passed: u8,
    pub event: usize,
    pub step: usize,
}

// A step of the schedule or an event of the log.
#[derive(Clone, Copy)]
pub enum Thing {
    Step(Step),
    Event(Event),
}

// What comes next, and where the replay stands after it.
#[derive(Clone, Copy)]
pub struct Next {
    pub thing: Thing,
    pub place: Place,
}

// A step of the schedule on the system's state.
fn step_silently(t: Topology, s: State, p: Step) -> Option<State>
    ensures { outcome_of t s result ≡ attempt t (silent (silent_of (step_of p))) (state_of t s) }
{
    if p.machine.0 == 0 {
        s.write_back(t, p.location)
    } else {
        s.propagate(t, p.machine, p.location)
    }
}

// Takes what comes next on the system's state.
fn take(t: Topology, s: State, thing: Thing) -> Option<State>
    ensures { outcome_of t s result ≡ taken t thing (state_of t s) }
{
    match thing {
        Thing::Step(p) => step_silently(t, s, p),
        Thing::Event(e) => s.apply(t, e),
    }
}

// The next event of a log that has `events` of them.
fn next_event(log: &[u8], events: u8, w: Place) -> Option<Next>
    ensures { (t : Topology) (x : cxl0.State) (e : Numbers) (next : ℕ)
        → event_at log.now w.event ≡ some (e, next) → w.passed < events
        → IsSomeAnd result (Takes t x (event (event_with e)) (w.passed + 1) next w.step) }
{
    if events <= w.passed {
        return None;
    }
    let (e, next) = event_at(log, w.event)?;
    Some(Next {
        thing: Thing::Event(e),
        place: Place {
            passed: w.passed + 1,
            event: next,
            ..w
        },
    })
}

// What comes next: a step with no more events before it than have passed, or else the event.
fn next_at(log: &[u8], schedule: &[u8], events: u8, w: Place) -> Option<Next>
    ensures { (t : Topology) (x : cxl0.State) (a : Answer) (k : ℕ)
        → Stands log.now schedule.now t events a (suc k) x w
        → IsSomeAnd result (Goes log.now schedule.now t events a k x w) }
{
    match step_at(schedule, w.step) {
        Some((p, next)) if p.before <= w.passed => Some(Next {
            thing: Thing::Step(p),
            place: Place { step: next, ..w },
        }),
        _ => next_event(log, events, w),
    }
}

// Takes what is ahead from the system's start on, so many events and steps together, one after the other.
pub(crate) fn walk(
    log: &[u8],
    schedule: &[u8],
    t: Topology,
    events: u8,
    ahead: usize,
    start: Place,
) -> Replayed
    ensures { (a : Answer)
        → Stands log.now schedule.now t events a ahead (cxl0.start (topology_of t)) start
        → said_of result ≡ a }
{
    let mut s = State::start(t);
    let mut w = start;
    for _ in 0..ahead {
        if let Some(next) = next_at(log, schedule, events, w)
            && let Some(after) = take(t, s, next.thing)
        {
            s = after;
            w = next.place;
        } else {
            return Replayed::No(w.passed);
        }
    }
    Replayed::Yes
}
