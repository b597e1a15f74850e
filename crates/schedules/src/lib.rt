// What a verdict file says as a schedule. `read_schedule` accepts exactly the files that say allowed and fit
// a log, and `step_at` hands out their steps. specs/Schedules.antt says what the bytes of a verdict file give.
#![tactic(auto)]

mod checking;

ghost use Rattle.std.specs.Prelude.{◌≡◌};
ghost use Rattle.model.specs.Meaning.{topology_of};
ghost use Rattle.schedules.specs.Schedules.{step_at, read_schedule, counted};
ghost use Rattle.schedules.specs.Answers.{step_at_of};
ghost use Rattle.verdict_file.specs.Answers.{answer_of};

use fields::Refusal;
use model::{Location, Machine, Topology};
use verdict_file::{STEPS_MOST, TAG_STEP};

// The position of the first step in a file.
pub const FIRST: usize = 5;

// A silent step with the number of events before it. `Machine(0)` stands for a write-back.
#[derive(Clone, Copy)]
pub struct Step {
    pub before: u8,
    pub location: Location,
    pub machine: Machine,
}

// The step whose field begins at a position, and the position after the field. The first begins at `FIRST`.
#[tactic(auto,
// Tests of numbers, and the part of a file from a position on.
using(std::proofs::lemmas::Bool::Decides::nat_tests, fields::proofs::Put::part_drop),
// A step.
unfolding(crate::specs::Schedules::step_at, crate::specs::Schedules::first_step,
// A field.
crate::specs::Schedules::begins, crate::specs::Schedules::starts))]
pub fn step_at(file: &[u8], at: usize) -> Option<(Step, usize)>
    ensures { step_at_of result ≡ step_at file.now at }
{
    let [TAG_STEP, 3, 0, before, location, machine, ..] = file.get(at..)? else {
        return None;
    };
    let step = Step {
        before: *before,
        location: Location(*location),
        machine: Machine(*machine),
    };
    Some((step, at + 6))
}

// Reads a verdict file as a schedule for a log of `events` events on the system t: the number of its steps,
// or refusal 13.
pub fn read_schedule(file: &[u8], t: Topology, events: u8) -> Result<usize, Refusal>
    ensures { answer_of result ≡ counted (read_schedule (topology_of t) events file.now) }
{
    if !checking::says_allowed(file) {
        return Err(Refusal::BadSchedule);
    }
    let mut at = FIRST;
    let mut steps = 0;
    let mut least = 0;
    while let Some((step, next)) = step_at(file, at) {
        if steps == STEPS_MOST || !checking::may_follow(t, events, least, step) {
            return Err(Refusal::BadSchedule);
        }
        at = next;
        least = step.before;
        steps += 1;
    }
    if !checking::is_end(&file[at..]) {
        return Err(Refusal::BadSchedule);
    }
    Ok(steps)
}
