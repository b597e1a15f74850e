// Is a schedule a run of a log? `replay` takes the bytes of a log and of a verdict file, and goes through the
// events and the silent steps on the whole system's state, from empty caches and initial memories. Its answer
// is `replay_log` of specs/Replaying.antt, and proofs/Demand2.antt says what that means. It writes nothing.
#![tactic(auto)]

mod walking;

ghost use Rattle.std.specs.Prelude.{◌≡◌, length};
ghost use Rattle.log_bytes.specs.Records.{Records, system_of};
ghost use Rattle.log_bytes.specs.Reading.{accepted, read_log};
ghost use Rattle.log_bytes.specs.Answers.{head_of};
ghost use Rattle.schedules.specs.Schedules.{read_schedule};
ghost use Rattle.replay.specs.Replaying.{with_schedule, replay_log};
ghost use Rattle.replay.specs.Answers.{answer_of};

use cursors::opening::open;
use fields::Refusal;
use log_bytes::Head;
use reader::read;
use schedules::{FIRST, read_schedule};
use walking::{Place, walk};

// Yes, or no and the number of events passed before the first thing not possible.
#[derive(Clone, Copy)]
pub enum Replayed {
    Yes,
    No(u8),
}

// Replays an accepted log with this head.
fn replay_events(log: &[u8], schedule: &[u8], head: Head) -> Result<Replayed, Refusal>
    ensures { (r : Records) → read_log log.now ≡ accepted r → head_of r ≡ head
        → answer_of result
        ≡ with_schedule r (read_schedule (system_of r) (length r.events) schedule.now) }
{
    let o = open(log, head);
    let t = o.topology;
    let steps = read_schedule(schedule, t, head.events)?;
    let ahead = head.events as usize + steps;
    let start = Place {
        passed: 0,
        event: o.events,
        step: FIRST,
    };
    Ok(walk(log, schedule, t, head.events, ahead, start))
}

// Says whether a log with a schedule is a run, or why an input is refused.
pub fn replay(log: &[u8], schedule: &[u8]) -> Result<Replayed, Refusal>
    ensures { answer_of result ≡ replay_log log.now schedule.now }
{
    let head = read(log)?;
    replay_events(log, schedule, head)
}
