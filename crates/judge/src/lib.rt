// Is there a run, and which? `judge` finds the shortest schedule that explains a log, or names the first impossible
// event, and writes the verdict file. specs/Judging.antt says what it answers and leaves.
#![tactic(auto)]

mod issuing;

ghost use Rattle.std.specs.Prelude.{◌≡◌, true};
ghost use Rattle.log_bytes.specs.Records.{Records};
ghost use Rattle.log_bytes.specs.Reading.{accepted, read_log};
ghost use Rattle.log_bytes.specs.Answers.{head_of};
ghost use Rattle.judge.specs.Judging.{areas_fit, outcome_of, judgement_of, judgement};

use cursors::opening::open;
use events::load;
use fields::Refusal;
use issuing::issue;
use log_bytes::Head;
use reader::read;
use scratch::{WORDS, clear};
use verdict_file::filling::has_room;
use weighing::weigh;

// Allowed, with the step count and the length of the file; or impossible, with the number of the first impossible
// event and the length.
#[derive(Clone, Copy)]
pub enum Judged {
    Allowed(usize, usize),
    Impossible(u8, usize),
}

// The verdict on an accepted log.
fn decide(
    log: &[u8],
    head: Head,
    out: &mut [u8],
    offset: usize,
    scratch: &mut [u64],
) -> Result<Judged, Refusal>
    requires scratch_value { areas_fit out.old offset scratch.old ≡ true }
    requires log_value { (r : Records) × (read_log log.now ≡ accepted r) × (head_of r ≡ head) }
    ensures { outcome_of result out.new scratch.new
        ≡ judgement_of (read_log log.now) out.old offset scratch.old }
{
    let opened = open(log, head);
    let events = head.events as usize;
    load(log, opened.events, scratch, events);
    let found = weigh(scratch, opened.topology, events);
    let answer = issue(found, out, offset, &*scratch);
    clear(scratch);
    answer
}

// Judges a log: the verdict file goes to the output from the offset on, and the scratch area is all zero after a
// verdict. A refusal changes neither.
pub fn judge(
    log: &[u8],
    out: &mut [u8],
    offset: usize,
    scratch: &mut [u64],
) -> Result<Judged, Refusal>
    ensures { outcome_of result out.new scratch.new
        ≡ judgement log.now out.old offset scratch.old }
{
    if !has_room(out.len(), offset) {
        return Err(Refusal::BufferTooShort);
    }
    if scratch.len() < WORDS {
        return Err(Refusal::BufferTooShort);
    }
    let head = read(log)?;
    decide(log, head, out, offset, scratch)
}
