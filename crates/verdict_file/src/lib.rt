// What a verdict's bytes say. `write_allowed` and `write_impossible` put a verdict file into the output at an
// offset, or change nothing. specs/Files.antt has the bytes; the crate `schedules` says what they give to a reader.
#![tactic(auto)]

pub mod filling;

ghost use Rattle.std.specs.Prelude.{◌≡◌};
ghost use Rattle.verdict_file.specs.Files.{impossible};
ghost use Rattle.verdict_file.specs.Answers.{answer_of};
ghost use Rattle.verdict_file.specs.Writing.{allowed_by, answer, output, said};

use fields::Refusal;
use filling::{Verdict, has_room};

// At most 256 steps, so 1,544 bytes.
pub const STEPS_MOST: usize = 256;

pub const FILE_MOST: usize = 1544;

pub const TAG_VERDICT: u8 = 0x10;

pub const TAG_STEP: u8 = 0x11;

pub const TAG_END: u8 = 0x04;

// Writes the file that says allowed, with these steps, each packed in a word: events before, location and
// machine from the lowest byte up. Refusal 1 where the file has no room after the offset, then 13 where the words
// are not a verdict file's steps: too many, over three bytes, a count of events before that falls or is above 128.
// A refusal changes nothing.
pub fn write_allowed(out: &mut [u8], offset: usize, steps: &[u64]) -> Result<usize, Refusal>
    ensures result_value { answer_of result ≡ answer out.old offset (allowed_by steps.now) }
    ensures out_after { out.new ≡
        output out.old offset (allowed_by steps.now) }
{
    write(out, offset, Verdict::Allowed(steps))
}

// Writes the file that says impossible, with the number of the first impossible event. Refusal 1 where the file has
// no room after the offset, then 13 where the number is outside 1 to 128. A refusal changes nothing.
pub fn write_impossible(out: &mut [u8], offset: usize, event: u8) -> Result<usize, Refusal>
    ensures result_value { answer_of result ≡ answer out.old offset (impossible event) }
    ensures out_after { out.new ≡ output out.old offset (impossible event) }
{
    write(out, offset, Verdict::Impossible(event))
}

// Writes the file that says a verdict, where it has room and the verdict is of a file's form.
fn write(out: &mut [u8], offset: usize, verdict: Verdict) -> Result<usize, Refusal>
    ensures result_value { answer_of result ≡ answer out.old offset (said verdict.entry) }
    ensures out_after { out.new ≡ output out.old offset (said verdict.entry) }
{
    if !has_room(out.len(), offset) {
        return Err(Refusal::BufferTooShort);
    }
    if !verdict.is_writable() {
        return Err(Refusal::BadSchedule);
    }
    Ok(verdict.fill(&mut out[offset..]))
}
