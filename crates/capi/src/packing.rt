// Answers as numbers of 64 bits.
ghost use Rattle.std.specs.Prelude.{◌≡◌, ◌+◌, ◌*◌, ◌^◌, ◌<◌};
ghost use Rattle.fields.specs.Refusals.{number_of};
ghost use Rattle.reader.specs.Answers as reader;
ghost use Rattle.recorder.specs.Recording as recorder;
ghost use Rattle.converter.specs.Converting as converting;
ghost use Rattle.replay.specs.Answers as replay;
ghost use Rattle.judge.specs.Judging as judging;
ghost use Rattle.capi.specs.Packing.{pack_recorded, pack_summary, pack_converted, pack_replayed, pack_judged};
ghost use Rattle.capi.specs.Packing.{RecordedFits, JudgedFits};

use fields::Refusal;
use judge::Judged;
use log_bytes::Head;
use replay::Replayed;

// A refusal: its number alone.
fn refusal(why: Refusal) -> u64
    ensures { result ≡ number_of why }
{
    u8::from(why) as u64
}

// What recording a field or converting a log comes to: a new count of used bytes, or the length of the log written.
pub(crate) fn pack_length(answer: Result<usize, Refusal>) -> u64
    requires { RecordedFits (recorder.answer_of answer) }
    ensures recorded { result ≡ pack_recorded (recorder.answer_of answer) }
    ensures converted { result ≡ pack_converted (converting.answer_of answer) }
{
    match answer {
        Ok(length) => length as u64 * 0x100,
        Err(why) => refusal(why),
    }
}

// The counts of an accepted log.
fn summary(head: Head) -> u64
    ensures { result ≡ head.machines * 2 ^ 8 + head.locations * 2 ^ 16 + head.events * 2 ^ 24 }
{
    head.machines as u64 * 0x100 + head.locations as u64 * 0x10000 + head.events as u64 * 0x1000000
}

// What a log comes to.
pub(crate) fn pack_reading(answer: Result<Head, Refusal>) -> u64
    ensures { result ≡ pack_summary (reader.meaning_of answer) }
{
    match answer {
        Ok(head) => summary(head),
        Err(why) => refusal(why),
    }
}

// What a replay comes to.
pub(crate) fn pack_replayed(answer: Result<Replayed, Refusal>) -> u64
    ensures { result ≡ pack_replayed (replay.answer_of answer) }
{
    match answer {
        Ok(Replayed::Yes) => 0x100,
        Ok(Replayed::No(passed)) => passed as u64 * 0x10000,
        Err(why) => refusal(why),
    }
}

// A verdict: allowed or impossible, the event, the step count and the length of the file.
fn verdict(allowed: u8, event: u8, steps: usize, len: usize) -> u64
    requires { (steps < 2 ^ 16) × (len < 2 ^ 16) }
    ensures { result ≡ allowed * 2 ^ 8 + event * 2 ^ 16 + steps * 2 ^ 24 + len * 2 ^ 40 }
{
    allowed as u64 * 0x100
        + event as u64 * 0x10000
        + steps as u64 * 0x1000000
        + len as u64 * 0x10000000000
}

// What a judgement comes to.
pub(crate) fn pack_judged(answer: Result<Judged, Refusal>) -> u64
    requires { JudgedFits (judging.answer_of answer) }
    ensures { result ≡ pack_judged (judging.answer_of answer) }
{
    match answer {
        Ok(Judged::Allowed(steps, len)) => verdict(1, 0, steps, len),
        Ok(Judged::Impossible(event, len)) => verdict(0, event, 0, len),
        Err(why) => refusal(why),
    }
}
