// The calls for C, Rust and Python: `cxl0_record`, `cxl0_read`, `cxl0_convert`, `cxl0_replay` and `cxl0_judge` make the
// proved calls and pack each answer in one number, as specs/Packing.antt says; `cxl0_version` says which change
// requests are in them, as specs/Version.antt does. In C a slice is a pointer and a length. No call has a `requires`.
#![tactic(auto)]

mod packing;

ghost use Rattle.std.specs.Prelude.{◌≡◌};
ghost use Rattle.log_bytes.specs.Reading.{read_log};
ghost use Rattle.reader.specs.Answers.{summary_of};
ghost use Rattle.recorder.specs.Recording.{recorded, written};
ghost use Rattle.converter.specs.Converting as converting;
ghost use Rattle.converter.specs.Converting.{conversion, told};
ghost use Rattle.replay.specs.Replaying.{replay_log};
ghost use Rattle.judge.specs.Judging.{judgement};
ghost use Rattle.capi.specs.Packing.{pack_recorded, pack_summary, pack_converted, pack_replayed, pack_judged};
ghost use Rattle.capi.specs.Version.{requests, pack_version};

use converter::convert;
use judge::judge;
use packing::{pack_judged, pack_length, pack_reading, pack_replayed};
use reader::read;
use recorder::record;
use replay::replay;

// Puts one field after the used bytes of a buffer. No other byte changes; on a refusal none does.
#[unsafe(no_mangle)]
pub extern "C" fn cxl0_record(buf: &mut [u8], used: usize, tag: u8, payload: &[u8]) -> u64
    ensures value { result ≡ pack_recorded (recorded buf.old used tag payload.now) }
    ensures buf_after { buf.new ≡ written (recorded buf.old used tag payload.now)
        buf.old used tag payload.now }
{
    pack_length(record(buf, used, tag, payload))
}

// Reads a log to its end.
#[unsafe(no_mangle)]
pub extern "C" fn cxl0_read(log: &[u8]) -> u64
    ensures { result ≡ pack_summary (summary_of (read_log log.now)) }
{
    pack_reading(read(log))
}

// Writes a log in the other edition from the output's first byte on. The rest of the output is as it was; after a
// refusal all of it is.
#[unsafe(no_mangle)]
pub extern "C" fn cxl0_convert(log: &[u8], out: &mut [u8]) -> u64
    ensures value { result ≡ pack_converted (told (conversion log.now out.old)) }
    ensures out_after { out.new ≡ converting.written (conversion log.now out.old)
        out.old }
{
    pack_length(convert(log, out))
}

// Replays a log with the schedule of a verdict file that says allowed.
#[unsafe(no_mangle)]
pub extern "C" fn cxl0_replay(log: &[u8], schedule: &[u8]) -> u64
    ensures { result ≡ pack_replayed (replay_log log.now schedule.now) }
{
    pack_replayed(replay(log, schedule))
}

// Judges a log: the verdict file goes to the output from the offset on, and the scratch area is all zero after
// a verdict. A refusal changes neither.
#[unsafe(no_mangle)]
pub extern "C" fn cxl0_judge(log: &[u8], out: &mut [u8], offset: usize, scratch: &mut [u64]) -> u64
    ensures value { result ≡ pack_judged (judgement
        log.now out.old offset scratch.old).answer }
    ensures out_after { out.new ≡ (judgement
        log.now out.old offset scratch.old).out }
    ensures scratch_after { scratch.new ≡ (judgement
        log.now out.old offset scratch.old).scratch }
{
    pack_judged(judge(log, out, offset, scratch))
}

// Says which change requests of document 02 are in this library: W-201 to W-206 and W-211.
#[unsafe(no_mangle)]
pub extern "C" fn cxl0_version() -> u64
    ensures { result ≡ pack_version requests }
{
    0x43f00
}
