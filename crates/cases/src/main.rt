// Reader, recorder, replay, judge and converter on the lines of standard input, with what each says on standard output.
// The first letter of a line says which:
//
//     r LOG           reads a log
//     w BUFFER CALL   records a field in a buffer and shows the buffer afterwards; the call is the count of used bytes,
//                     in two bytes, high byte first, then the tag and the payload
//     s LOG SCHEDULE  replays a log with a schedule: yes, no and the events passed, or the number of the refusal
//     j NAME LOG OUTPUT OFFSET SCRATCH
//                     judges a log in areas of these lengths (judging.rt)
//     c LOG OUTPUT    converts a log into an output of this length (converting.rt)
//
// Bytes are in hexadecimal digits, lengths and the offset in decimal. Any other line is a comment, and is printed as it
// is.
#![tactic(auto)]

mod areas;
mod converting;
mod judging;
mod printing;
mod words;

use converting::convert_line;
use fields::{Edition, Refusal};
use judging::judge_line;
use log_bytes::Head;
use printing::{Hex, say_refusal, say_replayed};
use reader::read;
use recorder::record;
use replay::replay;
use std::io;
use std::io::Read;
use streams::read_full;
use words::{MOST, bytes_after};

// Room for all cases.
const INPUT: usize = 1048576;

fn say_head(rt: &impl Print, head: Head) -> io::Result<()> {
    let machines = head.machines;
    let persistent = head.persistent;
    let locations = head.locations;
    let events = head.events;
    print!(rt; "accepted {machines} {persistent} {locations} {events}")?;
    match head.edition {
        // Edition 1 goes without saying.
        Edition::First => Ok(()),
        Edition::Second => rt.print(" edition 2"),
    }
}

fn read_line(rt: &impl Print, line: &[u8]) -> io::Result<()> {
    let mut log = [0u8; MOST];
    let a = bytes_after(line, 1, &mut log);
    match read(&log[..a.value]) {
        Ok(head) => say_head(rt, head),
        Err(why) => say_refusal(rt, why),
    }
}

fn say_recorded(rt: &impl Print, answer: Result<usize, Refusal>) -> io::Result<()> {
    match answer {
        Ok(count) => print!(rt; "count {count}"),
        Err(why) => say_refusal(rt, why),
    }
}

// The answer, and the whole buffer afterwards.
fn record_line(rt: &impl Print, line: &[u8]) -> io::Result<()> {
    let mut buf = [0u8; MOST];
    let mut call = [0u8; MOST];
    let a = bytes_after(line, 1, &mut buf);
    let b = bytes_after(line, a.at, &mut call);
    let buf = &mut buf[..a.value];
    if let [high, low, tag, payload @ ..] = &call[..b.value] {
        let used = usize::from(*high) * 256 + usize::from(*low);
        say_recorded(rt, record(buf, used, *tag, payload))?;
        print!(rt; " {}", Hex(buf))?;
    }
    Ok(())
}

fn replay_line(rt: &impl Print, line: &[u8]) -> io::Result<()> {
    let mut log = [0u8; MOST];
    let mut schedule = [0u8; MOST];
    let a = bytes_after(line, 1, &mut log);
    let b = bytes_after(line, a.at, &mut schedule);
    say_replayed(rt, replay(&log[..a.value], &schedule[..b.value]))
}

fn one_case(rt: &impl Print, line: &[u8]) -> io::Result<()> {
    match line {
        [b'r', ..] => read_line(rt, line),
        [b'w', ..] => record_line(rt, line),
        [b's', ..] => replay_line(rt, line),
        [b'j', ..] => judge_line(rt, line),
        [b'c', ..] => convert_line(rt, line),
        _ => rt.write_all(line),
    }
}

// Runs the cases of a text, a line each.
fn all_cases(rt: &impl Print, text: &[u8]) -> io::Result<()> {
    for line in text.split_inclusive(|b| *b == b'\n') {
        one_case(rt, line.strip_suffix(b"\n").unwrap_or(line))?;
        rt.print("\n")?;
    }
    Ok(())
}

// Runs the cases of standard input, as many as the buffer holds.
fn run<R: Read>(rt: &impl Print, reader: &mut R, input: &mut [u8]) -> io::Result<()> {
    let got = read_full(reader, input)?;
    all_cases(rt, &input[..got])
}

fn main(rt: HostRuntime) -> io::Result<()> {
    let mut input = [0u8; INPUT];
    run(&rt, &mut rt.stdin(), &mut input)
}
