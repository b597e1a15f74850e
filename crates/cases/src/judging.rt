// The judge, and replay of what it wrote. Both areas are filled with a pattern before the call. What is printed is the
// case's name and the answer; after a verdict the file and what replay says to it; then whether the output outside the
// file is as it was, and whether the scratch area is all zero after a verdict, as it was after a refusal.
use crate::areas::{fill, is_cleared, is_kept, part};
use crate::printing::{Hex, say_refusal, say_replayed, say_so};
use crate::words::{MOST, bytes_after, find, number_after};
use fields::Refusal;
use judge::{Judged, judge};
use replay::replay;
use std::io;

// The bytes of the whole output, and the words of the whole scratch area.
const OUTPUT: usize = 4000;

const SCRATCH: usize = 5000;

// The lengths of a case's areas, and the offset in its output.
#[derive(Clone, Copy)]
struct Lengths {
    output: usize,
    offset: usize,
    scratch: usize,
}

// What a verdict left: a file of this length in the output, and the areas.
fn say_left(
    rt: &impl Print,
    log: &[u8],
    at: Lengths,
    length: usize,
    out: &[u8],
    scratch: &[u64],
) -> io::Result<()> {
    let file = part(out, at.offset, length);
    print!(rt; "\nfile {}\nreplay ", Hex(file))?;
    say_replayed(rt, replay(log, file))?;
    let kept = is_kept(out, at.offset, length);
    say_so(rt, kept, "output outside the file as it was")?;
    say_so(rt, is_cleared(scratch, at.scratch), "scratch all zero")
}

// What a refusal left.
fn say_kept(rt: &impl Print, out: &[u8], scratch: &[u64]) -> io::Result<()> {
    say_so(rt, is_kept(out, 0, 0), "output as it was")?;
    say_so(rt, is_kept(scratch, 0, 0), "scratch as it was")
}

fn say_judged(
    rt: &impl Print,
    log: &[u8],
    at: Lengths,
    answer: Result<Judged, Refusal>,
    out: &[u8],
    scratch: &[u64],
) -> io::Result<()> {
    match answer {
        Ok(Judged::Allowed(steps, length)) => {
            print!(rt; " allowed {steps} {length}")?;
            say_left(rt, log, at, length, out, scratch)
        }
        Ok(Judged::Impossible(event, length)) => {
            print!(rt; " impossible {event} {length}")?;
            say_left(rt, log, at, length, out, scratch)
        }
        Err(why) => {
            rt.print(" ")?;
            say_refusal(rt, why)?;
            say_kept(rt, out, scratch)
        }
    }
}

// The judge's answer in the front of each area. Says nothing where an area of the case is longer than the whole.
fn judge_in(rt: &impl Print, log: &[u8], at: Lengths) -> io::Result<()> {
    if OUTPUT < at.output || SCRATCH < at.scratch {
        return Ok(());
    }
    let mut out = [0u8; OUTPUT];
    let mut scratch = [0u64; SCRATCH];
    fill(&mut out);
    fill(&mut scratch);
    let answer = judge(
        log,
        &mut out[..at.output],
        at.offset,
        &mut scratch[..at.scratch],
    );
    say_judged(rt, log, at, answer, &out, &scratch)
}

// A case whose name ends at a position.
fn judge_case(rt: &impl Print, line: &[u8], name: usize) -> io::Result<()> {
    let mut log = [0u8; MOST];
    let bytes = bytes_after(line, name, &mut log);
    let output = number_after(line, bytes.at);
    let offset = number_after(line, output.at);
    let scratch = number_after(line, offset.at);
    let lengths = Lengths {
        output: output.value,
        offset: offset.value,
        scratch: scratch.value,
    };
    judge_in(rt, &log[..bytes.value], lengths)
}

pub fn judge_line(rt: &impl Print, line: &[u8]) -> io::Result<()> {
    if line.len() < 2 {
        return Ok(());
    }
    let name = find(line, 2, b' ');
    rt.write_all(&line[2..name])?;
    judge_case(rt, line, name)
}
