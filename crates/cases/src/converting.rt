// The converter. The output is filled with a pattern before the call. What is printed is the length of the log that was
// written and its bytes, and whether the output after it is as it was; or the refusal, and whether all of it is.
use crate::areas::{fill, is_kept, part};
use crate::printing::{Hex, say_refusal, say_so};
use crate::words::{MOST, bytes_after, number_after};
use converter::convert;
use fields::Refusal;
use std::io;

// The bytes of the whole output.
const OUTPUT: usize = 5000;

fn say_converted(rt: &impl Print, answer: Result<usize, Refusal>, out: &[u8]) -> io::Result<()> {
    match answer {
        Ok(n) => {
            print!(rt; "length {n} {}", Hex(part(out, 0, n)))?;
            say_so(rt, is_kept(out, 0, n), "output after the log as it was")
        }
        Err(why) => {
            say_refusal(rt, why)?;
            say_so(rt, is_kept(out, 0, 0), "output as it was")
        }
    }
}

// The converter's answer in the first n bytes of the output. Says nothing where they are more than the whole.
fn convert_in(rt: &impl Print, log: &[u8], n: usize) -> io::Result<()> {
    if OUTPUT < n {
        return Ok(());
    }
    let mut out = [0u8; OUTPUT];
    fill(&mut out);
    let answer = convert(log, &mut out[..n]);
    say_converted(rt, answer, &out)
}

pub fn convert_line(rt: &impl Print, line: &[u8]) -> io::Result<()> {
    let mut log = [0u8; MOST];
    let bytes = bytes_after(line, 1, &mut log);
    let output = number_after(line, bytes.at);
    convert_in(rt, &log[..bytes.value], output.value)
}
