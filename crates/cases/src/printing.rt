// Printing on standard output.
use fields::Refusal;
use replay::Replayed;
use std::{fmt, io};
use text::put_hex;

// Bytes in hexadecimal digits.
#[derive(Clone, Copy)]
pub struct Hex<'a>(pub &'a [u8]);

impl fmt::Display for Hex<'_> {
    fn fmt<W: fmt::Write>(&self, f: &mut fmt::Formatter<W>) -> fmt::Result {
        for b in self.0 {
            let mut digits = [0u8; 2];
            put_hex(&mut digits, 0, *b);
            for digit in digits {
                f.write_char(char::from(digit))?;
            }
        }
        Ok(())
    }
}

// A line that says so, with `not: ` in front where it is not so.
pub fn say_so(rt: &impl Print, so: bool, words: &str) -> io::Result<()> {
    let not = if so { "" } else { "not: " };
    print!(rt; "\n{not}{words}")
}

pub fn say_refusal(rt: &impl Print, why: Refusal) -> io::Result<()> {
    print!(rt; "number {}", u8::from(why))
}

pub fn say_replayed(rt: &impl Print, answer: Result<Replayed, Refusal>) -> io::Result<()> {
    match answer {
        Ok(Replayed::Yes) => rt.print("yes"),
        Ok(Replayed::No(passed)) => print!(rt; "no {passed}"),
        Err(why) => say_refusal(rt, why),
    }
}
