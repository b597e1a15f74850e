// The verdict program: reads a log from standard input and prints `allowed` and the number of silent steps, with
// a line for each of them (events before it, location, machine), or `impossible` and the first impossible event,
// or `number` and that of the refusal; and then `end`.
#![tactic(auto)]

ghost use Rattle.std.specs.Prelude.{◌≡◌, []};
ghost use Rattle.text.specs.Digits.{decimal_of};
ghost use Rattle.verdict.specs.Pages.{Puts};

use fields::Refusal;
use judge::{Judged, judge};
use log_bytes::LOG_MOST;
use schedules::{FIRST, Step, step_at};
use scratch::WORDS;
use std::io;
use streams::read_full;
use text::{put_decimal, put_text};
use verdict_file::FILE_MOST;

// The most bytes that are read, one more than the longest log has: what the judge makes of them is right for the whole
// input, as proofs/Input.antt shows.
const INPUT_MOST: usize = LOG_MOST + 1;

// Enough for the first line, 256 lines of at most 9 bytes, and the last.
const PAGE: usize = 4096;

// All that is printed, put together first so that one call writes it.
#[derive(Drop)]
struct Page {
    bytes: [u8; PAGE],
    end: usize,
}

impl Page {
    fn put(&mut self, words: &[u8])
        ensures { Puts words.now self.old self.new }
    {
        self.end = put_text(&mut self.bytes, self.end, words);
    }

    fn put_number(&mut self, v: u32)
        ensures { Puts (decimal_of v) self.old self.new }
    {
        self.end = put_decimal(&mut self.bytes, self.end, v);
    }

    // A word and a number, the first line.
    fn put_answer(&mut self, word: &[u8], v: u32) {
        self.put(word);
        self.put_number(v);
        self.put(b"\n");
    }

    // A line for each step of a verdict file.
    fn put_steps(&mut self, file: &[u8]) {
        let mut at = FIRST;
        while let Some((step, next)) = step_at(file, at) {
            let Step {
                before,
                location,
                machine,
            } = step;
            self.put_number(u32::from(before));
            self.put(b" ");
            self.put_number(u32::from(location.0));
            self.put(b" ");
            self.put_number(u32::from(machine.0));
            self.put(b"\n");
            at = next;
        }
    }

    // What the judge answered; `file` is the verdict file that it wrote.
    fn put_report(&mut self, answer: Result<Judged, Refusal>, file: &[u8]) {
        match answer {
            Ok(Judged::Allowed(steps, _)) => {
                // At most 256, which the answer's type does not say.
                self.put_answer(b"allowed ", (steps % 65536) as u32);
                self.put_steps(file);
            }
            Ok(Judged::Impossible(event, _)) => self.put_answer(b"impossible ", u32::from(event)),
            Err(why) => self.put_answer(b"number ", u32::from(u8::from(why))),
        }
        self.put(b"end\n");
    }
}

fn main(rt: HostRuntime) -> io::Result<()> {
    let mut input = [0u8; INPUT_MOST];
    let n = read_full(&mut rt.stdin(), &mut input)?;
    let mut file = [0u8; FILE_MOST];
    let mut scratch = [0u64; WORDS];
    let answer = judge(&input[..n], &mut file, 0, &mut scratch);
    let mut page = Page {
        bytes: [0; PAGE],
        end: 0,
    };
    page.put_report(answer, &file);
    rt.write_all(page.bytes.get(..page.end).unwrap_or(&[]))
}
