// Filling the part of the output that a file is to stand in, from its first byte on. The writer first asks whether the
// part is long enough and the verdict is of a file's form, as the `requires` here demand.
ghost use Rattle.std.specs.Prelude.{◌≡◌, ◌+◌, ◌≤◌, ◌<◌, ◌^◌, T, leb, length};
ghost use Rattle.model.specs.Words.{step_of_word};
ghost use Rattle.verdict_file.specs.Files.{impossible, file_most, header, step_field, end, file_of};
ghost use Rattle.fields.specs.Put.{put};
ghost use Rattle.verdict_file.specs.Writing.{allowed_by, said, writable, comes_next};

use crate::{FILE_MOST, STEPS_MOST, TAG_END, TAG_STEP, TAG_VERDICT};
use log_bytes::EVENTS;

// The words below it are steps of three bytes.
const WORD_END: u64 = 0x100_0000;

// What a file says: a log is allowed, with these steps, each packed in a word, or this event is its first impossible
// one.
#[derive(Clone, Copy)]
pub(crate) enum Verdict<'a> {
    Allowed(&'a [u64]),
    Impossible(u8),
}

impl Verdict<'_> {
    // Whether it is of a verdict file's form.
    pub(crate) fn is_writable(self) -> bool
        ensures { result ≡ writable (said self.entry) }
    {
        match self {
            Verdict::Allowed(steps) => are_steps(steps),
            Verdict::Impossible(event) => is_event(event),
        }
    }

    // Puts its file into the part, from the first byte on. Returns the file's length.
    pub(crate) fn fill(self, part: &mut [u8]) -> usize
        requires { (file_most ≤ length part.old) × T (writable (said self)) }
        ensures value { result ≡ length (file_of (said self.entry)) }
        ensures part_after { part.new ≡ put part.old 0 (file_of (said self.entry)) }
    {
        match self {
            Verdict::Allowed(steps) => fill_allowed(part, steps),
            Verdict::Impossible(event) => fill_impossible(part, event),
        }
    }
}

// The longest file has room in `size` bytes from the offset on.
pub fn has_room(size: usize, offset: usize) -> bool
    ensures { result ≡ leb (offset + file_most) size }
{
    offset <= size && FILE_MOST <= size - offset
}

// Whether the word is a step of three bytes with at least so many events before it, and no more than a log has.
#[tactic(auto,
// Tests of numbers, and a step of three bytes.
using(std::proofs::lemmas::Bool::Decides::nat_tests, crate::proofs::Words::packed_step),
// A step in a word.
unfolding(crate::specs::Writing::comes_next, model::specs::Words::step_of_word))]
fn comes_next(word: u64, least: u64) -> bool
    ensures { result ≡ comes_next least (step_of_word word) }
{
    let before = word % 256;
    word < WORD_END && least <= before && before <= EVENTS as u64
}

// Whether the words are steps of a verdict file, in its order: `least` is the count of events before the last step.
fn are_steps(steps: &[u64]) -> bool
    ensures { result ≡ writable (allowed_by steps.now) }
{
    if STEPS_MOST < steps.len() {
        return false;
    }
    let mut least = 0;
    for word in steps {
        if !comes_next(*word, least) {
            return false;
        }
        least = *word % 256;
    }
    true
}

// Whether the number is that of an event of a log.
#[tactic(auto, using(std::proofs::lemmas::Bool::Decides::nat_tests), unfolding(crate::specs::Writing::writable))]
fn is_event(event: u8) -> bool
    ensures { result ≡ writable (impossible event) }
{
    (1..=EVENTS).contains(&event)
}

// Puts bytes at a place of the part. Returns the place after them.
fn put<const N: usize>(part: &mut [u8], at: usize, bytes: [u8; N]) -> usize
    requires { at + N ≤ length part.old }
    ensures { (result ≡ at + N) × (part.new ≡ put part.old at bytes.entry) }
{
    for (i, byte) in bytes.iter().enumerate() {
        part[at + i] = *byte;
    }
    at + N
}

#[tactic(auto,
// A field of two bytes.
unfolding(crate::specs::Files::header, log_bytes::specs::Bytes::field,
// Its length.
fields::specs::Numbers::bytes_of))]
fn put_header(part: &mut [u8], verdict: u8, event: u8) -> usize
    requires { 5 ≤ length part.old }
    ensures { (result ≡ 5) × (part.new ≡ put part.old 0 (header verdict event)) }
{
    put(part, 0, [TAG_VERDICT, 2, 0, verdict, event])
}

fn put_step(part: &mut [u8], at: usize, word: u64) -> usize
    requires { (at + 6 ≤ length part.old) × (word < 2 ^ 24) }
    ensures { (result ≡ at + 6)
        × (part.new ≡ put part.old at (step_field (step_of_word word))) }
{
    let [before, location, machine, ..] = word.to_le_bytes();
    put(part, at, [TAG_STEP, 3, 0, before, location, machine])
}

fn put_end(part: &mut [u8], at: usize) -> usize
    requires { at + 3 ≤ length part.old }
    ensures { (result ≡ at + 3) × (part.new ≡ put part.old at end) }
{
    put(part, at, [TAG_END, 0, 0])
}

// The file that says allowed, from the part's first byte on. Returns its length.
fn fill_allowed(part: &mut [u8], steps: &[u64]) -> usize
    requires { (file_most ≤ length part.old) × T (writable (allowed_by steps.now)) }
    ensures value { result ≡ length (file_of (allowed_by steps.now)) }
    ensures part_after { part.new ≡
        put part.old 0 (file_of (allowed_by steps.now)) }
{
    let mut at = put_header(part, 1, 0);
    for word in steps {
        at = put_step(part, at, *word);
    }
    put_end(part, at)
}

// The file that says impossible.
fn fill_impossible(part: &mut [u8], event: u8) -> usize
    requires { file_most ≤ length part.old }
    ensures value { result ≡ length (file_of (impossible event)) }
    ensures part_after { part.new ≡ put part.old 0 (file_of (impossible event)) }
{
    let at = put_header(part, 0, event);
    put_end(part, at)
}
