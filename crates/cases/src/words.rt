// The words of a line, with one space between any two.
ghost use Rattle.std.specs.Prelude.{◌≡◌, ◌≢◌, ℕ, ◌<◌, ◌≤◌, length, slice_index, take};

use text::{Parsed, decimal, hex_bytes};

// The most bytes that a word says.
pub const MOST: usize = 4096;

// Where such a byte first stands from a position on, or the text's length.
pub fn find(text: &[u8], from: usize, byte: u8) -> usize
    requires { from ≤ length text.now }
    ensures in_bounds { result ≤ length text.now }
    ensures after { from ≤ result }
    ensures before { (k : ℕ) → from ≤ k → k < result → slice_index text.now k ≢ byte }
    ensures found { result < length text.now → slice_index text.now result ≡ byte }
{
    match text[from..].iter().position(|b| *b == byte) {
        Some(passed) => from + passed,
        None => text.len(),
    }
}

// Past the space at a position.
fn past(at: usize) -> usize {
    if at < 65536 { at + 1 } else { at }
}

// The bytes that the word after the space at a position says, at the front of the buffer: how many, and where the word
// ends.
pub fn bytes_after(line: &[u8], at: usize, out: &mut [u8]) -> Parsed
    ensures in_bounds { result.value ≤ length out.new }
    ensures whole_length { result.value ≡ length (take result.value out.new) }
{
    hex_bytes(line, past(at), out)
}

// The number that the word after the space at a position says, and where the word ends.
pub fn number_after(line: &[u8], at: usize) -> Parsed {
    decimal(line, past(at))
}
