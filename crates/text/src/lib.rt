// Numbers as text, for the programs: digits into a buffer, and back out of a text. What is put stands from its
// position on, as far as the buffer reaches, no other byte changes, and the call gives the position after it
// (specs/Putting.antt). Reading ends at the first byte that is no digit and where there is no more room, and gives
// where that is and what was read up to there (specs/Reading.antt). specs/Digits.antt has the digits.
#![tactic(auto)]

ghost use Rattle.std.specs.Prelude.{◌≡◌, [], ◌∷◌, ◌<◌, SomeIff, slice_get, drop};
ghost use Rattle.text.specs.Putting.{put, after};
ghost use Rattle.text.specs.Digits.{decimal_of, hex_digit, hex_of, hex_value};
ghost use Rattle.text.specs.Reading.{hex_pairs, bytes_read, number_read};

// A number that is read stays below it: the greatest multiple of ten that fits 64 bits.
const LIMIT: usize = usize::MAX / 10 * 10;

// Where reading stopped, and how many bytes, or which number, was read.
#[derive(Clone, Copy)]
pub struct Parsed {
    pub at: usize,
    pub value: usize,
}

// Puts one byte at a position and gives the next position.
#[tactic(auto,
// Where there is room, and where there is none.
using(crate::proofs::Puts::put_one, crate::proofs::Puts::put_full,
// The position after it.
crate::proofs::Puts::after_one, crate::proofs::Puts::after_full))]
pub fn put_byte(out: &mut [u8], at: usize, b: u8) -> usize
    ensures value { result ≡ after out.old at (b ∷ []) }
    ensures out_after { out.new ≡ put out.old at (b ∷ []) }
{
    if at < out.len() {
        out[at] = b;
        at + 1
    } else {
        at
    }
}

// Puts a text.
pub fn put_text(out: &mut [u8], at: usize, text: &[u8]) -> usize
    ensures value { result ≡ after out.old at text.now }
    ensures out_after { out.new ≡ put out.old at text.now }
{
    let mut end = at;
    for b in text {
        end = put_byte(out, end, *b);
    }
    end
}

// Puts a number in decimal.
pub fn put_decimal(out: &mut [u8], at: usize, v: u32) -> usize
    ensures value { result ≡ after out.old at (decimal_of v) }
    ensures out_after { out.new ≡ put out.old at (decimal_of v) }
{
    let unit = if v < 10 {
        at
    } else {
        put_decimal(out, at, v / 10)
    };
    put_byte(out, unit, b'0' + (v % 10) as u8)
}

// A number below 16 as a hexadecimal digit.
#[tactic(auto, unfolding(crate::specs::Digits::hex_digit))]
fn hex_digit(v: u8) -> u8
    requires { v < 16 }
    ensures { result ≡ hex_digit v }
{
    if v < 10 { b'0' + v } else { b'a' - 10 + v }
}

// Puts a byte as two hexadecimal digits.
#[tactic(auto,
// One more byte.
using(crate::proofs::Puts::put_more, crate::proofs::Puts::after_more),
// Its digits.
unfolding(crate::specs::Digits::hex_of))]
pub fn put_hex(out: &mut [u8], at: usize, b: u8) -> usize
    ensures value { result ≡ after out.old at (hex_of b) }
    ensures out_after { out.new ≡ put out.old at (hex_of b) }
{
    let next = put_byte(out, at, hex_digit(b / 16));
    put_byte(out, next, hex_digit(b % 16))
}

// The number that a hexadecimal digit stands for. A capital letter is none, so std's `to_digit` does not serve here.
#[tactic(auto, unfolding(crate::specs::Digits::hex_value))]
fn hex_value(b: u8) -> Option<u8>
    ensures { SomeIff result (hex_value b < 16) (hex_value b) }
{
    match b {
        b'0'..=b'9' => Some(b - b'0'),
        b'a'..=b'f' => Some(b - b'a' + 10),
        _ => None,
    }
}

// The byte that the pair of hexadecimal digits at a position says.
fn hex_pair(text: &[u8], at: usize) -> Option<u8>
    ensures { result ≡ slice_get (hex_pairs (drop at text.now)) 0 }
{
    let [high, low, ..] = text.get(at..)? else {
        return None;
    };
    Some(hex_value(*high)? * 16 + hex_value(*low)?)
}

// Reads pairs of hexadecimal digits from a position on, as long as there are any and the bytes fit.
pub fn hex_bytes(text: &[u8], at: usize, out: &mut [u8]) -> Parsed
    ensures value { result ≡ bytes_read text.now at out.old }
    ensures out_after { out.new ≡ put out.old 0 (hex_pairs (drop at text.now)) }
{
    let mut read = Parsed { at, value: 0 };
    for place in 0..out.len() {
        let Some(byte) = hex_pair(text, read.at) else {
            break;
        };
        out[place] = byte;
        read = Parsed {
            at: read.at + 2,
            value: place + 1,
        };
    }
    read
}

// Reads a number in decimal from a position on, as long as there are digits and it stays below the limit.
pub fn decimal(text: &[u8], at: usize) -> Parsed
    ensures { result ≡ number_read text.now at }
{
    let mut read = Parsed { at, value: 0 };
    // A slice from the position on: std's `skip` would go over all bytes before it.
    let Some(ahead) = text.get(at..) else {
        return read;
    };
    for b in ahead {
        match char::from(*b).to_digit(10) {
            Some(digit) if read.value < LIMIT / 10 => {
                read = Parsed {
                    at: read.at + 1,
                    value: read.value * 10 + digit as usize,
                };
            }
            _ => break,
        }
    }
    read
}
