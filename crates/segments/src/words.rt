// The words of the segments in the scratch area, as specs/Words.antt has them.
ghost use Rattle.std.specs.Prelude.{◌+◌, ◌≤◌, ◌≡◌, length};
ghost use Rattle.scratch.specs.Layout.{WORDS, MOST};
ghost use Rattle.segments.specs.Words.{segment_in, costs_in, SegmentFits, CostsFit, SegmentPut, CostsPut};

use levels::Closing;
use scratch::{SEGMENTS, U32};

// A segment: the value of its copies, its first and its last gap, the code at the first one, how it closes, and the
// first event that resets memory, or a number that is not below `end` (no Option: it is a byte of the segment's word,
// and is only compared with gaps).
#[derive(Clone, Copy)]
pub struct Segment {
    pub copy: u32,
    pub first: usize,
    pub end: usize,
    pub code: u8,
    pub closing: Closing,
    pub reset: usize,
}

// What is to pay, FAR if there is no run. `keep`: in the segment, to keep a memory value that it does not read.
// `other`: from its start on, with a memory value that no event reads; `same`: with that of its copies. `back`: after
// the segment, with that of its copies.
#[derive(Clone, Copy)]
pub struct Costs {
    pub keep: u64,
    pub other: u64,
    pub same: u64,
    pub back: u64,
}

// How many segments a block has, where it ends, and the value that the event at its end must read from memory, if any.
#[derive(Clone, Copy)]
pub struct Block {
    pub count: usize,
    pub end: usize,
    pub forced: Option<u32>,
}

// Segment l.
#[tactic(auto, unfolding(crate::specs::Words::segment_in))]
pub fn get_segment(w: &[u64], l: usize) -> Segment
    requires { (WORDS ≤ length w.now) × (l ≤ MOST) }
    ensures { result ≡ segment_in w.now l }
{
    let word = w[SEGMENTS + 2 * l];
    let above = word / U32;
    Segment {
        copy: (word % U32) as u32,
        first: (above % 256) as usize,
        end: (above / 256 % 256) as usize,
        code: (above / 65536 % 64) as u8,
        closing: Closing::from((above / 65536 / 64 % 4) as u8),
        reset: (above / 65536 / 256 % 256) as usize,
    }
}

// Makes s segment l.
pub fn put_segment(w: &mut [u64], l: usize, s: Segment)
    requires { (WORDS ≤ length w.old) × (l ≤ MOST) × SegmentFits s }
    ensures { SegmentPut w.old l s w.new }
{
    let codes = s.code as u64 + 64 * (s.closing as u64) + 256 * (s.reset as u64);
    let above = s.first as u64 + 256 * (s.end as u64) + 65536 * codes;
    w[SEGMENTS + 2 * l] = s.copy as u64 + U32 * above;
}

// The value of the copies of segment l.
#[tactic(auto, unfolding(crate::specs::Words::segment_in))]
pub(crate) fn get_value(w: &[u64], l: usize) -> u32
    requires { (WORDS ≤ length w.now) × (l ≤ MOST) }
    ensures { result ≡ (segment_in w.now l).copy }
{
    (w[SEGMENTS + 2 * l] % U32) as u32
}

// The costs of segment l.
#[tactic(auto, unfolding(crate::specs::Words::costs_in))]
pub fn get_costs(w: &[u64], l: usize) -> Costs
    requires { (WORDS ≤ length w.now) × (l ≤ MOST) }
    ensures { result ≡ costs_in w.now l }
{
    let word = w[SEGMENTS + 2 * l + 1];
    Costs {
        keep: word % 65536,
        other: word / 65536 % 65536,
        same: word / 65536 / 65536 % 65536,
        back: word / 65536 / 65536 / 65536 % 65536,
    }
}

// Makes c the costs of segment l.
pub(crate) fn put_costs(w: &mut [u64], l: usize, c: Costs)
    requires { (WORDS ≤ length w.old) × (l ≤ MOST) × CostsFit c }
    ensures { CostsPut w.old l c w.new }
{
    w[SEGMENTS + 2 * l + 1] = c.keep + 65536 * (c.other + 65536 * (c.same + 65536 * c.back));
}
