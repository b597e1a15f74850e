// The counts of kept events in the words of steps, made counts of the log's events.
ghost use Rattle.std.specs.Prelude.{◌≤◌, ◌<◌, length};
ghost use Rattle.scratch.specs.Layout.{WORDS, MOST};
ghost use Rattle.scratch.specs.Words.{count_of};
ghost use Rattle.events.specs.Retiming.{Retimable, Retimed, index_before, WordRetimed};

use crate::picking::index_in;
use scratch::{EVENTS, INDEX, STEPS};

// The word of a step, placed right after the kept event before it: that event's index, plus 1, for the count.
#[tactic(auto, using(crate::proofs::Retimings::word_count))]
fn retimed_word(w: &[u64], v: u64) -> u64
    requires { (WORDS ≤ length w.now) × (0 < count_of v) × (index_before w.now v < MOST) }
    ensures { WordRetimed w.now v result }
{
    let count = v % 256;
    let index = index_in(w[EVENTS + 2 * (count as usize - 1)], INDEX) as u64;
    v - count + (index + 1)
}

// Retimes the steps from number `from` to number `to`, the second not included, by the indices of the kept
// events, of which there are `events`.
pub fn retime(w: &mut [u64], events: usize, from: usize, to: usize)
    requires { Retimable events from to w.old }
    ensures { Retimed events from to w.old w.new }
{
    for j in from..to {
        let v = w[STEPS + j];
        w[STEPS + j] = retimed_word(&*w, v);
    }
}
