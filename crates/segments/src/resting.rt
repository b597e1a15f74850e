// What the segments of a block cost from one of them on, with a given memory value.
ghost use Rattle.std.specs.Prelude.{◌+◌, ◌≤◌, ◌<◌, ◌≡◌};
ghost use Rattle.levels.specs.Stretches.{FAR};
ghost use Rattle.segments.specs.Costs.{plus, ending, rest_from, other_from};
ghost use Rattle.segments.specs.Weighing.{Restable};

use crate::words::{Block, get_costs, get_value};
use levels::FAR;

// The sum of two numbers, but no more than FAR.
pub(crate) fn add(a: u64, b: u64) -> u64
    requires { (a ≤ FAR) × (b ≤ FAR) }
    ensures { result ≡ plus a b }
{
    (a + b).min(FAR)
}

// What is to pay after the last segment.
fn after_all(b: Block, m: u32) -> u64
    ensures { result ≡ ending b m }
{
    match b.forced {
        Some(value) if value != m => FAR,
        _ => 0,
    }
}

// What is to pay from segment l on, with a memory value that no event of the block reads.
pub(crate) fn other(w: &[u64], b: Block, l: usize) -> u64
    requires { Restable w.now b l }
    ensures { result ≡ other_from w.now b l }
{
    if l < b.count {
        return get_costs(w, l).other;
    }
    if b.forced.is_some() { FAR } else { 0 }
}

// What is to pay from segment `from` on with memory value m. It is as good as any value; or it is kept up to the next
// segment whose copies have it, or to the end.
pub fn rest(w: &[u64], b: Block, from: usize, m: u32) -> u64
    requires { Restable w.now b from }
    ensures { result ≡ rest_from w.now b from m }
{
    let never = other(w, b, from);
    let mut kept: u64 = 0;
    for l in from..b.count {
        let costs = get_costs(w, l);
        if get_value(w, l) == m {
            return never.min(add(kept, costs.same));
        }
        kept = add(kept, costs.keep);
        // To keep the value costs no less than any other value.
        if never <= kept {
            return never;
        }
    }
    never.min(add(kept, after_all(b, m)))
}
