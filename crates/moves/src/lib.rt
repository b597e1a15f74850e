// The move table: which sets of sharers propagation alone can reach. `reach` is the crate's only call; a set
// of machines is a code below 64 (bit i - 1 for machine i), and a set of codes is a mask (bit t for code t).
// Moves to one owner are like moves to another, so that the table has the numbers of owner 1 alone: for owner
// k, machines 1 and k are exchanged in the code that is looked up, and again in the codes that are found.
#![tactic(auto)]

ghost use Rattle.std.specs.Prelude.{◌≡◌, ◌<◌};
ghost use Rattle.masks.specs.Sets.{In, Exactly, OneToSix};
ghost use Rattle.moves.specs.Exchange.{exchange};
ghost use Rattle.moves.specs.Reach.{Reached};

use masks::{alone, holding, lacking};
use model::Machine;

// For owner 1 and each code 0 to 63, the codes that moves alone can reach, no moves counted.
const TABLE: [u64; 64] = [
    0x0000000000000001,
    0x0000000000000002,
    0x0000000000000006,
    0x000000000000000a,
    0x0000000000000012,
    0x0000000000000022,
    0x000000000000006a,
    0x00000000000000aa,
    0x0000000000000102,
    0x0000000000000202,
    0x000000000000060a,
    0x0000000000000a0a,
    0x0000000000001222,
    0x0000000000002222,
    0x0000000000006aaa,
    0x000000000000aaaa,
    0x0000000000010002,
    0x0000000000020002,
    0x000000000006000a,
    0x00000000000a000a,
    0x0000000000120022,
    0x0000000000220022,
    0x00000000006a00aa,
    0x0000000000aa00aa,
    0x0000000001020202,
    0x0000000002020202,
    0x00000000060a0a0a,
    0x000000000a0a0a0a,
    0x0000000012222222,
    0x0000000022222222,
    0x000000006aaaaaaa,
    0x00000000aaaaaaaa,
    0x0000000100000002,
    0x0000000200000002,
    0x000000060000000a,
    0x0000000a0000000a,
    0x0000001200000022,
    0x0000002200000022,
    0x0000006a000000aa,
    0x000000aa000000aa,
    0x0000010200000202,
    0x0000020200000202,
    0x0000060a00000a0a,
    0x00000a0a00000a0a,
    0x0000122200002222,
    0x0000222200002222,
    0x00006aaa0000aaaa,
    0x0000aaaa0000aaaa,
    0x0001000200020002,
    0x0002000200020002,
    0x0006000a000a000a,
    0x000a000a000a000a,
    0x0012002200220022,
    0x0022002200220022,
    0x006a00aa00aa00aa,
    0x00aa00aa00aa00aa,
    0x0102020202020202,
    0x0202020202020202,
    0x060a0a0a0a0a0a0a,
    0x0a0a0a0a0a0a0a0a,
    0x1222222222222222,
    0x2222222222222222,
    0x6aaaaaaaaaaaaaaa,
    0xaaaaaaaaaaaaaaaa,
];

// The code with machines 1 and k exchanged: bits 0 and k - 1, where they differ, are both flipped.
fn exchanged(code: u8, k: Machine) -> u8
    requires { (code < 64) × OneToSix k.0 }
    ensures { result ≡ exchange k.0 code }
{
    let s = k.0 - 1;
    let d = (code ^ (code >> s)) & 1;
    code ^ d ^ (d << s)
}

// The set with machines 1 and k exchanged in each of its codes. A code with machine 1 and without k becomes
// the code s above it, and that one the first: bits t and t + s, where they differ, are both flipped.
fn each_exchanged(m: u64, k: Machine) -> u64
    requires { OneToSix k.0 }
    ensures { Exactly result (λ t. In (exchange k.0 t) m) }
{
    let low = lacking(holding(Machine(1)), k);
    let s = alone(k) - 1;
    let d = (m ^ (m >> s)) & low;
    m ^ d ^ (d << s)
}

// The codes that propagation to the owner reaches from a code. What is no machine or no code reaches none.
pub fn reach(owner: Machine, code: u8) -> u64
    ensures { Reached owner.0 code result }
{
    if owner.0 < 1 || 6 < owner.0 || 63 < code {
        return 0;
    }
    let at = exchanged(code, owner) as usize;
    each_exchanged(TABLE[at], owner)
}
