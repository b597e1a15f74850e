// Machines in a byte: bit i - 1 of a code stands for machine i.
ghost use Rattle.std.specs.Prelude.{◌≡◌, ◌%◌, ◌^◌, ltb};
ghost use Rattle.model.specs.Sharers.{insert};

use super::Machine;

// The code of the set of machine i alone. A byte has no bit for a machine above 8.
#[tactic(auto, using(crate::proofs::Bits::one_bit))]
pub fn bit(i: Machine) -> u8
    ensures { result ≡ insert i.0 0 % 256 }
{
    match i.0 {
        n @ 1..=8 => 1 << (n - 1),
        _ => 0,
    }
}

// No machine above n is in the set of code c.
#[tactic(auto, using(crate::proofs::Bits::low_bits))]
pub fn none_above(n: u8, c: u8) -> bool
    ensures { result ≡ ltb c (2 ^ n) }
{
    n >= 8 || c < 1 << n
}

// The machines 1 to n of a code.
#[tactic(auto, using(crate::proofs::Bits::low_bits))]
pub fn up_to(n: u8, c: u8) -> u8
    ensures { result ≡ c % 2 ^ n }
{
    if n < 8 { c & ((1 << n) - 1) } else { c }
}
