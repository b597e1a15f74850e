// Sets of codes as 64-bit masks: bit t of a mask is set if code t, 0 to 63, is in the set. The contract of
// a call says which codes are in the mask that it gives; union and intersection are `|` and `&`, with their
// laws in proofs/Sets.antt. Each call is a few shifts and constants; none loops over the codes.
//
// Its callers see to it that a machine's number is 1 to 6, that a code is below 64, and that `lowest` is given a mask
// that is not 0. These are no types with invariants: numbers and codes come as bytes of words and events, and each
// use would build the type with the proof that its `requires` now asks.
#![tactic(auto)]

ghost use Rattle.std.specs.Prelude.{◌≡◌, true, cond, not, ◌&&◌, ◌↔◌, ◌≢◌, T, eqb, ℕ, ◌<◌};
ghost use Rattle.model.specs.Sharers.{has, insert, remove, remove_all};
ghost use Rattle.model.specs.OneLocation.{moved};
ghost use Rattle.masks.specs.Sets.{In, every_code, Exactly, Least, Leads, OneToSix};

use model::Machine;

// Code c is in the set.
pub fn contains(m: u64, c: u8) -> bool
    requires { c < 64 }
    ensures { (result ≡ true) ↔ In c m }
{
    (m >> c) & 1 == 1
}

// The set of code c alone.
pub fn single(c: u8) -> u64
    requires { c < 64 }
    ensures { Exactly result (λ t. t ≡ c) }
{
    1 << c
}

// Every code.
#[tactic(auto, unfolding(crate::specs::Sets::every_code))]
pub fn all() -> u64
    ensures { result ≡ every_code }
{
    u64::MAX
}

// Every code but 0, which is that of no machine.
pub fn all_but_empty() -> u64
    ensures { Exactly result (λ t. t ≢ 0) }
{
    !1
}

// The two sets have a code in common.
pub fn meets(a: u64, b: u64) -> bool
    ensures { (result ≡ true) ↔ ((t : ℕ) × (t < 64) × In t a × In t b) }
{
    a & b != 0
}

// The least code of a set that is not empty.
pub fn lowest(m: u64) -> u8
    requires { m ≢ 0 }
    ensures { Least result m }
{
    m.trailing_zeros() as u8
}

// The code of machine i alone.
pub fn alone(i: Machine) -> u8
    requires { OneToSix i.0 }
    ensures { (result ≡ insert i.0 0) × (result < 64) }
{
    1 << (i.0 - 1)
}

// Machine i is in the set of code c.
pub fn holds(c: u8, i: Machine) -> bool
    requires { OneToSix i.0 }
    ensures { result ≡ has i.0 c }
{
    c & alone(i) != 0
}

// The codes that have machine i.
pub fn holding(i: Machine) -> u64
    requires { OneToSix i.0 }
    ensures { Exactly result (λ t. T (has i.0 t)) }
{
    match i.0 {
        1 => 0xaaaa_aaaa_aaaa_aaaa,
        2 => 0xcccc_cccc_cccc_cccc,
        3 => 0xf0f0_f0f0_f0f0_f0f0,
        4 => 0xff00_ff00_ff00_ff00,
        5 => 0xffff_0000_ffff_0000,
        _ => 0xffff_ffff_0000_0000,
    }
}

// The codes of the set that have machine i.
#[tactic(auto, using(crate::proofs::Sets::in_and))]
pub fn having(m: u64, i: Machine) -> u64
    requires { OneToSix i.0 }
    ensures { Exactly result (λ t. In t m × T (has i.0 t)) }
{
    m & holding(i)
}

// The codes of the set that do not have machine i.
pub fn lacking(m: u64, i: Machine) -> u64
    requires { OneToSix i.0 }
    ensures { Exactly result (λ t. In t m × T (not (has i.0 t))) }
{
    m & !holding(i)
}

// The codes that have machine i and are in the set once they lose it.
pub fn giving_up(m: u64, i: Machine) -> u64
    requires { OneToSix i.0 }
    ensures { Exactly result (λ t. T (has i.0 t) × In (remove i.0 t) m) }
{
    lacking(m, i) << alone(i)
}

// The codes that are in the set once they lose machine i, if they have it.
#[tactic(auto, using(crate::proofs::Shifts::losing))]
pub fn losing(m: u64, i: Machine) -> u64
    requires { OneToSix i.0 }
    ensures { Exactly result (λ t. In (remove i.0 t) m) }
{
    let without = lacking(m, i);
    let with = giving_up(m, i);
    without | with
}

// The codes that are in the set once they lose those machines of the set of code d that they have.
pub fn losing_all(m: u64, d: u8) -> u64
    ensures { Exactly result (λ t. In (remove_all d t) m) }
{
    let mut r = m;
    for n in 1..=6 {
        let i = Machine(n);
        if holds(d, i) {
            r = losing(r, i);
        }
    }
    r
}

// The codes that are in the set once they gain machine i, if they lack it.
#[tactic(auto, using(crate::proofs::Shifts::gaining))]
pub fn gaining(m: u64, i: Machine) -> u64
    requires { OneToSix i.0 }
    ensures { Exactly result (λ t. In (insert i.0 t) m) }
{
    let with = having(m, i);
    let without = with >> alone(i);
    with | without
}

// The codes from which one move to the owner k reaches the set.
pub fn one_move(m: u64, k: Machine) -> u64
    requires { OneToSix k.0 }
    ensures { Exactly result (λ t. (i : ℕ) × T (not (eqb i k.0) && has i t) × In (moved k.0 i t) m) }
{
    // No move leads to code 0.
    if m <= 1 {
        return 0;
    }
    let near = gaining(m, k);
    let mut r = 0;
    for n in 1..=6 {
        let i = Machine(n);
        if i != k {
            r |= giving_up(near, i);
        }
    }
    r
}

// The codes from which moves to the owner k reach the set. Moves of different machines commute, so that one
// pass over the machines finds them all; `near` has the codes that are in `r` once they gain k.
fn one_pass(m: u64, k: Machine) -> u64
    requires { OneToSix k.0 }
    ensures { Exactly result (Leads k.0 m) }
{
    let mut r = m;
    let mut near = gaining(m, k);
    for i in 1..=6 {
        let more = giving_up(near, Machine(i));
        near |= more;
        r |= more;
    }
    r
}

// The codes from which moves to the owner k reach the set. No move leads from code 0 or to it, so that a set
// with none or all of the other codes gains no code.
pub fn leading(m: u64, k: Machine) -> u64
    requires { OneToSix k.0 }
    ensures { Exactly result (Leads k.0 m) }
{
    let others = m | 1;
    if others == 1 || others == u64::MAX {
        m
    } else {
        one_pass(m, k)
    }
}
