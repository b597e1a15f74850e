// What stands at the front of a part of a file, and whether a step fits a system.
ghost use Rattle.std.specs.Prelude.{◌≡◌};
ghost use Rattle.model.specs.Meaning.{topology_of};
ghost use Rattle.schedules.specs.Answers.{step_of};
ghost use Rattle.verdict_file.specs.Fitting.{step_fits};
ghost use Rattle.schedules.specs.Schedules.{is_end, says_allowed, may_follow};

use crate::Step;
use model::{LOCATIONS, Topology};
use verdict_file::{TAG_END, TAG_VERDICT};

// The bytes are the end and nothing after it.
#[tactic(auto,
// Tests of numbers.
using(std::proofs::lemmas::Bool::Decides::nat_tests),
// The end, as a field.
unfolding(crate::specs::Schedules::is_end, crate::specs::Schedules::begins, crate::specs::Schedules::starts))]
pub(crate) fn is_end(s: &[u8]) -> bool
    ensures { result ≡ is_end s.now }
{
    matches!(s, [TAG_END, 0, 0])
}

// The bytes begin with a header that says allowed, with event 0.
#[tactic(auto,
// Tests of numbers.
using(std::proofs::lemmas::Bool::Decides::nat_tests),
// The header, as a field.
unfolding(crate::specs::Schedules::says_allowed, crate::specs::Schedules::begins,
// How a part begins.
crate::specs::Schedules::starts))]
pub(crate) fn says_allowed(s: &[u8]) -> bool
    ensures { result ≡ says_allowed s.now }
{
    matches!(s, [TAG_VERDICT, 2, 0, 1, 0, ..])
}

// The step names a listed location, and a machine that is not its owner.
#[tactic(auto,
// Tests of numbers.
using(std::proofs::lemmas::Bool::Decides::nat_tests,
// Homes in the array.
crate::proofs::Homes::fits_by_array, model::proofs::Limits::mapped))]
pub(crate) fn step_fits(t: Topology, p: Step) -> bool
    ensures { result ≡ step_fits (topology_of t) (step_of p) }
{
    let x = p.location.0 as usize;
    x < LOCATIONS
        && x < t.locations as usize
        && p.machine.0 <= t.machines
        && p.machine != t.homes[x].owner
}

// The step may come next in a log of `events` events, after a step that has `least` events before it.
#[tactic(auto, using(std::proofs::lemmas::Bool::Decides::nat_tests), unfolding(crate::specs::Schedules::may_follow))]
pub(crate) fn may_follow(t: Topology, events: u8, least: u8, p: Step) -> bool
    ensures { result ≡ may_follow (topology_of t) events least (step_of p) }
{
    least <= p.before && p.before <= events && step_fits(t, p)
}
