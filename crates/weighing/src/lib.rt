// Is there a run of the events in the scratch area, and which? `weigh` visits the locations one after the other, each
// with only the events that matter there, and puts the steps that it found in order. The events stay in the area, so
// that with others after them they can be weighed again. specs/Weighing.antt says what it answers and leaves.
#![tactic(auto)]

mod visiting;

ghost use Rattle.weighing.specs.Weighing.{Weighable, Concluded};

use model::Topology;
use sorting::order;
use visiting::visit_all;

// There is a run, and the shortest schedule stands from SORTED on, so many steps; or there is none, and the number of
// the first impossible event, from 1. Neither is a failure.
#[derive(Clone, Copy)]
pub enum Weighed {
    Allowed(usize),
    Impossible(usize),
}

// Weighs the first `events` events of the log in the scratch area.
pub fn weigh(w: &mut [u64], t: Topology, events: usize) -> Weighed
    requires { Weighable t events w.old }
    ensures { Concluded t events w.old result w.new }
{
    let p = visit_all(w, t, events);
    if p.events < events {
        return Weighed::Impossible(p.events + 1);
    }
    order(w, p.steps, events);
    Weighed::Allowed(p.steps)
}
