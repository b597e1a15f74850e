// The state of a whole system, with a method for each event and each silent step: it says whether that action
// is possible, and hands back the state after it, or `None` if it is not. The contracts say what the answer means
// by the definitions of `model`, and which state it is, entry by entry; both are in specs/States.antt.
#![tactic(auto)]

mod stepping;

use entries::Entry;
use model::LOCATIONS;

// The locations' entries.
#[derive(Clone, Copy)]
pub struct State {
    pub entries: [Entry; LOCATIONS],
}
