// How many events have a run at one location, and by which silent steps? `explaining` goes over the events one after
// the other, and `backtracking` back over their rows where one is not possible.
//
// Its callers see to it that the scratch area has 4,096 words, and that there are at most 129 events, each known
// (operations 1 to 11, machines 1 to 6).
#![tactic(auto)]

mod backtracking;
pub mod explaining;
pub mod shortening;
