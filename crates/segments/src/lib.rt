// What does a block cost, segment by segment? From a store to the next one copies have one value, so that of memory
// only matters whether it has that value too. A segment costs one number with the value of its copies in memory, one
// with a value that no event reads, and one to keep a value where it is.
#![tactic(auto)]

pub mod backing;
pub mod resting;
mod seeing;
pub mod weighing;
pub mod words;
