// What is the shortest schedule of a block, from a known state to the next one? `splitting` cuts it into segments,
// `treading` walks through one, and `blocks` weighs and walks through them all.
#![tactic(auto)]

pub mod blocks;
pub mod splitting;
pub mod treading;
