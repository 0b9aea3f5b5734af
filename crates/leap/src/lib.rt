// Rounds passed over at once (docs/LEAP.md). Where p rounds are seen to add the rises d to a table, and j times
// again, j * p rounds are one addition; where they are seen to add at least some rises and at most others, it may be
// seen in which round a limit is passed. What is seen is tested by plain rounds from tables that lie j moves further
// on.
#![tactic(auto)]

pub mod pace;
pub mod pass;
mod test;
