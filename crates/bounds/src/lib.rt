// Constraints as lists of difference bounds, one list for each scenario: how they are listed, and how a row of times
// is raised by them.
#![tactic(auto)]

pub mod bound;
pub mod list;
pub mod lists;
