// Names, letters and labels as they are written, and what they refer to.
#![tactic(auto)]

pub mod label;
pub mod lookup;
pub mod token;
