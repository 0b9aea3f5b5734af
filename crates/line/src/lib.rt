// A line of the sheet: why it is refused, or what it holds.
#![tactic(auto)]

pub mod entry;
mod field;
pub mod heading;
pub mod two_counts;
pub mod whole;

// The sections behind the horizon, in the order of the sheet.
#[derive(Clone, Copy, PartialEq, Eq)]
pub enum Section {
    Events,
    Signals,
    Rules,
    Reactions,
    Cases,
}
