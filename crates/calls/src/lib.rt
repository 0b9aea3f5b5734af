// What the public calls answer. The definitions of each answer stand in specs/, and so do the demands on them, which
// `theorems` proves; the calls themselves are those of `opening`. Each answers `Ok` with what it tells, or `Err` with
// why it refuses.
#![tactic(auto)]

ghost use Rattle.std.specs.Prelude.{◌≡◌};

use refusal::Refusal;

pub mod theorems;

// The horizon and the counts of a sheet.
#[derive(Clone, Copy)]
pub struct Counts {
    pub horizon: u16,
    pub events: usize,
    pub signals: usize,
    pub rules: usize,
}

/// What solving has written, and how long that took.
#[derive(Clone, Copy)]
pub struct Solved {
    /// So many minutes stand in the table: one for each event in each case.
    pub minutes: usize,
    /// It took so many rounds, the last of which raised nothing.
    pub rounds: u32,
}

/// A floor that solving had reached when it was stopped: no good table has any event earlier.
#[derive(Clone, Copy)]
pub struct Floor {
    /// So many minutes stand in the table, in the places of a good table's and with its blanks.
    pub minutes: usize,
    /// The sum, over the events that happen other than the start, in all cases, of the horizon minus the floor: at most
    /// so many rounds remain, and one more.
    pub left: u32,
}

/// How far solving came within so many rounds.
#[derive(Clone, Copy)]
pub enum Progress {
    /// It finished.
    Finished(Solved),
    /// It was stopped after the last of these rounds.
    Stopped(Floor),
}

/// Why nothing was solved.
#[derive(Clone, Copy)]
pub struct Unsolved {
    pub refusal: Refusal,
    /// With 13 it took so many rounds, the last of which passed a limit; with every other refusal 0.
    pub rounds: u32,
}

impl From<Refusal> for Unsolved {
    ghost from_gives = { λ r u. (u.refusal ≡ r) × (u.rounds ≡ 0) };

    // Refused before any round.
    fn from(refusal: Refusal) -> Self {
        Unsolved { refusal, rounds: 0 }
    }
}
