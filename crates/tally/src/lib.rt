// Counts of rounds, for the comparison and the bench: by the solver's run, which passes over rounds, and by plain
// rounds, one after another. Proved safe and ending; what it answers is compared, not proved. (That the run counts as
// the definition does is proved of it.)
//
// An answer's lower four bytes are the rounds. Behind them stands a sum of the table, or all ones where there is none;
// `tally_turns` answers with the rounds made one by one. A sheet that is refused gets 0.
#![tactic(auto)]

ghost use Rattle.std.specs.Prelude.{◌≡◌, ℕ};
ghost use Rattle.bounds.specs.Listed.{case};

use bounds::list::BoundList;
use bounds::lists::Lists;
use network::Network;
use rounds::{Compiled, Effect};
use rows::Table;
use solver::{BUDGET, End};

// Rounds and turns, and the sum of the table, where there is one.
#[derive(Clone, Copy)]
struct Count {
    rounds: u32,
    turns: u32,
    sum: Option<u32>,
}

impl Count {
    // The rounds, and behind them the sum.
    fn answer(self) -> u64 {
        u64::from(self.rounds) + 4294967296 * u64::from(self.sum.unwrap_or(u32::MAX))
    }
}

// The sum of the sums of the times on the way, so that exchanged times show.
fn sum_of(t: &Table) -> u32 {
    let mut one: u32 = 0;
    let mut two: u32 = 0;
    for &time in t {
        one = one.wrapping_add(u32::from(time));
        two = two.wrapping_add(one);
    }
    two
}

// By the solver's run.
fn by_leaps(compiled: &Compiled) -> Count {
    let mut a = [0; Network::CELLS];
    let ended = solver::run(compiled, &mut a, BUDGET);
    Count {
        rounds: ended.rounds,
        turns: ended.turns,
        sum: (ended.end == End::Rests).then(|| sum_of(&a)),
    }
}

// By plain rounds, one after another.
fn by_rounds(compiled: &Compiled) -> Count {
    let cells = compiled.frame.cells();
    let mut a = [0; Network::CELLS];
    let mut b = [0; Network::CELLS];
    for rounds in 1..=BUDGET {
        match compiled.round(&a, &mut b) {
            Effect::Passes => return Count {
                rounds,
                turns: rounds,
                sum: None,
            },
            Effect::Rests => return Count {
                rounds,
                turns: rounds,
                sum: Some(sum_of(&a)),
            },
            Effect::Rises => moves::copy(&b[..cells], &mut a),
        }
    }
    Count {
        rounds: BUDGET,
        turns: BUDGET,
        sum: None,
    }
}

// What rounds are made of, if the sheet is accepted, with lists that are lent and hold nothing yet.
fn compiled<'a>(sheet: &[u8], lists: &'a mut Lists) -> Option<Compiled<'a>>
    requires { (s : ℕ) → (case lists.old s).count ≡ 0 }
{
    let accepted = sheet::read(sheet).ok()?;
    Some(Compiled::of(&accepted.formed, lists))
}

// Three calls for C. Each makes the lists itself, since what is compiled borrows them.

// Rounds and sum by the solver's run.
#[unsafe(no_mangle)]
#[tactic(auto, using(bounds::proofs::Listed::empty_lists))]
pub extern "C" fn tally_leaping(sheet: &[u8]) -> u64 {
    let mut lists = [BoundList::empty(); Network::CASES];
    compiled(sheet, &mut lists).map_or(0, |compiled| by_leaps(&compiled).answer())
}

// Rounds and sum by plain rounds.
#[unsafe(no_mangle)]
#[tactic(auto, using(bounds::proofs::Listed::empty_lists))]
pub extern "C" fn tally_plain(sheet: &[u8]) -> u64 {
    let mut lists = [BoundList::empty(); Network::CASES];
    compiled(sheet, &mut lists).map_or(0, |compiled| by_rounds(&compiled).answer())
}

// How many rounds the leaping run made one by one.
#[unsafe(no_mangle)]
#[tactic(auto, using(bounds::proofs::Listed::empty_lists))]
pub extern "C" fn tally_turns(sheet: &[u8]) -> u64 {
    let mut lists = [BoundList::empty(); Network::CASES];
    compiled(sheet, &mut lists).map_or(0, |compiled| u64::from(by_leaps(&compiled).turns))
}
