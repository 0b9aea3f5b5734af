// The least solution of a network by value iteration, or that there is none (004, Theorem 1). Rounds go on from a
// table until one raises nothing or passes a limit, or the budget is used up, which leaves a floor; where they are seen
// to repeat, some are passed over at once (docs/LEAP.md).
#![tactic(auto)]

ghost use Rattle.std.specs.Prelude.{◌≡◌, ◌*◌, ◌≤◌, length};
ghost use Rattle.network.specs.Limits as L;
ghost use Rattle.network.specs.Build.{cells};
ghost use Rattle.rows.specs.Rows.{Times};
ghost use Rattle.solver.specs.Stopped.{left};
ghost use Rattle.solver.specs.Solved.{SolvedIs};
ghost use Rattle.solver.specs.Within.{WithinIs};
ghost use Rattle.solver.specs.Run.{RunIs, Onward};

use bounds::list::BoundList;
use guess::{Next, Pace, Watch};
use leap::pace;
use leap::pass::Stretch;
use network::Network;
use network::formed::Formed;
use network::times::Strategy;
use rounds::{Compiled, Effect};
use rows::Table;

// That no strategy solves the network, and after how many rounds that was known.
#[derive(Clone, Copy, PartialEq, Eq)]
pub struct Inconsistent {
    pub rounds: u32,
}

// How a run ends: its last round raised nothing; it took a time over its limit; the budget is used up.
#[derive(Clone, Copy, PartialEq, Eq)]
pub enum End {
    Rests,
    Passes,
    Spent,
}

// How a run ended, and after how many rounds. A turn makes one round, and may pass over others.
#[derive(Clone, Copy, PartialEq, Eq)]
pub struct Ended {
    pub end: End,
    pub rounds: u32,
    pub turns: u32,
}

// More rounds than any run takes: one more than the cells have room for. (By casts, since `From` can't be called in a
// constant.)
pub const BUDGET: u32 = Network::CELLS as u32 * Network::HORIZON as u32 + 1;

// Does what is to be done after a turn, and says how many rounds that passed over, of those that are left.
fn pursue(
    stretch: &mut Stretch<'_, '_>,
    next: Next,
    watch: &mut Watch,
    turns: u32,
    left: u32,
) -> u32
    ensures { (result ≤ left) × (stretch.new.compiled.now ≡ stretch.old.compiled.now)
        × Onward stretch.old.compiled.now.frame.network stretch.old.base stretch.new.base stretch.old.rounds
        stretch.new.rounds result }
{
    match next {
        Next::GoOn => 0,
        Next::Keep => {
            stretch.keep();
            0
        }
        Next::Leap => {
            let made = stretch.pass_over(left);
            watch.tried(turns, made);
            made
        }
    }
}

// At most `budget` rounds from what a holds. Where no limit is passed, a then holds what they reached.
pub fn run(compiled: &Compiled, a: &mut Table, budget: u32) -> Ended
    requires { Times compiled.now.frame.network a.old }
    ensures { (length a.new ≡ L.cells) × RunIs compiled.now.frame.network budget a.old a.new result }
{
    let mut floor = *a;
    let mut other = [0; Network::CELLS];
    let mut stretch = Stretch::new(compiled, &mut floor, &mut other);
    let mut watch = Watch::new();
    let mut pace = Pace::new();
    let mut turns: u32 = 0;
    let mut rounds: u32 = 0;
    // This is no plain count, since a turn may pass over rounds.
    while rounds < budget {
        rounds += 1;
        turns += 1;
        match stretch.round() {
            Effect::Passes => return Ended {
                end: End::Passes,
                rounds,
                turns,
            },
            Effect::Rests => {
                counted::overwrite(a, stretch.table());
                return Ended {
                    end: End::Rests,
                    rounds,
                    turns,
                };
            }
            Effect::Rises => {}
        }
        let turn = stretch.turn(turns);
        let next = watch.see(&turn, rounds, stretch.rounds + 1);
        let period = pace.follow(&turn);
        stretch.advance();
        rounds += pursue(&mut stretch, next, &mut watch, turns, budget - rounds);
        // There are two tests, since with `and_then` and a closure no proof was made of this loop.
        if let Some(p) = period {
            if let Some(last) = pace::finish(
                compiled,
                stretch.table(),
                &pace.since,
                p,
                budget - rounds,
            ) {
                return Ended {
                    end: End::Passes,
                    rounds: rounds + last,
                    turns,
                };
            }
        }
    }
    counted::overwrite(a, stretch.table());
    Ended {
        end: End::Spent,
        rounds,
        turns,
    }
}

// What a run of at most so many rounds has written.
#[derive(Clone, Copy, PartialEq, Eq)]
pub enum Outcome {
    // It finished, after so many rounds: the least solution.
    Finished(u32),
    // It was stopped: the floor, beside which so much is left.
    Stopped(u32),
}

// What is left of a floor: the sum, over the cells of events that happen other than the start's, of the horizon minus
// the time.
fn left(floor: &Strategy<'_>) -> u32
    ensures { result ≡ left floor.now.formed.now.network floor.now.table.now }
{
    let network = &floor.formed.network;
    let mut left: u32 = 0;
    for (i, time) in floor.table.iter().enumerate() {
        let s = i / network.events;
        let u = i % network.events;
        if u != 0 && floor.formed.happens(s, u) {
            left += u32::from(network.horizon.saturating_sub(*time));
        }
    }
    left
}

// Into the first cells of the table what at most so many rounds reach: the least solution, or a floor below all
// solutions; or that there is none.
pub fn solve_within(
    formed: &Formed,
    rounds: u32,
    table: &mut [u16],
) -> Result<Outcome, Inconsistent>
    requires { cells formed.now.network ≤ length table.old }
    ensures { WithinIs formed.now.network rounds table.old table.new result }
{
    let mut lists = [BoundList::empty(); Network::CASES];
    let compiled = Compiled::of(formed, &mut lists);
    let mut a = [0; Network::CELLS];
    let ended = run(&compiled, &mut a, rounds);
    match ended.end {
        End::Rests => {
            compiled.frame.copy_out(&a, table);
            Ok(Outcome::Finished(ended.rounds))
        }
        End::Passes => Err(Inconsistent {
            rounds: ended.rounds,
        }),
        End::Spent => {
            compiled.frame.copy_out(&a, table);
            let floor = Strategy {
                formed,
                table: &table[..formed.cell_count()],
            };
            Ok(Outcome::Stopped(left(&floor)))
        }
    }
}

// The least solution into the first cells of the table, or that there is none; the count of rounds either way.
pub fn solve(formed: &Formed, table: &mut [u16]) -> Result<u32, Inconsistent>
    requires { cells formed.now.network ≤ length table.old }
    ensures { SolvedIs formed.now.network table.old table.new result }
{
    match solve_within(formed, BUDGET, table) {
        Ok(Outcome::Finished(rounds)) => Ok(rounds),
        // No run takes as many rounds.
        Ok(Outcome::Stopped(_)) => unreachable!(),
        Err(none) => Err(none),
    }
}
