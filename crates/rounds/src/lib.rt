// One round of value iteration (004, Theorem 1): every time from the table before it, in rows of sixteen times. The
// constraints and waits are first compiled into lists of difference bounds, one for each scenario.
#![tactic(auto)]

ghost use Rattle.rounds.specs.Compiled.{CompilesAmong};

use bounds::lists::Lists;
use network::Network;
use network::formed::Formed;
use rows::frame::Frame;
use rows::marks::Marks;
use rows::{Row, Table, known};

mod compile;

// The effect of a round: a time is over its limit; no time was raised; or times were raised, within limits.
#[derive(Clone, Copy, PartialEq, Eq)]
pub enum Effect {
    Passes,
    Rests,
    Rises,
}

// A network's frame, and its constraints and waits as lists of bounds. The lists stand in memory that is lent: to move
// them would cost as much as reading a sheet.
#[derive(Drop)]
pub struct Compiled<'a> {
    pub frame: Frame,
    pub lists: &'a Lists,
    pub ghost compiled: { CompilesAmong frame.network lists.now },
}

impl<'a> Compiled<'a> {
    ghost use Rattle.std.specs.Prelude.{◌≡◌, ℕ, ◌+◌, ◌*◌, ◌<◌, get_or};
    ghost use Rattle.bounds.specs.Listed.{case};
    ghost use Rattle.rows.specs.Rows.{Sixteen, Times};
    ghost use Rattle.rounds.specs.Rounds.{raised_at, Rounded};

    // A network's frame, and its lists, from lists that hold nothing yet.
    pub fn of(formed: &Formed, lists: &'a mut Lists) -> Self
        requires { (s : ℕ) → (case lists.old s).count ≡ 0 }
        ensures { result.frame.network ≡ formed.now.network }
    {
        let frame = Frame::of(formed);
        compile::list_constraints(lists, &frame);
        compile::list_waits(lists, &frame);
        Compiled { frame, lists }
    }

    // The times of scenario s in t, which are row, raised to what constraints, waits and hyperarcs ask, where their
    // events happen.
    fn raised(&self, t: &Table, s: usize, row: &Row) -> Row
        requires { (s < self.now.frame.scenarios) × Times self.now.frame.network t.now
            × Sixteen row.now (λ u. get_or t.now (s * 16 + u) 0) }
        ensures { Sixteen result (λ u. raised_at self.now.frame.network self.now.lists.now t.now s u) }
    {
        let mut first = [0; Network::CASES];
        known::first_known(row, &self.frame, s, &mut first);
        let mut o = self.lists[s].raised(row);
        // These go by number: d is the set of signals on which two scenarios differ, and both a place in `first` and
        // what turns s into the other scenario.
        for d in 1..self.frame.scenarios {
            rows::raise_by_scenario(t, s ^ d, first[d], &mut o);
        }
        self.frame.clear_absent(s, &mut o);
        o
    }

    // The table after t, and the round's effect.
    pub fn round(&self, t: &Table, new: &mut Table) -> Effect
        requires { Times self.now.frame.network t.now }
        ensures { Rounded self.now.frame.network t.now new.new result }
    {
        let mut marks = Marks::new();
        for s in 0..self.frame.scenarios {
            let mut row = [0; Network::EVENTS];
            rows::read_row(t, s, &mut row);
            let raised = self.raised(t, s, &row);
            rows::write_row(new, s, &raised);
            marks.note(&row, &raised);
        }
        if self.frame.network.horizon < marks.latest() || 0 < marks.highest[0] {
            return Effect::Passes;
        }
        if marks.steepest() == 0 {
            return Effect::Rests;
        }
        Effect::Rises
    }
}
