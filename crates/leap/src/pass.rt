// The leap: rounds passed over at once, if p of them are seen to add the same rises again and again.
ghost use Rattle.std.specs.Prelude.{◌≡◌, ◌+◌, ◌*◌, ◌≤◌, ◌<◌, take, MatchOption};
ghost use Rattle.network.specs.Limits as L;
ghost use Rattle.network.specs.Build as N;
ghost use Rattle.rows.specs.Rows.{Times};
ghost use Rattle.rounds.specs.declared.Effect.TheVariants.{Rises};
ghost use Rattle.rounds.specs.Rounds.{Rounded};
ghost use Rattle.moves.specs.Levels.{SomeRise};
ghost use Rattle.leap.specs.Tables.{Advanced};

use crate::test::{self, Guess};
use guess::{Tries, Turn};
use moves::Part;
use network::Network;
use rounds::{Compiled, Effect};
use rows::Table;

// Where a run is: so many rounds lead from `base`, the table that periods are counted from, to `reached`. The round
// from there is made into `next`, and then the two references change places, so that no table is copied.
#[derive(Drop)]
pub struct Stretch<'a, 'b> {
    pub compiled: &'a Compiled<'b>,
    pub base: Table,
    reached: &'a mut Table,
    next: &'a mut Table,
    pub rounds: u32,
    pub ghost started: { Times compiled.now.frame.network base },
    pub ghost led: { Advanced compiled.now.frame.network rounds base reached.now },
}

// The table b in the place of a. It is not inlined: else the compiler makes one copy of this one and of the next one in
// `keep`, and that by C's `memmove` (`counted::overwrite` says why not).
#[inline(never)]
fn replace(a: &mut Table, b: &Table)
    ensures { a.new ≡ b.now }
{
    counted::overwrite(a, b);
}

impl<'a, 'b> Stretch<'a, 'b> {
    // A run that is to start at the floor; the other table is room for its rounds.
    pub fn new(compiled: &'a Compiled<'b>, floor: &'a mut Table, next: &'a mut Table) -> Self
        requires { Times compiled.now.frame.network floor.old }
        ensures { (result.compiled.now ≡ compiled.now) × (result.base ≡ floor.old) × (result.reached.now ≡ floor.old)
            × (result.rounds ≡ 0) }
    {
        Stretch {
            compiled,
            base: *floor,
            reached: floor,
            next,
            rounds: 0,
        }
    }

    // The round from the table that is reached, into `next`.
    pub fn round(&mut self) -> Effect
        ensures { (self.new.compiled.now ≡ self.old.compiled.now) × (self.new.base ≡ self.old.base)
            × (self.new.rounds ≡ self.old.rounds) × (self.new.reached.now ≡ self.old.reached.now)
            × Rounded self.old.compiled.now.frame.network self.old.reached.now self.new.next.now result }
    {
        self.compiled.round(self.reached, self.next)
    }

    // The table that is reached.
    pub fn table(&self) -> &Table
        ensures { result.now ≡ self.now.reached.now }
    {
        self.reached
    }

    // The turn of this number, whose round was made.
    pub fn turn(&self, number: u32) -> Turn<'_>
        ensures { let cells = self.now.compiled.now.frame.scenarios * L.events in
            (result.number ≡ number) × (result.before.now ≡ take cells self.now.reached.now)
            × (result.after.now ≡ take cells self.now.next.now) }
    {
        let cells = self.compiled.frame.cells();
        Turn {
            number,
            before: &self.reached[..cells],
            after: &self.next[..cells],
        }
    }

    // One round more, where that raised: the two tables change places.
    pub fn advance(&mut self)
        requires { (self.old.rounds < 4294967295)
            × Rounded self.old.compiled.now.frame.network self.old.reached.now self.old.next.now Rises }
        ensures { (self.new.compiled.now ≡ self.old.compiled.now) × (self.new.base ≡ self.old.base)
            × (self.new.rounds ≡ self.old.rounds + 1) }
    {
        std::mem::swap(&mut self.reached, &mut self.next);
        self.rounds += 1;
    }

    // Periods are counted from here on.
    pub fn keep(&mut self)
        ensures { (self.new.compiled.now ≡ self.old.compiled.now) × (self.new.base ≡ self.old.reached.now)
            × (self.new.reached.now ≡ self.old.reached.now) × (self.new.rounds ≡ 0) }
    {
        let mut base = [0; Network::CELLS];
        replace(&mut base, self.reached);
        self.base = base;
        self.rounds = 0;
    }

    // j times its rounds at once, if they are seen to add d each time, stay within the limits and are no more than are
    // left: how many.
    fn hop(&mut self, d: &Table, j: u32, left: u32) -> Option<u32>
        requires { Times self.old.compiled.now.frame.network d.now × (j ≤ L.horizon) × (self.old.rounds ≤ 65535)
            × SomeRise d.now (N.scenarios self.old.compiled.now.frame.network * L.events) }
        ensures { (self.new.compiled.now ≡ self.old.compiled.now) × (self.new.rounds ≡ self.old.rounds)
            × MatchOption result (self.new.base ≡ self.old.base)
            (λ made. (made ≤ left) × Advanced self.old.compiled.now.frame.network made self.old.base self.new.base) }
    {
        let guess = Guess {
            compiled: self.compiled,
            t: &self.base,
            d,
            j,
            p: self.rounds,
        };
        let made = guess.rounds();
        if left < made {
            return None;
        }
        let base = guess.place(Part::above(0))?;
        let reached = test::advance(self.compiled, &base, self.rounds)?;
        if !guess.at_most(self.reached, &reached) || !guess.at_least(&reached) {
            return None;
        }
        self.base = base;
        *self.reached = reached;
        Some(made)
    }

    // Takes both tables on by rounds that all raise within the limits: how many, of those that are left. No more counts
    // of moves are tried than the halves and doubles of a horizon.
    pub fn pass_over(&mut self, left: u32) -> u32
        ensures { (result ≤ left) × (self.new.compiled.now ≡ self.old.compiled.now)
            × (self.new.rounds ≡ self.old.rounds)
            × Advanced self.old.compiled.now.frame.network result self.old.base self.new.base }
    {
        // A longer period is not worth its test.
        if 65535 < self.rounds {
            return 0;
        }
        let cells = self.compiled.frame.cells();
        let horizon = self.compiled.frame.network.horizon;
        let d = moves::rise(&self.base[..cells], &self.reached[..cells]);
        if !moves::is_risen(&d[..cells]) {
            return 0;
        }
        let most = guess::most(&self.base[..cells], &d[..cells], horizon, self.rounds, left);
        let mut tries = Tries::new(most);
        let mut made = 0;
        for _ in 0..64 {
            // Fewer moves are not worth their test.
            if tries.moves < 4 {
                return made;
            }
            let more = self.hop(&d, tries.moves, left - made);
            made += more.unwrap_or(0);
            tries = tries.next(more.is_some());
        }
        made
    }
}
