// How far a round raises times, and how late it makes them.
ghost use Rattle.std.specs.Prelude.{◌≡◌, ℕ, ◌-◌, ◌≤◌, ◌<◌, max, get_or, replicate};
ghost use Rattle.std.specs.List.{fold};
ghost use Rattle.prelude.specs.Bounded.{max_below};
ghost use Rattle.network.specs.Limits as L;
ghost use Rattle.rows.specs.Rows.{Sixteen};

use crate::Row;
use network::Network;

// Over the rows that a round makes, cell by cell of a row: how far a time rose at most, and the latest time. So no cell
// waits for another, and the loops take eight at once. Two loops, since one with a closure for what it raises to would
// be no shorter.
#[derive(Clone, Copy)]
pub struct Marks {
    pub climb: Row,
    pub highest: Row,
}

// Each cell of climb goes up to how far the time after is over that before.
fn raise_climb(before: &Row, after: &Row, climb: &mut Row)
    requires { (u : ℕ) → u < L.events → get_or before.now u 0 ≤ get_or after.now u 0 }
    ensures { Sixteen climb.new
        (λ u. max (get_or climb.old u 0) (get_or after.now u 0 - get_or before.now u 0)) }
{
    for (u, cell) in climb.iter_mut().enumerate() {
        *cell = (*cell).max(after[u] - before[u]);
    }
}

// Each cell of highest goes up to the time after.
fn raise_highest(after: &Row, highest: &mut Row)
    ensures { Sixteen highest.new (λ u. max (get_or highest.old u 0) (get_or after.now u 0)) }
{
    for (u, cell) in highest.iter_mut().enumerate() {
        *cell = (*cell).max(after[u]);
    }
}

// The greatest of sixteen numbers.
fn greatest(x: &Row) -> u16
    ensures { result ≡ fold max 0 x.now }
{
    x.iter().copied().fold(0, u16::max)
}

impl Marks {
    // No row is noted yet.
    pub fn new() -> Self
        ensures { (result.climb ≡ replicate L.events 0) × (result.highest ≡ replicate L.events 0) }
    {
        Marks {
            climb: [0; Network::EVENTS],
            highest: [0; Network::EVENTS],
        }
    }

    // A row as it was before the round and as it is after it.
    pub fn note(&mut self, before: &Row, after: &Row)
        requires { (u : ℕ) → u < L.events → get_or before.now u 0 ≤ get_or after.now u 0 }
        ensures { Sixteen self.new.climb
            (λ u. max (get_or self.old.climb u 0) (get_or after.now u 0 - get_or before.now u 0))
            × Sixteen self.new.highest (λ u. max (get_or self.old.highest u 0) (get_or after.now u 0)) }
    {
        raise_climb(before, after, &mut self.climb);
        raise_highest(after, &mut self.highest);
    }

    // How far the time that rose furthest rose.
    #[tactic(auto, using(crate::proofs::Greatest::greatest_is))]
    pub fn steepest(&self) -> u16
        ensures { result ≡ max_below L.events (λ u. get_or self.now.climb u 0) }
    {
        greatest(&self.climb)
    }

    // The latest time.
    #[tactic(auto, using(crate::proofs::Greatest::greatest_is))]
    pub fn latest(&self) -> u16
        ensures { result ≡ max_below L.events (λ u. get_or self.now.highest u 0) }
    {
        greatest(&self.highest)
    }
}
