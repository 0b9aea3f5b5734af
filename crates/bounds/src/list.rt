// The bounds of one scenario, and a row of times that is raised by them.
ghost use Rattle.std.specs.Prelude.{◌≡◌, ℕ, ◌+◌, ◌-◌, ◌≤◌, ◌<◌, get_or};
ghost use Rattle.network.specs.Limits as L;
ghost use Rattle.rows.specs.Rows.{Few, Sixteen};

use crate::bound::Bound;
use network::Network;
use rows::Row;

// The bounds of one scenario: the first so many. It has no model, since sixteen of them are made by copying one, and
// what has a model that forgets a part, here what is behind the count, can't be copied.
#[derive(Clone, Copy)]
pub struct BoundList {
    count: usize,
    bounds: [Bound; Network::LISTED],
    pub ghost short: { count ≤ L.listed },
}

// 10,080 more than each time of the row into o, so that no bound needs a sign. A row that was copied first, and changed
// in place, would be read again before its copy is done.
fn bias(row: &Row, o: &mut Row)
    requires { Few L.horizon row.now }
    ensures { Sixteen o.new (λ u. get_or row.now u 0 + L.horizon) }
{
    for (u, time) in o.iter_mut().enumerate() {
        *time = row[u] + Network::HORIZON;
    }
}

// The times again.
fn unbias(o: &mut Row)
    requires { (u : ℕ) → u < L.events → L.horizon ≤ get_or o.old u 0 }
    ensures { Sixteen o.new (λ u. get_or o.old u 0 - L.horizon) }
{
    for time in o.iter_mut() {
        *time -= Network::HORIZON;
    }
}

impl BoundList {
    ghost use Rattle.std.specs.Prelude.{[], ◌∷◌, ◌++◌, max};
    ghost use Rattle.bounds.specs.Listed.{listed, asks};

    // No bounds yet.
    pub fn empty() -> Self
        ensures { result.count ≡ 0 }
    {
        let bound = Bound {
            target: 0,
            source: 0,
            weight: 0,
        };
        BoundList {
            count: 0,
            bounds: [bound; Network::LISTED],
        }
    }

    // One more bound, behind the others.
    pub fn push(&mut self, bound: Bound)
        requires { self.old.count < L.listed }
        ensures { (listed self.new ≡ listed self.old ++ bound ∷ []) × (self.new.count ≡ self.old.count + 1) }
    {
        self.bounds[self.count] = bound;
        self.count += 1;
    }

    // The bounds that are listed.
    fn as_slice(&self) -> &[Bound]
        ensures { result.now ≡ listed self.now }
    {
        &self.bounds[..self.count]
    }

    // The row o, 10,080 more than times are, is raised as far as the bounds ask at the times of row.
    fn raise(&self, row: &Row, o: &mut Row)
        requires { Few L.horizon row.now }
        ensures { Sixteen o.new (λ u. max (get_or o.old u 0) (asks (listed self.now) row.now u)) }
    {
        for bound in self.as_slice() {
            let target = usize::from(bound.target);
            o[target] = o[target].max(row[usize::from(bound.source)] + bound.weight);
        }
    }

    // The row, raised as far as the bounds ask at its times.
    pub fn raised(&self, row: &Row) -> Row
        requires { Few L.horizon row.now }
        ensures { Sixteen result
            (λ u. max (get_or row.now u 0) (asks (listed self.now) row.now u - L.horizon)) }
    {
        let mut o = [0; Network::EVENTS];
        bias(row, &mut o);
        self.raise(row, &mut o);
        unbias(&mut o);
        o
    }
}
