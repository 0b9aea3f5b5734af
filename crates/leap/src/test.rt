// Whether p rounds add the rises d to a table, and j times again, or at most d, or at least d: by rounds from tables
// far on. Each test says true only where it is so; where it says false nothing is known. `Far` stands in three
// `requires`, since a type for it would have to hold the guess a second time.
ghost use Rattle.std.specs.Prelude.{◌≡◌, true, ◌*◌, ◌≤◌, ◌<◌, MatchOption};
ghost use Rattle.fixpoint.specs.Iterate.{iterate};
ghost use Rattle.fixpoint.specs.Straight.{AtMost, AtLeast};
ghost use Rattle.network.specs.Limits as L;
ghost use Rattle.network.specs.Build as N;
ghost use Rattle.rows.specs.Rows.{Times};
ghost use Rattle.rounds.specs.Propagate.{propagate};
ghost use Rattle.rounds.specs.Rounds.{held};
ghost use Rattle.moves.specs.Moves.{Placed, TooFar, Between};
ghost use Rattle.moves.specs.Levels.{Highest, NextLevel};
ghost use Rattle.leap.specs.Tables.{Advanced, Halted, Far, NoneFar};
ghost use Rattle.leap.specs.Levels.{AtLevel, Level, Faster, Slower};

use moves::{Part, Span};
use network::Network;
use rounds::{Compiled, Effect};
use rows::Table;

// p rounds from a table on, where each of them raises within the limits.
pub fn advance(compiled: &Compiled, from: &Table, p: u32) -> Option<Table>
    requires { Times compiled.now.frame.network from.now }
    ensures { MatchOption result (Halted compiled.now.frame.network p from.now)
        (λ u. Advanced compiled.now.frame.network p from.now u) }
{
    let mut a = *from;
    let mut b = [0; Network::CELLS];
    let (mut here, mut next) = (&mut a, &mut b);
    for _ in 0..p {
        match compiled.round(here, next) {
            Effect::Passes | Effect::Rests => return None,
            Effect::Rises => std::mem::swap(&mut here, &mut next),
        }
    }
    // By hand, and not `Some(*here)`: `counted::overwrite` says why.
    let mut made = [0; Network::CELLS];
    counted::overwrite(&mut made, here);
    Some(made)
}

// The guess that p rounds add the rises d to the table t, and j times again.
#[derive(Clone, Copy)]
pub struct Guess<'a> {
    pub compiled: &'a Compiled<'a>,
    pub t: &'a Table,
    pub d: &'a Table,
    pub j: u32,
    pub p: u32,
    pub ghost times: { Times compiled.now.frame.network t.now × Times compiled.now.frame.network d.now },
    pub ghost small: { (j ≤ L.horizon) × (p ≤ 65535) },
}

impl Guess<'_> {
    // How many rounds all moves take.
    pub fn rounds(&self) -> u32
        ensures { result ≡ self.now.j * self.now.p }
    {
        self.j * self.p
    }

    // t moved on by the part of d, where it stays within the limits.
    pub fn place(&self, part: Part) -> Option<Table>
        ensures { MatchOption result
            (TooFar self.now.t.now self.now.d.now part.lo part.hi self.now.j
            self.now.compiled.now.frame.network.horizon
            (N.scenarios self.now.compiled.now.frame.network * L.events))
            (λ o. Times self.now.compiled.now.frame.network o
            × Placed self.now.t.now self.now.d.now part.lo part.hi self.now.j
            self.now.compiled.now.frame.network.horizon
            (N.scenarios self.now.compiled.now.frame.network * L.events) o) }
    {
        let cells = self.compiled.frame.cells();
        let horizon = self.compiled.frame.network.horizon;
        let (t, d) = (self.t, self.d);
        part.place(&t[..cells], &d[..cells], self.j, horizon)
    }

    // What p rounds make of the table so moved on, where each of them raises within the limits.
    pub fn far(&self, part: Part) -> Option<Table>
        ensures { MatchOption result
            (NoneFar self.now.compiled.now.frame.network self.now.p self.now.j self.now.t.now self.now.d.now
            part.lo part.hi)
            (λ o. Far self.now.compiled.now.frame.network self.now.p self.now.j self.now.t.now self.now.d.now
            part.lo part.hi o) }
    {
        let moved = self.place(part)?;
        advance(self.compiled, &moved, self.p)
    }

    // Whether each cell of rise l goes as far as the span says from t to o.
    fn between(&self, o: &Table, l: u16, span: Span) -> bool
        ensures { result ≡ true → Between self.now.t.now self.now.d.now l span.least span.most o.now
            (N.scenarios self.now.compiled.now.frame.network * L.events) }
    {
        let cells = self.compiled.frame.cells();
        let (t, d) = (self.t, self.d);
        span.between(&t[..cells], &o[..cells], &d[..cells], l)
    }

    // The least level of d above l.
    fn next_level(&self, l: u16) -> Option<u16>
        ensures { MatchOption result
            (Highest self.now.d.now l (N.scenarios self.now.compiled.now.frame.network * L.events))
            (λ r. NextLevel self.now.d.now l (N.scenarios self.now.compiled.now.frame.network * L.events) r) }
    {
        let cells = self.compiled.frame.cells();
        let d = self.d;
        moves::next_level(&d[..cells], l)
    }

    // Whether each cell of rise l goes as far as the span says in p rounds from the table so moved on. (`is_some_and`,
    // which proves in `Span::is_between`, was tried: here the search did not find the answer.)
    fn at_level(&self, l: u16, part: Part, span: Span) -> bool
        ensures { result ≡ true → AtLevel self.now.compiled.now.frame.network self.now.p self.now.j self.now.t.now
            self.now.d.now l part.lo part.hi span.least span.most }
    {
        let Some(o) = self.far(part) else {
            return false;
        };
        self.between(&o, l, span)
    }

    // Whether cells that are faster than l, j leads ahead, do not raise a cell of rise l by more than l. At the lowest
    // level the table so moved on is t moved on by d, of which p rounds make o.
    fn faster_hold(&self, l: u16, o: &Table) -> bool
        requires { (l ≤ L.horizon)
            × Far self.now.compiled.now.frame.network self.now.p self.now.j self.now.t.now self.now.d.now
            0 L.horizon o.now }
        ensures { result ≡ true → Level self.now.compiled.now.frame.network self.now.d.now l
            (Faster self.now.compiled.now.frame.network self.now.p self.now.j self.now.t.now self.now.d.now) }
    {
        let span = Span {
            least: 0,
            most: u32::from(l),
        };
        if l == 0 {
            return self.between(o, 0, span);
        }
        self.at_level(l, Part::above(l), span)
    }

    // Whether p rounds add at most d to t, and j times again, level by level. At the highest level no cell is faster,
    // and p rounds make x of t. (Here and in `at_least` a loop of its own: one loop with the test as a closure would
    // have to hand on what each test says of a level, and be no plainer.)
    pub fn at_most(&self, x: &Table, o: &Table) -> bool
        requires { Advanced self.now.compiled.now.frame.network self.now.p self.now.t.now x.now
            × Far self.now.compiled.now.frame.network self.now.p self.now.j self.now.t.now self.now.d.now
            0 L.horizon o.now }
        ensures { result ≡ true → AtMost (iterate self.now.p (propagate self.now.compiled.now.frame.network))
            (held self.now.compiled.now.frame.network self.now.t.now)
            (held self.now.compiled.now.frame.network self.now.d.now) self.now.j }
    {
        let mut l = 0;
        while let Some(next) = self.next_level(l) {
            if !self.faster_hold(l, o) {
                return false;
            }
            l = next;
        }
        let span = Span {
            least: 0,
            most: u32::from(l),
        };
        self.between(x, l, span)
    }

    // Whether cells that are slower than l, j lags behind, are not what raises a cell of rise l: it still goes l
    // further than j moves. At the lowest level there is nothing to raise.
    fn slower_hold(&self, l: u16) -> bool
        requires { l ≤ L.horizon }
        ensures { result ≡ true → Level self.now.compiled.now.frame.network self.now.d.now l
            (Slower self.now.compiled.now.frame.network self.now.p self.now.j self.now.t.now self.now.d.now) }
    {
        if l == 0 {
            return true;
        }
        let span = Span {
            least: moves::reached(l, l, self.j),
            most: u32::MAX,
        };
        self.at_level(l, Part::up_to(l), span)
    }

    // Whether p rounds add at least d to t, and j times again, level by level. At the highest level the table so moved
    // on is t moved on by d, of which p rounds make o.
    pub fn at_least(&self, o: &Table) -> bool
        requires { Far self.now.compiled.now.frame.network self.now.p self.now.j self.now.t.now self.now.d.now
            0 L.horizon o.now }
        ensures { result ≡ true → AtLeast (iterate self.now.p (propagate self.now.compiled.now.frame.network))
            (held self.now.compiled.now.frame.network self.now.t.now)
            (held self.now.compiled.now.frame.network self.now.d.now) self.now.j }
    {
        let mut l = 0;
        while let Some(next) = self.next_level(l) {
            if !self.slower_hold(l) {
                return false;
            }
            l = next;
        }
        let last = moves::reached(l, l, self.j);
        let span = Span {
            least: last,
            most: u32::MAX,
        };
        self.between(o, l, span)
    }
}
