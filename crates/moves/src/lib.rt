// Tables moved on: each time by j times a part of its rise. Rises stand in tables like times, and a level is one of
// their values; a slice has the times or rises of the cells that count. Nothing here knows of rounds. A test says true
// where what it tests is so, and false where it is not. Tables are written by index: of what `iter_mut().zip(..)`
// writes a proof would know nothing, and since only the first cells of an array are written, a part of it would have to
// be lent, and put back in the proof. That counts of moves and levels are at most a horizon is asked where they come
// in: what holds them, `Guess` and `Tries`, says so.
#![tactic(auto)]

ghost use Rattle.std.specs.Prelude.{◌≡◌, ◌⊎◌, true, false, ◌+◌, ◌-◌, ◌*◌, ◌%◌, ◌≤◌, ◌<◌, length, get_or, replicate};
ghost use Rattle.std.specs.Prelude.{MatchOption, min, ltb};
ghost use Rattle.std.specs.List.{filter, reduce};
ghost use Rattle.network.specs.Limits as L;
ghost use Rattle.rows.specs.Rows.{Wrote};
ghost use Rattle.moves.specs.Moves.{part_of, Placed, TooFar, Between, Outside, clipped_lem, Clipped};
ghost use Rattle.moves.specs.Levels.{SomeRise, Highest, NextLevel};

use network::Network;
use rows::Table;

// How far each time of x is above t's.
pub fn rise(t: &[u16], x: &[u16]) -> Table
    requires { (length t.now ≤ L.cells) × (length x.now ≡ length t.now) }
    ensures { Wrote (replicate L.cells 0) result 0 (length t.now)
        (λ i. get_or x.now i 0 - get_or t.now i 0) }
{
    let mut d = [0; Network::CELLS];
    for i in 0..t.len() {
        d[i] = x[i].saturating_sub(t[i]);
    }
    d
}

// The times of b into the first cells of a.
pub fn copy(b: &[u16], a: &mut Table)
    requires { length b.now ≤ L.cells }
    ensures { Wrote a.old a.new 0 (length b.now) (λ i. get_or b.now i 0) }
{
    counted::overwrite(&mut a[..b.len()], b);
}

// The time t moved on j times by e.
pub fn reached(t: u16, e: u16, j: u32) -> u32
    requires { (e ≤ L.horizon) × (j ≤ L.horizon) }
    ensures { result ≡ t + j * e }
{
    u32::from(t) + j * u32::from(e)
}

// What of a rise is above lo, and at most hi of that.
#[derive(Clone, Copy)]
pub struct Part {
    lo: u16,
    hi: u16,
    pub ghost small: { hi ≤ L.horizon },
}

impl Part {
    // Of a rise, what is above l.
    pub fn above(l: u16) -> Self
        ensures { (result.lo ≡ l) × (result.hi ≡ L.horizon) }
    {
        Part {
            lo: l,
            hi: Network::HORIZON,
        }
    }

    // Of a rise, at most l.
    pub fn up_to(l: u16) -> Self
        requires { l ≤ L.horizon }
        ensures { (result.lo ≡ 0) × (result.hi ≡ l) }
    {
        Part { lo: 0, hi: l }
    }

    // Where j moves take the time t, whose rise is d, if that is at most the limit.
    fn moved(&self, t: u16, d: u16, j: u32, limit: u16) -> Option<u16>
        requires { j ≤ L.horizon }
        ensures { MatchOption result (limit < t + j * part_of self.now.lo self.now.hi d)
            (λ v. (v ≡ t + j * part_of self.now.lo self.now.hi d) × (v ≤ limit)) }
    {
        let v = reached(t, d.saturating_sub(self.lo).min(self.hi), j);
        if v <= u32::from(limit) {
            // The limit fits 16 bits. (With `then_some` the cast would stand before the
            // test, where nothing says that it fits.)
            return Some(v as u16);
        }
        None
    }

    // The times t moved on j times by these parts of their rises d, if they stay within the limits.
    pub fn place(&self, t: &[u16], d: &[u16], j: u32, horizon: u16) -> Option<Table>
        requires { (length t.now ≤ L.cells) × (length d.now ≡ length t.now) × (j ≤ L.horizon) }
        ensures { MatchOption result (TooFar t.now d.now self.now.lo self.now.hi j horizon (length t.now))
            (λ o. (length o ≡ L.cells)
            × Placed t.now d.now self.now.lo self.now.hi j horizon (length t.now) o) }
    {
        let mut o = [0; Network::CELLS];
        for i in 0..t.len() {
            // Event 0 stays at 0.
            let limit = if i % Network::EVENTS == 0 { 0 } else { horizon };
            o[i] = self.moved(t[i], d[i], j, limit)?;
        }
        Some(o)
    }
}

// Whether some rise is not 0.
pub fn is_risen(d: &[u16]) -> bool
    ensures { (result ≡ true → SomeRise d.now (length d.now)) × (result ≡ false → Highest d.now 0 (length d.now)) }
{
    d.iter().any(|rise| *rise != 0)
}

// The least of the rises that are above l.
fn least_above(d: &[u16], l: u16) -> Option<u16>
    ensures { result ≡ reduce min (filter (λ r. ltb l r) d.now) }
{
    d.iter().copied().filter(|rise| l < *rise).min()
}

// The least level above l.
pub fn next_level(d: &[u16], l: u16) -> Option<u16>
    ensures { MatchOption result (Highest d.now l (length d.now))
        (λ r. NextLevel d.now l (length d.now) r) }
{
    least_above(d, l)
}

// At least so many minutes and at most so many; u32::MAX is as good as no bound, since times have 16 bits.
#[derive(Clone, Copy)]
pub struct Span {
    pub least: u32,
    pub most: u32,
}

impl Span {
    // Whether the time o is so far after t.
    fn is_between(&self, t: u16, o: u16) -> bool
        ensures { (result ≡ true → (t + self.now.least ≤ o) × (o ≤ t + self.now.most))
            × (result ≡ false → (o < t + self.now.least) ⊎ (t + self.now.most < o)) }
    {
        o.checked_sub(t).is_some_and(|gone| self.least <= u32::from(gone)
            && u32::from(gone) <= self.most)
    }

    // Whether each time whose rise is l has gone so far from t to o.
    pub fn between(&self, t: &[u16], o: &[u16], d: &[u16], l: u16) -> bool
        requires { (length o.now ≡ length t.now) × (length d.now ≡ length t.now) }
        ensures { (result ≡ true → Between t.now d.now l self.now.least self.now.most o.now (length t.now))
            × (result ≡ false → Outside t.now d.now l self.now.least self.now.most o.now (length t.now)) }
    {
        t.iter()
            .zip(o)
            .zip(d)
            .all(|((t, o), d)| *d != l || self.is_between(*t, *o))
    }
}

// The highest rise stays, none stays none, and any other becomes m.
fn clipped(rise: u16, top: u16, m: u16) -> u16
    ensures { result ≡ clipped_lem top m rise }
{
    if rise == 0 || rise == top { rise } else { m }
}

// All rises, clipped.
pub fn clip(d: &[u16], top: u16, m: u16) -> Table
    requires { (length d.now ≤ L.cells) × (m ≤ L.horizon) }
    ensures { Clipped d.now top m (length d.now) result }
{
    let mut o = [0; Network::CELLS];
    for i in 0..d.len() {
        o[i] = clipped(d[i], top, m);
    }
    o
}
