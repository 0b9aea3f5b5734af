// When two scenarios are known apart, for each set of propositions on which they differ.
ghost use Rattle.std.specs.Prelude.{◌≡◌, List, ℕ, ◌≤◌, ◌<◌};
ghost use Rattle.network.specs.Limits as L;
ghost use Rattle.rows.specs.Rows.{Few, RowIn};
ghost use Rattle.rows.specs.Known.{known_in, known_at, Doubled, FirstKnown};

use crate::Row;
use crate::frame::Frame;
use network::Network;

// Over every time and every known time. It is a number and no Option, so that one instruction takes the lesser of eight
// at once.
const NEVER: u16 = 32767;

// The second p of first: the lesser of the first p and v. The cells have numbers, since both halves are of one array.
fn double(first: &mut [u16; Network::CASES], p: usize, v: u16)
    requires { p ≤ 8 }
    ensures { Doubled p v first.old first.new p }
{
    for d in 0..p {
        first[p + d] = first[d].min(v);
    }
}

// From when on proposition p is known in scenario s, whose times are row; never, where it is not given. Behind the last
// signal the observation is any number, and the remainder keeps the index in the row. It is asked of a row, and not of
// a table (`Strategy::known_from`), since rounds keep one row at hand.
fn known_from(row: &Row, frame: &Frame, s: usize, p: usize) -> u16
    requires { (s < L.cases) × (p < L.signals) × Few L.horizon row.now }
    ensures { result ≡ known_at frame.now.network row.now s p }
{
    let u = frame.network.observations[p] % Network::EVENTS;
    let known = row[u] + frame.reactions[p];
    if frame.happens(s, u) { known } else { NEVER }
}

// The first known time of each set d of propositions, for two propositions or for four: the sets that no scenario asks
// for cost less than a loop over the signals, and a table that is lent less than one that is returned. Cells of sets
// that have other propositions than the network's are of no matter.
pub fn first_known(row: &Row, frame: &Frame, s: usize, first: &mut [u16; Network::CASES])
    requires { Few L.horizon row.now × (s < L.cases) }
    ensures { (σ : List ℕ) → RowIn frame.now.network σ s row.now
        → FirstKnown frame.now.network.signals (known_in frame.now.network σ s) first.new }
{
    first[0] = NEVER;
    let signals = frame.network.signals;
    if signals == 0 {
        return;
    }
    double(first, 1, known_from(row, frame, s, 0));
    double(first, 2, known_from(row, frame, s, 1));
    if signals <= 2 {
        return;
    }
    double(first, 4, known_from(row, frame, s, 2));
    double(first, 8, known_from(row, frame, s, 3));
}
