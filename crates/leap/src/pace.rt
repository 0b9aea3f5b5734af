// The end of a run that passes a limit, seen from its fastest times: the others need no period, only bounds.
ghost use Rattle.std.specs.Prelude.{◌+◌, ◌*◌, ◌≤◌, ◌<◌, IfSome};
ghost use Rattle.rows.specs.Rows.{Times};
ghost use Rattle.leap.specs.Passing.{Closing, Passing};

use crate::test::{self, Guess};
use moves::Part;
use network::Network;
use rounds::{Compiled, Effect};
use rows::Table;

// In which round from `low` on a limit is passed, if none is passed in the rounds before it from `high`.
fn closing(compiled: &Compiled, low: &Table, high: &Table, most: u32) -> Option<u32>
    requires { Times compiled.now.frame.network low.now × Times compiled.now.frame.network high.now }
    ensures { IfSome result
        (λ q. (0 < q) × (q ≤ most) × Closing compiled.now.frame.network low.now high.now q) }
{
    let cells = compiled.frame.cells();
    let mut below = *low;
    let mut above = *high;
    let mut b = [0; Network::CELLS];
    for q in 0..most {
        match compiled.round(&below, &mut b) {
            Effect::Passes => return Some(q + 1),
            Effect::Rests => return None,
            Effect::Rises => {}
        }
        moves::copy(&b[..cells], &mut below);
        match compiled.round(&above, &mut b) {
            Effect::Passes | Effect::Rests => return None,
            Effect::Rises => {}
        }
        moves::copy(&b[..cells], &mut above);
    }
    None
}

// After how many rounds a limit is passed, if p rounds are seen to add at least e and at most the guess's d to its
// table, and j times again, and the rounds from the two far tables to pass a limit in the same round; and if that is
// within those left.
fn passes_after(upper: &Guess<'_>, e: &Table, left: u32) -> Option<u32>
    requires { Times upper.now.compiled.now.frame.network e.now }
    ensures { IfSome result
        (λ r. (r ≤ left) × Passing upper.now.compiled.now.frame.network r upper.now.t.now) }
{
    let high = upper.far(Part::above(0))?;
    let x = test::advance(upper.compiled, upper.t, upper.p)?;
    if !upper.at_most(&x, &high) {
        return None;
    }
    let lower = Guess {
        compiled: upper.compiled,
        t: upper.t,
        d: e,
        j: upper.j,
        p: upper.p,
    };
    let low = lower.far(Part::above(0))?;
    if !lower.at_least(&low) {
        return None;
    }
    let q = closing(upper.compiled, &low, &high, upper.p)?;
    let r = upper.rounds() + (upper.p + q);
    // An `if` serves: what `then_some` answers would have to be opened by a law in the proof.
    if left < r {
        return None;
    }
    Some(r)
}

// The same, where p rounds are guessed to raise the fastest times of a as they rose since another table was theirs, and
// the others less.
pub fn finish(compiled: &Compiled, a: &Table, since: &Table, p: u32, left: u32) -> Option<u32>
    requires { Times compiled.now.frame.network a.now }
    ensures { IfSome result (λ r. (r ≤ left) × Passing compiled.now.frame.network r a.now) }
{
    // A longer period is not worth its test.
    if 65535 < p {
        return None;
    }
    let cells = compiled.frame.cells();
    let d = moves::rise(&since[..cells], &a[..cells]);
    // The highest of all, since no rise is as high as this limit.
    let top = guess::highest_below(&d[..cells], u16::MAX)?;
    let m = guess::highest_below(&d[..cells], top).map_or(0, guess::margin);
    if top <= m {
        return None;
    }
    let upper = moves::clip(&d[..cells], top, m);
    let lower = moves::clip(&d[..cells], top, 0);
    let j = guess::most(
        &a[..cells],
        &lower[..cells],
        compiled.frame.network.horizon,
        p,
        left,
    );
    // Fewer moves are not worth their test.
    if j < 8 {
        return None;
    }
    let guess = Guess {
        compiled,
        t: a,
        d: &upper,
        j,
        p,
    };
    passes_after(&guess, &lower, left)
}
