// The checker: which of document 01's three points a strategy breaks first.
#![tactic(auto)]

ghost use Rattle.std.specs.Prelude.{◌≡◌};
ghost use Rattle.checker.specs.Verdict.{verdict};

use network::times::Strategy;
use std::fmt;
use text::digits::Spelled;

mod known;
mod search;

// Point 1: over the horizon, or an origin that is not at 0, or sooner than the signals of the event's label allow; or
// a time where the event does not happen, or none where it does. Point 2: a constraint that covers the scenario and
// does not hold in it. Point 3: an event that two scenarios have at two times, before anything that differs is known.
// Scenarios, events and constraints are fewer than 256.
#[derive(Clone, Copy, PartialEq, Eq)]
pub enum Breach {
    Late { scenario: u8, event: u8 },
    Rule { scenario: u8, constraint: u8 },
    Unheard { scenario: u8, other: u8, event: u8 },
}

// The judge's answer on a table. Either is an answer and none an error, so it is no Result; and a pass is told and
// printed, so it is no None.
#[derive(Clone, Copy, PartialEq, Eq)]
pub enum Verdict {
    Pass,
    Breach(Breach),
}

// `late C E`, `rule C R` or `unheard S R E`
impl fmt::Display for Breach {
    ghost use Rattle.std.specs.Prelude.{Some};
    ghost use Rattle.checker.specs.Printed.{breach_text};

    ghost output = { λ b. Some (breach_text b) };

    fn fmt<W: fmt::Write>(&self, f: &mut fmt::Formatter<W>) -> fmt::Result {
        match *self {
            Breach::Late { scenario, event } => {
                let (s, u) = (Spelled::from(scenario), Spelled::from(event));
                write!(f, "late {s} {u}")
            }
            Breach::Rule {
                scenario,
                constraint,
            } => {
                let (s, c) = (Spelled::from(scenario), Spelled::from(constraint));
                write!(f, "rule {s} {c}")
            }
            Breach::Unheard {
                scenario,
                other,
                event,
            } => {
                let (s, r) = (Spelled::from(scenario), Spelled::from(other));
                let u = Spelled::from(event);
                write!(f, "unheard {s} {r} {u}")
            }
        }
    }
}

// `pass`, or the breach
impl fmt::Display for Verdict {
    ghost use Rattle.std.specs.Prelude.{Some};
    ghost use Rattle.checker.specs.Printed.{verdict_text};

    ghost output = { λ v. Some (verdict_text v) };

    fn fmt<W: fmt::Write>(&self, f: &mut fmt::Formatter<W>) -> fmt::Result {
        match *self {
            Verdict::Pass => write!(f, "pass"),
            Verdict::Breach(breach) => write!(f, "{breach}"),
        }
    }
}

// The verdict on a table of the network's size.
pub fn check(strategy: &Strategy) -> Verdict
    ensures { result ≡ verdict strategy.now.formed.now.network strategy.now.table.now }
{
    search::first_breach(strategy).map_or(Verdict::Pass, Verdict::Breach)
}
