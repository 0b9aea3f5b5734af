// The search for the first breach: points 1 to 3 in their order, asked of a strategy.
ghost use Rattle.std.specs.Prelude.{◌≡◌, ◌<◌};
ghost use Rattle.prelude.specs.Options.{option_of};
ghost use Rattle.network.specs.Build.{constraint, scenarios};
ghost use Rattle.network.specs.Constraint as C;
ghost use Rattle.checker.specs.Verdict.{does_hold, broken_in, first_late_lem, first_broken_lem, first_unheard_lem};
ghost use Rattle.checker.specs.Verdict.{first_breach};

use super::Breach;
use super::known::Known;
use network::Kind;
use network::times::Strategy;

// Point 2 for constraint c in scenario s.
fn keeps(strategy: &Strategy, s: usize, c: usize) -> bool
    requires { (s < scenarios strategy.now.formed.now.network) × (c < strategy.now.formed.now.network.rules) }
    ensures { result ≡ does_hold strategy.now.formed.now.network strategy.now.table.now s
        (constraint strategy.now.formed.now.network c) }
{
    let network = &strategy.formed.network;
    let constraint = network.constraints[c];
    let own = constraint.label;
    let from = network.labels[constraint.from];
    let to = network.labels[constraint.to];
    if !network::satisfies(s, network::joint(own, from, to)) {
        return true;
    }
    let a = strategy.time(s, constraint.from);
    let b = strategy.time(s, constraint.to);
    admits(constraint.kind, a, b, constraint.bound)
}

// The first constraint that breaks point 2 in scenario s.
fn first_broken_in(strategy: &Strategy, s: usize) -> Option<Breach>
    requires { s < scenarios strategy.now.formed.now.network }
    ensures { result ≡ option_of (broken_in strategy.now.formed.now.network strategy.now.table.now s) }
{
    let c = (0..strategy.formed.network.rules).find(|&c| !keeps(strategy, s, c))?;
    Some(Breach::Rule {
        scenario: s as u8,
        constraint: c as u8,
    })
}

// The first cell that breaks point 1. No `find_map` here and below: the proof learns nothing of what its closure,
// a method's call that returns an Option, answers.
fn first_late(strategy: &Strategy) -> Option<Breach>
    ensures { result ≡ option_of (first_late_lem strategy.now.formed.now.network strategy.now.table.now) }
{
    for s in 0..strategy.formed.scenario_count() {
        if let Some(breach) = Known::of(strategy, s).first_late() {
            return Some(breach);
        }
    }
    None
}

// The first scenario and constraint that break point 2.
fn first_broken(strategy: &Strategy) -> Option<Breach>
    ensures { result ≡ option_of (first_broken_lem strategy.now.formed.now.network strategy.now.table.now) }
{
    for s in 0..strategy.formed.scenario_count() {
        if let Some(breach) = first_broken_in(strategy, s) {
            return Some(breach);
        }
    }
    None
}

// The first two scenarios and event that break point 3. Labelled loops, left from inside with the breach found, since
// this search was asked for in this form.
fn first_unheard(strategy: &Strategy) -> Option<Breach>
    ensures { result ≡ option_of (first_unheard_lem strategy.now.formed.now.network strategy.now.table.now) }
{
    let mut found = None;
    'unheard: for s in 0..strategy.formed.scenario_count() {
        let known = Known::of(strategy, s);
        for r in 0..strategy.formed.scenario_count() {
            let told = known.told_from(r);
            for u in 0..strategy.formed.network.events {
                if !known.alike(r, told, u) {
                    found = Some(Breach::Unheard {
                        scenario: s as u8,
                        other: r as u8,
                        event: u as u8,
                    });
                    break 'unheard;
                }
            }
        }
    }
    found
}

// The first breach: the points are tried in their order. There are two returns and no `or_else`, since of what
// its closure answers the proof learns nothing.
pub fn first_breach(strategy: &Strategy) -> Option<Breach>
    ensures { result ≡ option_of (first_breach strategy.now.formed.now.network strategy.now.table.now) }
{
    if let Some(late) = first_late(strategy) {
        return Some(late);
    }
    if let Some(broken) = first_broken(strategy) {
        return Some(broken);
    }
    first_unheard(strategy)
}

// Whether the time a of `from` and the time b of `to` keep the kind and its limit.
fn admits(kind: Kind, a: u16, b: u16, bound: i32) -> bool
    ensures { result ≡ C.admits kind a b bound }
{
    let difference = i32::from(b) - i32::from(a);
    match kind {
        Kind::Max => difference <= bound,
        Kind::Min => bound <= difference,
    }
}
