// One scenario of a strategy, by what is known in it when: points 1 and 3.
ghost use Rattle.std.specs.Prelude.{◌≡◌, ◌<◌};
ghost use Rattle.prelude.specs.Options.{option_of};
ghost use Rattle.network.specs.Build.{scenarios};
ghost use Rattle.network.specs.Limits as L;
ghost use Rattle.network.specs.Scenario as S;
ghost use Rattle.checker.specs.Plain as P;
ghost use Rattle.checker.specs.Verdict.{is_on_time, is_alike, late_in};

use super::Breach;
use network::times::Strategy;
use network::{Label, Network};

// A time that no event has, one more than 16 bits hold, for a proposition that is not given. A number and no Option:
// one minimum and one comparison serve both cases.
const NEVER: u32 = 65536;

// For each proposition, from when on it is known in the scenario: NEVER where it is not given there.
#[derive(Clone, Copy)]
pub struct Known<'a> {
    pub strategy: Strategy<'a>,
    pub scenario: usize,
    pub from: [u32; Network::SIGNALS],
    pub ghost within: { scenario < scenarios strategy.formed.now.network },
    pub ghost known: { P.KnownIn strategy.formed.now.network strategy.table.now scenario
        strategy.formed.now.network.signals from },
}

impl<'a> Known<'a> {
    // A scenario of a strategy, with what is known in it when.
    pub fn of(strategy: &Strategy<'a>, scenario: usize) -> Self
        requires { scenario < scenarios strategy.now.formed.now.network }
        ensures { (result.strategy ≡ strategy.now) × (result.scenario ≡ scenario) }
    {
        let mut from = [NEVER; Network::SIGNALS];
        for (p, known) in from[..strategy.formed.network.signals]
            .iter_mut()
            .enumerate()
        {
            *known = strategy.known_from(scenario, p).unwrap_or(NEVER);
        }
        Known {
            strategy: *strategy,
            scenario,
            from,
        }
    }

    // Whether a time is not before each proposition of the label is known.
    fn waits(&self, label: Label, time: u16) -> bool
        ensures { result ≡ P.waits self.now.from self.now.strategy.formed.now.network.signals label time }
    {
        (0..self.strategy.formed.network.signals).all(|p| !network::mentions(label, p)
            || self.from[p] <= u32::from(time))
    }

    // Point 1 in the cell of event u. Most labels have no letter: then nothing but the limits is asked.
    fn in_place(&self, u: usize) -> bool
        requires { u < self.now.strategy.formed.now.network.events }
        ensures { result ≡ is_on_time self.now.strategy.formed.now.network self.now.strategy.table.now
            self.now.scenario u }
    {
        let network = &self.strategy.formed.network;
        let label = network.labels[u];
        let time = self.strategy.time(self.scenario, u);
        let limits = on_time(network.horizon, u, time);
        if label == Label::DASH {
            return limits;
        }
        if !self.strategy.formed.happens(self.scenario, u) {
            return time == Network::BLANK;
        }
        limits && self.waits(label, time)
    }

    // The first event whose cell breaks point 1.
    pub fn first_late(&self) -> Option<Breach>
        ensures { result ≡ option_of (late_in self.now.strategy.formed.now.network self.now.strategy.table.now
            self.now.scenario) }
    {
        let event = (0..self.strategy.formed.network.events).find(|&u| !self.in_place(u))?;
        Some(Breach::Late {
            scenario: self.scenario as u8,
            event: event as u8,
        })
    }

    // From when on the scenario is told apart from r: the first that is known of the propositions on which they differ.
    // A `for`: a chain would need a filter, a map, a minimum, and NEVER once more for none.
    pub fn told_from(&self, r: usize) -> u32
        requires { r < scenarios self.now.strategy.formed.now.network }
        ensures { result ≡ P.told_from self.now.from self.now.strategy.formed.now.network.signals
            self.now.scenario r }
    {
        let mut first = NEVER;
        for p in 0..self.strategy.formed.network.signals {
            if !agree(self.scenario, r, p) {
                first = first.min(self.from[p]);
            }
        }
        first
    }

    // Point 3 for event u and r, from which the scenario is told apart from `told` on. Before that it has one time in
    // both, if it happens in both; where it has one time, that is not asked.
    pub fn alike(&self, r: usize, told: u32, u: usize) -> bool
        requires { (r < scenarios self.now.strategy.formed.now.network)
            × (told ≡ P.told_from self.now.from self.now.strategy.formed.now.network.signals self.now.scenario r)
            × (u < self.now.strategy.formed.now.network.events) }
        ensures { result ≡ is_alike self.now.strategy.formed.now.network self.now.strategy.table.now
            self.now.scenario r u }
    {
        let mine = self.strategy.time(self.scenario, u);
        let theirs = self.strategy.time(r, u);
        // There are two returns, and no `||` of four tests: behind that, where the ways have met, the proof knows the
        // outcome of none.
        if told <= u32::from(mine) {
            return true;
        }
        if mine == theirs {
            return true;
        }
        let formed = self.strategy.formed;
        !formed.happens(self.scenario, u) || !formed.happens(r, u)
    }
}

// The limits of an event that happens. The origin's own limit is 0.
fn on_time(horizon: u16, u: usize, time: u16) -> bool
    ensures { result ≡ P.on_time_lem horizon u time }
{
    if u == 0 {
        return time == 0;
    }
    time <= horizon
}

// Whether s and r give p the same truth.
fn agree(s: usize, r: usize, p: usize) -> bool
    requires { p < L.signals }
    ensures { result ≡ S.agree s r p }
{
    network::has(s, p) == network::has(r, p)
}
