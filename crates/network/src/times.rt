// What a table, which is a strategy, tells: the time of an event, and from when on a proposition is known.
ghost use Rattle.std.specs.Prelude.{◌≡◌, ◌+◌, ◌*◌, ◌<◌, length};
ghost use Rattle.network.specs.Build.{scenarios, cells};
ghost use Rattle.network.specs.Strategy.{time, known_after_lem, given_from, reaction_of_lem};

use super::Network;
use super::formed::Formed;

// The time of event u in scenario s, in a table for so many events.
pub fn time_of(table: &[u16], events: usize, s: usize, u: usize) -> u16
    requires { s * events + u < length table.now }
    ensures { result ≡ time events table.now s u }
{
    table[s * events + u]
}

// The reaction of a proposition, by what its line states: 0, where it has none, counts as 1.
#[tactic(auto, unfolding(crate::specs::Strategy::reaction_of_lem))]
pub fn reaction_of(stated: u16) -> u16
    ensures { result ≡ reaction_of_lem stated }
{
    stated.max(Network::FASTEST)
}

// From when on a proposition is known in s, by its observation event and the reaction that its line states.
pub fn known_after(table: &[u16], events: usize, s: usize, observation: usize, stated: u16) -> u32
    requires { s * events + observation < length table.now }
    ensures { result ≡ known_after_lem events table.now s observation (reaction_of_lem stated) }
{
    u32::from(time_of(table, events, s, observation)) + u32::from(reaction_of(stated))
}

// A network, and a table of its size.
#[derive(Clone, Copy)]
pub struct Strategy<'a> {
    pub formed: &'a Formed,
    pub table: &'a [u16],
    pub ghost sized: { length table.now ≡ cells formed.now.network },
}

impl Strategy<'_> {
    // The time of event u in scenario s.
    pub fn time(&self, s: usize, u: usize) -> u16
        requires { (s < scenarios self.now.formed.now.network) × (u < self.now.formed.now.network.events) }
        ensures { result ≡ time self.now.formed.now.network.events self.now.table.now s u }
    {
        time_of(self.table, self.formed.network.events, s, u)
    }

    // From when on proposition p is known in scenario s, if it is given there.
    pub fn known_from(&self, s: usize, p: usize) -> Option<u32>
        requires { (s < scenarios self.now.formed.now.network) × (p < self.now.formed.now.network.signals) }
        ensures { result ≡ given_from self.now.formed.now.network self.now.table.now s p }
    {
        let network = &self.formed.network;
        let observation = network.observations[p];
        if !self.formed.happens(s, observation) {
            return None;
        }
        let stated = network.reactions[p];
        Some(known_after(self.table, network.events, s, observation, stated))
    }
}
