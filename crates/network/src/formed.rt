// A network that keeps the model's limits: what every sheet that is accepted is read into.
ghost use Rattle.std.specs.Prelude.{◌≡◌, ◌<◌};
ghost use Rattle.std.proofs.Props.{props};
ghost use Rattle.network.specs.Build.{scenarios, cells};
ghost use Rattle.network.specs.Happens as E;
ghost use Rattle.network.specs.WellFormed.{WellFormed};
ghost use Rattle.network.specs.Once.{InLimits-prop};

use super::Network;

// A network, and that it keeps the limits.
#[derive(Clone, Copy)]
pub struct Formed {
    pub network: Network,
    pub ghost well_formed: { WellFormed network } by { Prim.hlevel (props, InLimits-prop) },
}

impl Formed {
    // How many scenarios there are.
    pub fn scenario_count(&self) -> usize
        ensures { result ≡ scenarios self.now.network }
    {
        1 << self.network.signals
    }

    // How many cells a table has.
    pub fn cell_count(&self) -> usize
        ensures { result ≡ cells self.now.network }
    {
        self.network.events * self.scenario_count()
    }

    // Whether event u happens in scenario s.
    pub fn happens(&self, s: usize, u: usize) -> bool
        requires { (s < scenarios self.now.network) × (u < self.now.network.events) }
        ensures { result ≡ E.happens self.now.network s u }
    {
        super::satisfies(s, self.network.labels[u])
    }
}
