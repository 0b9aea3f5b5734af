// What rounds take of a network besides its constraints.
ghost use Rattle.std.specs.Prelude.{◌≡◌, false, ℕ, ◌≤◌, ◌<◌, get_or};
ghost use Rattle.std.proofs.Props.{props};
ghost use Rattle.network.specs.Limits as L;
ghost use Rattle.network.specs.Build.{no_label, event_label};
ghost use Rattle.network.specs.Build as Build;
ghost use Rattle.network.specs.Once.{InLimits-prop};
ghost use Rattle.network.specs.Strategy.{reaction};
ghost use Rattle.network.specs.WellFormed.{WellFormed};

use crate::{Row, Table};
use network::formed::Formed;
use network::{Label, Network, times};

// A network, and what rounds would else work out again and again: how many scenarios it has; its reactions, which here
// are at least 1, also where the sheet has no line; and whether an event has a label: where none has, no label is
// looked at, for speed. The network and what is known of it stand here without a Formed around them, so that clauses
// name the frame's network.
#[derive(Clone, Copy)]
pub struct Frame {
    pub network: Network,
    pub scenarios: usize,
    pub reactions: [u16; Network::SIGNALS],
    pub labelled: bool,
    pub ghost formed: { WellFormed network } by { Prim.hlevel (props, InLimits-prop) },
    pub ghost scenarios_are: { scenarios ≡ Build.scenarios network },
    pub ghost reactions_are: { (p : ℕ) → p < L.signals → get_or reactions p 0 ≡ reaction network p },
    pub ghost unlabelled: { labelled ≡ false → (u : ℕ) → event_label network u ≡ no_label },
}

// Whether an event has a label other than `-`.
fn is_labelled(labels: &[Label; Network::EVENTS]) -> bool
    ensures { result ≡ false → (u : ℕ) → get_or labels.now u no_label ≡ no_label }
{
    labels.iter().any(|label| *label != Label::DASH)
}

impl Frame {
    ghost use Rattle.std.specs.Prelude.{cond, ◌++◌, ◌+◌, ◌*◌, length, drop};
    ghost use Rattle.network.specs.Build.{cells};
    ghost use Rattle.network.specs.Happens.{happens};
    ghost use Rattle.rows.specs.Rows.{Sixteen, Wrote, handed};

    // The frame of a network.
    pub fn of(formed: &Formed) -> Self
        ensures { result.network ≡ formed.now.network }
    {
        let network = formed.network;
        Frame {
            network,
            scenarios: formed.scenario_count(),
            reactions: network.reactions.map(times::reaction_of),
            labelled: is_labelled(&network.labels),
        }
    }

    // How many cells the rows of its table have, with those behind the events: a table without gaps has
    // `Formed::cell_count`.
    pub fn cells(&self) -> usize
        ensures { (result ≡ self.now.scenarios * L.events) × (result ≤ L.cells) }
    {
        self.scenarios * Network::EVENTS
    }

    // Whether event u happens in scenario s.
    pub fn happens(&self, s: usize, u: usize) -> bool
        requires { (s < L.cases) × (u < L.events) }
        ensures { result ≡ happens self.now.network s u }
    {
        !self.labelled || network::satisfies(s, self.network.labels[u])
    }

    // Zero in each cell of the row whose event does not happen in s: what raised it is of no matter.
    pub fn clear_absent(&self, s: usize, o: &mut Row)
        requires { s < L.cases }
        ensures { Sixteen o.new (λ u. cond (happens self.now.network s u) (get_or o.old u 0) 0) }
    {
        if !self.labelled {
            return;
        }
        for (u, cell) in o.iter_mut().enumerate() {
            *cell = if self.happens(s, u) { *cell } else { 0 };
        }
    }

    // The times of scenario s, with a blank for each event that does not happen in it.
    fn copy_row(&self, t: &Table, s: usize, row: &mut [u16])
        requires { (s < L.cases) × (length row.old ≤ L.events) }
        ensures { Wrote row.old row.new 0 (length row.old)
            (λ u. cond (happens self.now.network s u) (get_or t.now (s * L.events + u) 0) L.blank) }
    {
        for (u, cell) in row.iter_mut().enumerate() {
            *cell = if self.happens(s, u) {
                t[s * Network::EVENTS + u]
            } else {
                Network::BLANK
            };
        }
    }

    // The times of all events in all scenarios, without gaps and with blanks.
    pub fn copy_out(&self, t: &Table, out: &mut [u16])
        requires { cells self.now.network ≤ length out.old }
        ensures { out.new ≡ handed self.now.network t.now ++ drop (cells self.now.network) out.old }
    {
        let events = self.network.events;
        // Rows go by number: behind the last one `out` may go on, and what chunks_exact_mut lends stands in an
        // iterator, out of which the proof would have to put it back.
        for s in 0..self.scenarios {
            let start = s * events;
            self.copy_row(t, s, &mut out[start..start + events]);
        }
    }
}
