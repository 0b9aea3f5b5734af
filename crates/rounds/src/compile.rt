// The constraints of a network, and the waits of its events' labels, compiled into lists of difference bounds: one
// bound for each constraint and each wait, in the scenarios in which it counts.
ghost use Rattle.std.specs.Prelude.{◌≡◌, ℕ};
ghost use Rattle.network.specs.Limits as L;
ghost use Rattle.network.specs.Joint.{joint_of};
ghost use Rattle.network.specs.WellFormed.{InLimits};
ghost use Rattle.bounds.specs.Listed.{case};
ghost use Rattle.rounds.specs.Compiled.{under, wait_by, AskingAmong, constraints_ask, CompilesAmong};

use bounds::bound::Bound;
use bounds::lists::{self, Lists};
use network::{Constraint, Kind, Label};
use rows::frame::Frame;

// A constraint under the label that joins its own and those of its two events.
fn joined(c: &Constraint, from: Label, to: Label) -> Constraint
    requires { InLimits c.now.bound }
    ensures { result ≡ under (joint_of c.now.label from to) c.now }
{
    Constraint {
        label: network::joint(c.label, from, to),
        ..*c
    }
}

// All constraints, each under the label that joins its own and those of its events, into lists that hold nothing yet.
pub fn list_constraints(lists: &mut Lists, frame: &Frame)
    requires { (s : ℕ) → (case lists.old s).count ≡ 0 }
    ensures { AskingAmong frame.now.network lists.new L.rules
        (constraints_ask frame.now.network frame.now.network.rules) }
{
    let network = &frame.network;
    for c in &network.constraints[..network.rules] {
        let joint = joined(c, network.labels[c.from], network.labels[c.to]);
        lists::add(lists, frame, Bound::by_kind(&joint), joint.label);
    }
}

// That event w comes no sooner than so many minutes after an observation, where the label holds.
fn wait_of(observation: usize, w: usize, reaction: u16, label: Label) -> Constraint
    ensures { result ≡ wait_by observation w reaction label }
{
    Constraint {
        kind: Kind::Min,
        from: observation,
        to: w,
        bound: i32::from(reaction),
        label,
    }
}

// The waits of all events, behind all constraints: one bound for each signal in a label.
pub fn list_waits(lists: &mut Lists, frame: &Frame)
    requires { AskingAmong frame.now.network lists.old L.rules
        (constraints_ask frame.now.network frame.now.network.rules) }
    ensures { CompilesAmong frame.now.network lists.new }
{
    // Where no event has a label none waits.
    if !frame.labelled {
        return;
    }
    let network = &frame.network;
    for (w, &label) in network.labels[..network.events].iter().enumerate() {
        // Signals go by number: it is asked of the label, and an event and a reaction are two arrays.
        for p in 0..network.signals {
            if network::mentions(label, p) {
                let wait = wait_of(network.observations[p], w, frame.reactions[p], label);
                lists::add(lists, frame, Bound::by_kind(&wait), label);
            }
        }
    }
}
