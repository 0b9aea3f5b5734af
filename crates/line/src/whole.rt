// All labels of a sheet, tested once the last of them is read. Each function says itself what it asks of the network: a
// type that carries it would be opened again for each of four calls.
ghost use Rattle.std.specs.Prelude.{◌≡◌, ◌<◌};
ghost use Rattle.network.specs.Limits as L;
ghost use Rattle.network.specs.WellFormed.{FewLetters};
ghost use Rattle.line.specs.Labelling.{Read, is_part_lem, lacks_none_lem, events_include_lem};
ghost use Rattle.line.specs.Labelling.{rules_include_lem, all_include, are_complete_lem, whole_tests};
ghost use Rattle.line.specs.Answers.{passing};

use network::{Label, Network};
use refusal::Cause;

// Each letter of the sum m stands in the sum n.
fn is_part(m: u8, n: u8) -> bool
    requires { (m < L.cases) × (n < L.cases) }
    ensures { result ≡ is_part_lem m n }
{
    n & m == m
}

// The label, if it uses signal p, has each part of what is needed.
fn lacks_none(p: usize, needed: Label, label: Label) -> bool
    requires { (p < L.signals) × FewLetters needed × FewLetters label }
    ensures { result ≡ lacks_none_lem p needed label }
{
    !network::mentions(label, p)
        || (is_part(needed.positive, label.positive) && is_part(needed.negative, label.negative))
}

// No event's label that uses signal p lacks part of what is needed.
fn events_include(network: &Network, p: usize, needed: Label) -> bool
    requires { Read network.now × (p < L.signals) × FewLetters needed }
    ensures { result ≡ events_include_lem network.now p needed }
{
    network.labels[..network.events]
        .iter()
        .all(|&label| lacks_none(p, needed, label))
}

// No rule's label does.
fn rules_include(network: &Network, p: usize, needed: Label) -> bool
    requires { Read network.now × (p < L.signals) × FewLetters needed }
    ensures { result ≡ rules_include_lem network.now p needed }
{
    network.constraints[..network.rules]
        .iter()
        .all(|rule| lacks_none(p, needed, rule.label))
}

// No label that uses signal p lacks part of the label of the event that gives it.
fn all_include(network: &Network, p: usize) -> bool
    requires { Read network.now × (p < network.now.signals) }
    ensures { result ≡ all_include network.now p }
{
    let needed = network.labels[network.observations[p]];
    events_include(network, p, needed) && rules_include(network, p, needed)
}

// No label lacks part of the label of an event whose signal it uses.
fn are_complete(network: &Network) -> bool
    requires { Read network.now }
    ensures { result ≡ are_complete_lem network.now }
{
    (0..network.signals).all(|p| all_include(network, p))
}

// The tests of all labels.
pub fn whole_of(network: &Network) -> Result<(), Cause>
    requires { Read network.now }
    ensures { result ≡ passing (whole_tests network.now) tt }
{
    if network.labels[0] != Label::DASH {
        return Err(Cause::StartLabelled);
    }
    if !are_complete(network) {
        return Err(Cause::IncompleteLabel);
    }
    Ok(())
}
