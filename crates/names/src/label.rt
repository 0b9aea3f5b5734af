// Labels as sums of weights. A label is given by its literals: no byte for a dash.
ghost use Rattle.std.specs.Prelude.{◌≡◌, true, false, ◌<◌, ◌^◌};
ghost use Rattle.prelude.specs.Bytes.{distinct};
ghost use Rattle.network.specs.Limits as L;
ghost use Rattle.names.specs.Names.{literals, letters_of};
ghost use Rattle.names.specs.Defined.{all_defined_lem, weight, weights, mask_of};
ghost use Rattle.names.specs.Scan.{is_met_lem, added_by_lem};

use crate::lookup::Defined;
use network::Label;

// Whether a byte of a label is a bang, or a letter that is defined.
fn is_met(b: u8, defined: &Defined) -> bool
    ensures { result ≡ is_met_lem defined.now.network.now.signals defined.now.network.now.letters b }
{
    b == b'!' || defined.place_of(b).is_some()
}

// Whether each letter is defined.
pub fn all_defined(t: &[u8], defined: &Defined) -> bool
    ensures { result ≡ all_defined_lem defined.now.network.now.signals defined.now.network.now.letters
        (letters_of (literals false t.now)) }
{
    t.iter().all(|&b| is_met(b, defined))
}

// Whether no letter stands twice.
pub fn is_distinct(t: &[u8]) -> bool
    ensures { result ≡ distinct (letters_of (literals false t.now)) }
{
    t.iter()
        .enumerate()
        .all(|(i, b)| *b == b'!' || !t[i + 1..].contains(b))
}

// The weight of signal p.
fn power(p: usize) -> u8
    requires { p < L.signals }
    ensures { result ≡ 2 ^ p }
{
    1 << p
}

// The weight of a letter, or 0 where it is not defined, as in the definition: who sums weights has seen that all are.
fn weight_of(defined: &Defined, letter: u8) -> u8
    ensures { result ≡ weight defined.now.network.now.signals defined.now.network.now.letters letter }
{
    defined.place_of(letter).map_or(0, power)
}

// What one byte of a label adds to the sum of the letters with this truth.
fn added_by(defined: &Defined, truth: bool, bang: bool, b: u8) -> u8
    ensures { result ≡ added_by_lem defined.now.network.now.signals defined.now.network.now.letters truth bang b }
{
    if b == b'!' || truth == bang {
        return 0;
    }
    weight_of(defined, b)
}

// The sum of the weights of the letters with this truth. (A walk as `token::are_literals` is one: each asks something
// else of a byte.)
fn weights_of(t: &[u8], defined: &Defined, truth: bool) -> u8
    requires { weights defined.now.network.now.signals defined.now.network.now.letters truth (literals false t.now)
        < 2 ^ defined.now.network.now.signals }
    ensures { result ≡ weights defined.now.network.now.signals defined.now.network.now.letters truth
        (literals false t.now) }
{
    let mut sum: u8 = 0;
    let mut bang = false;
    for &b in t {
        sum += added_by(defined, truth, bang, b);
        bang = b == b'!';
    }
    sum
}

// A label whose letters are defined and distinct.
pub fn mask_of(t: &[u8], defined: &Defined) -> Label
    requires { (all_defined_lem defined.now.network.now.signals defined.now.network.now.letters
        (letters_of (literals false t.now)) ≡ true) × (distinct (letters_of (literals false t.now)) ≡ true) }
    ensures { result ≡ mask_of defined.now.network.now.signals defined.now.network.now.letters (literals false
        t.now) }
{
    Label {
        positive: weights_of(t, defined, true),
        negative: weights_of(t, defined, false),
    }
}
