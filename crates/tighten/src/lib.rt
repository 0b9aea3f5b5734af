// What remains of a network's rules: each rule as an upper bound, which document 02 calls a row, and of those with
// equal ends and label the tightest, in the order of their keys. An upper bound is searched as one number, its key and
// behind it its limit: the next one is the least number behind the last key.
#![tactic(auto)]

ghost use Rattle.std.specs.Prelude.{◌≡◌, map, ◌<◌};
ghost use Rattle.counted.specs.Values.{values};
ghost use Rattle.network.specs.WellFormed.{InLimits};
ghost use Rattle.tighten.specs.Upper.{upper_of, uppers_of};
ghost use Rattle.tighten.specs.Tightest.{remaining_of};
ghost use Rattle.tighten.specs.Encoding as E;

use counted::Counted;
use network::formed::Formed;
use network::{Constraint, Kind, Label, Network};

// Upper bounds that fit a sheet.
pub type UpperBounds = Counted<Constraint, { Network::RULES }>;

// Upper bounds as numbers.
type Encodings = Counted<u32, { Network::RULES }>;

// How many numbers a key has for its limits: more than there are limits.
const PER_KEY: u32 = 32768;

// Each part of a key is a digit in this base.
const BASE: u32 = 16;

// The upper bound of a constraint as a number.
fn encode(c: &Constraint) -> u32
    requires { E.Encodable c.now.from c.now.to c.now.bound c.now.label }
    ensures { result ≡ E.encoded c.now }
{
    // The casts lose nothing, since the ends are below 16.
    let ends = c.from as u32 * BASE + c.to as u32;
    let key = (ends * BASE + u32::from(c.label.positive)) * BASE + u32::from(c.label.negative);
    key * PER_KEY + u32::from(network::biased(c.bound))
}

// The upper bound that a number stands for. The casts lose nothing, since a digit is below 16, the first part of a key
// below 32, and what is left for the limit below 32,768.
fn decode(number: u32) -> Constraint
    ensures { result ≡ E.decoded number }
{
    let key = number / PER_KEY;
    Constraint {
        kind: Kind::Max,
        from: (key / (BASE * BASE * BASE)) as usize,
        to: (key / (BASE * BASE) % BASE) as usize,
        bound: network::unbiased((number % PER_KEY) as u16),
        label: Label {
            positive: (key / BASE % BASE) as u8,
            negative: (key % BASE) as u8,
        },
    }
}

// The upper bound of a rule: "a `min` swaps its ends and negates its limit".
fn upper_of(rule: &Constraint) -> Constraint
    requires { InLimits rule.now.bound }
    ensures { result ≡ upper_of rule.now }
{
    match rule.kind {
        Kind::Max => *rule,
        Kind::Min => Constraint {
            kind: Kind::Max,
            from: rule.to,
            to: rule.from,
            bound: -rule.bound,
            label: rule.label,
        },
    }
}

// The numbers of the upper bounds of all rules.
fn encode_all(formed: &Formed) -> Encodings
    ensures { values result ≡ map E.encoded (uppers_of formed.now.network) }
{
    let network = &formed.network;
    let mut encodings = Encodings::new([0; Network::RULES]);
    for rule in &network.constraints[..network.rules] {
        encodings.push(encode(&upper_of(rule)));
    }
    encodings
}

// The least of these numbers that is at least the floor.
fn least_from(encodings: &Encodings, floor: u32) -> Option<u32>
    ensures { result ≡ E.least_of (values encodings.now) floor }
{
    encodings
        .as_slice()
        .iter()
        .copied()
        .filter(|v| floor <= *v)
        .min()
}

// The least number behind all those with the key of this one.
fn floor_after(number: u32) -> u32
    requires { number < E.top }
    ensures { result ≡ E.floor_after_lem number }
{
    (number / PER_KEY + 1) * PER_KEY
}

// The upper bounds that remain, one key after the other. They fit a sheet, since they are no more than the rules.
pub fn remaining(formed: &Formed) -> UpperBounds
    ensures { values result ≡ remaining_of formed.now.network }
{
    let encodings = encode_all(formed);
    let mut remaining = UpperBounds::new([Constraint::NONE; Network::RULES]);
    let mut floor = 0;
    while let Some(least) = least_from(&encodings, floor) {
        remaining.push(decode(least));
        floor = floor_after(least);
    }
    remaining
}
