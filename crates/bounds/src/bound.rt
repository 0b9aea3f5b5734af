// One difference bound.
ghost use Rattle.std.specs.Prelude.{◌≤◌, ◌<◌};
ghost use Rattle.network.specs.Limits as L;
ghost use Rattle.bounds.specs.Weight.{heaviest};

use network::{Constraint, Kind, Network};

// It asks that the time of its target is at least the time of its source and its weight, less 10,080: so no number is
// signed.
#[derive(Clone, Copy)]
pub struct Bound {
    pub target: u8,
    pub source: u8,
    pub weight: u16,
    pub ghost target_in: { target < L.events },
    pub ghost source_in: { source < L.events },
    pub ghost weight_in: { weight ≤ heaviest },
}

impl Bound {
    ghost use Rattle.network.specs.WellFormed.{InLimits};
    ghost use Rattle.bounds.specs.Weight.{weight_of};
    ghost use Rattle.bounds.specs.Listed.{Listable, Is, ByKind};

    // That the source comes at most the limit after the target. The weight is 10,080 less the limit, which never is
    // negative. The casts lose nothing, since an event's number is below 16 and a weight at most 20,160.
    fn of(target: usize, source: usize, limit: i32) -> Self
        requires { (target < L.events) × (source < L.events) × InLimits limit }
        ensures { Is result target source (weight_of limit) }
    {
        Bound {
            target: target as u8,
            source: source as u8,
            weight: (i32::from(Network::HORIZON) - limit) as u16,
        }
    }

    // The bound of a constraint: of a `max`, that `to` comes at most the limit after `from`; of a `min`, at least, that
    // is, that `from` comes at most the limit negated after `to`. (That it can be listed is asked: a type for it would
    // be made anew of each constraint and each wait.)
    pub fn by_kind(c: &Constraint) -> Self
        requires { Listable c.now }
        ensures { ByKind c.now.kind c.now result }
    {
        match c.kind {
            Kind::Max => Self::of(c.from, c.to, c.bound),
            Kind::Min => Self::of(c.to, c.from, -c.bound),
        }
    }
}
