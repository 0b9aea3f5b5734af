// The conditional simple temporal network (CSTN) that a sheet describes, and its limits. Document 01's signals are
// its propositions, their events its observation events, and the rules its constraints.
#![tactic(auto)]

ghost use Rattle.std.specs.Prelude.{◌≡◌, ◌+◌, ◌≤◌, ◌<◌, length, get_or};
ghost use Rattle.network.specs.Limits as L;
ghost use Rattle.network.specs.Scenario as S;
ghost use Rattle.network.specs.Happens as E;
ghost use Rattle.network.specs.Build.{empty, name_of_lem};
ghost use Rattle.network.specs.WellFormed.{InLimits, FewLetters};
ghost use Rattle.network.specs.Biased as B;
ghost use Rattle.network.specs.Joint.{join, joint_of};

pub mod accepted;
pub mod formed;
pub mod times;

// What a rule says of the difference between its two times.
#[derive(Clone, Copy, PartialEq, Eq)]
pub enum Kind {
    // At most the limit.
    Max,
    // At least the limit.
    Min,
}

// A label: the sum of the weights of its true letters, and that of its false ones.
#[derive(Clone, Copy, PartialEq, Eq)]
pub struct Label {
    pub positive: u8,
    pub negative: u8,
}

impl Label {
    // The label `-`, which asks for nothing.
    pub const DASH: Self = Self {
        positive: 0,
        negative: 0,
    };

    // The letters of both labels.
    fn join(self, other: Self) -> Self
        ensures { result ≡ join self other }
    {
        Self {
            positive: self.positive | other.positive,
            negative: self.negative | other.negative,
        }
    }
}

// A labelled constraint.
#[derive(Clone, Copy, PartialEq, Eq)]
pub struct Constraint {
    pub kind: Kind,
    pub from: usize,
    pub to: usize,
    pub bound: i32,
    pub label: Label,
}

impl Constraint {
    // What stands where no constraint does.
    pub const NONE: Self = Self {
        kind: Kind::Max,
        from: 0,
        to: 0,
        bound: 0,
        label: Label::DASH,
    };
}

// Event u is named by the part of the sheet from starts[u] on, of lengths[u] bytes; event 0 is the origin.
// Proposition p has the letter letters[p], the observation event observations[p] and in reactions[p] the reaction that
// its line states, or 0 where it has none. Event u happens where labels[u] holds, and labelled[u] says whether it has a
// line. Behind the counts the arrays hold what the empty network has.
// The arrays stand side by side, and hold no structs: a line of the sheet fills one place of one or two of them, and a
// search goes through one as a slice. No reaction is 0, the papers' own number for it, which one `max` makes 1. A label
// without its line is the dash and no None: only the reader of the sheet tells the two apart, and all else would have
// to open an Option for the dash.
#[derive(Clone, Copy)]
pub struct Network {
    pub horizon: u16,
    pub events: usize,
    pub starts: [usize; Network::EVENTS],
    pub lengths: [usize; Network::EVENTS],
    pub signals: usize,
    pub letters: [u8; Network::SIGNALS],
    pub observations: [usize; Network::SIGNALS],
    pub reactions: [u16; Network::SIGNALS],
    pub rules: usize,
    pub constraints: [Constraint; Network::RULES],
    pub labels: [Label; Network::EVENTS],
    pub labelled: [bool; Network::EVENTS],
}

impl Network {
    // The limits of document 01: the latest minute, and the most events, signals and rules.
    pub const HORIZON: u16 = 10080;

    pub const EVENTS: usize = 16;

    pub const SIGNALS: usize = 4;

    pub const RULES: usize = 64;

    // As many bounds between two times as the rules and the waits for signals set at most.
    pub const LISTED: usize = Self::RULES + Self::EVENTS * Self::SIGNALS;

    // How many minutes after its event a signal is known, at least and at most.
    pub const FASTEST: u16 = 1;

    pub const SLOWEST: u16 = 60;

    // What a cell of a table holds whose event does not happen in its case. A number and no Option: tables are lent by
    // C and by callers as minutes of 16 bits (include/opening.h).
    pub const BLANK: u16 = 65535;

    // As many cases as the signals make, and as many cells as a table then has.
    pub const CASES: usize = 1 << Self::SIGNALS;

    pub const CELLS: usize = Self::EVENTS * Self::CASES;

    // A horizon, and nothing else yet.
    pub fn empty(horizon: u16) -> Self
        ensures { result ≡ empty horizon }
    {
        Network {
            horizon,
            events: 0,
            starts: [0; Self::EVENTS],
            lengths: [0; Self::EVENTS],
            signals: 0,
            letters: [0; Self::SIGNALS],
            observations: [0; Self::SIGNALS],
            reactions: [0; Self::SIGNALS],
            rules: 0,
            constraints: [Constraint::NONE; Self::RULES],
            labels: [Label::DASH; Self::EVENTS],
            labelled: [false; Self::EVENTS],
        }
    }

    // The name of event u, as a part of its sheet.
    pub fn name_in<'a>(&self, sheet: &'a [u8], u: usize) -> &'a [u8]
        requires { (u < L.events)
            × (get_or self.now.starts u 0 + get_or self.now.lengths u 0 ≤ length sheet.now) }
        ensures { result.now ≡ name_of_lem self.now sheet.now u }
    {
        let start = self.starts[u];
        let end = start + self.lengths[u];
        &sheet[start..end]
    }
}

// Whether n has the bit p: in a scenario's number, whether proposition p is true there; in a sum of a label, whether
// its letter stands there.
pub fn has(n: usize, p: usize) -> bool
    requires { p < L.signals }
    ensures { result ≡ S.truth n p }
{
    (n >> p) & 1 == 1
}

// Whether s satisfies the label: all of its true letters, and none of its false ones. (That a label's sums are below 16
// is asked, and is no fact of `Label`: the model's definitions name its two sums alone.)
pub fn satisfies(s: usize, label: Label) -> bool
    requires { (s < L.cases) × FewLetters label }
    ensures { result ≡ S.satisfies s label }
{
    let positive = usize::from(label.positive);
    let negative = usize::from(label.negative);
    s & positive == positive && s & negative == 0
}

// Whether the letter of p stands in the label, with either sign.
pub fn mentions(label: Label, p: usize) -> bool
    requires { p < L.signals }
    ensures { result ≡ E.mentions label p }
{
    has(usize::from(label.positive), p) || has(usize::from(label.negative), p)
}

// The label under which a constraint counts: its own and those of its two events.
pub fn joint(own: Label, from: Label, to: Label) -> Label
    ensures { result ≡ joint_of own from to }
{
    own.join(from.join(to))
}

// The limit plus 10,080: from 0 to 20,160, which fits 16 bits. (`From` doesn't narrow.) That a limit is in its
// range is asked, here and above: an i32 is what document 01 has, and what the scope names.
pub fn biased(bound: i32) -> u16
    requires { InLimits bound }
    ensures { result ≡ B.biased bound }
{
    (bound + i32::from(Network::HORIZON)) as u16
}

// The limit that, so biased, is v.
pub fn unbiased(v: u16) -> i32
    ensures { result ≡ B.unbiased v }
{
    i32::from(v) - i32::from(Network::HORIZON)
}
