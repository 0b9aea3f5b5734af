// What is due at a minute, by what has been heard before it (document 02, points 1, 3 and 6). The records that are lent
// are walked once, into a mask; all the rest works on the mask.
#![tactic(auto)]

ghost use Rattle.std.specs.Prelude.{◌≡◌, true, ◌<◌};
ghost use Rattle.prelude.specs.Options.{option_of};
ghost use Rattle.network.specs.Build.{scenarios};
ghost use Rattle.network.specs.Scenario as S;
ghost use Rattle.names.specs.Names.{is_letter_lem};
ghost use Rattle.dispatch.specs.Heard.{Lettered};
ghost use Rattle.dispatch.specs.History as H;
ghost use Rattle.dispatch.specs.Due as D;
ghost use Rattle.dispatch.specs.Said as M;

use names::token;
use network::times::Strategy;

pub mod heard_text;

// A signal that has been heard: its letter and its truth.
#[derive(Clone, Copy, PartialEq, Eq)]
pub struct Heard {
    pub letter: u8,
    pub truth: bool,
}

// Why nothing is due, not even no event.
#[derive(Clone, Copy, PartialEq, Eq)]
pub enum Unanswered {
    // A letter is undefined or stands twice.
    Misnamed,
    // No case has heard exactly this.
    NeverHeard,
}

// What is said to have been heard, as a mask: a letter has one bit for true and another for false.
#[derive(Clone, Copy, PartialEq, Eq)]
pub struct Said {
    pub mask: u64,
}

// A strategy at a minute.
#[derive(Clone, Copy)]
struct Moment<'a> {
    strategy: Strategy<'a>,
    minute: u16,
    ghost lettered: { Lettered strategy.formed.now.network },
}

// Whether the mask has the bit. A function beside network's: a mask of the C interface has 64 bits, which a usize need
// not have.
fn has(mask: u64, bit: u32) -> bool
    requires { bit < 64 }
    ensures { result ≡ S.truth mask bit }
{
    (mask >> bit) & 1 == 1
}

// The bit of a letter with a truth. That the byte is a letter is asked by four functions: a type for it would be made
// anew of each record and of each signal.
fn bit_of(letter: u8, truth: bool) -> u32
    requires { is_letter_lem letter ≡ true }
    ensures { result ≡ M.bit_of letter truth }
{
    let place = u32::from(letter - b'a');
    if truth { place } else { place + 32 }
}

impl Said {
    // That nothing has been heard.
    pub const NOTHING: Said = Said { mask: 0 };

    // The bit of a list that holds a byte that is no letter, or a letter twice. A bit and no Option: one mask is what
    // the calls take and what is compared, and a flag beside it would be one more value of each proof.
    const MISNAMED: u32 = 63;

    // One bit more.
    fn with(self, bit: u32) -> Said
        requires { bit < 64 }
        ensures { result.mask ≡ M.with_bit self.mask bit }
    {
        Said {
            mask: self.mask | (1 << bit),
        }
    }

    // Whether the letter is said to have this truth.
    fn says(self, letter: u8, truth: bool) -> bool
        requires { is_letter_lem letter ≡ true }
        ensures { result ≡ M.said_on self.mask letter truth }
    {
        has(self.mask, bit_of(letter, truth))
    }

    // Whether the letter stands in the mask, with either truth.
    fn stands(self, letter: u8) -> bool
        requires { is_letter_lem letter ≡ true }
        ensures { result ≡ M.stands_on self.mask letter }
    {
        self.says(letter, true) || self.says(letter, false)
    }

    // Whether what is said of a letter is its truth where that is known, and nothing where it is not.
    fn tells(self, letter: u8, truth: Option<bool>) -> bool
        requires { is_letter_lem letter ≡ true }
        ensures { result ≡ M.tells self.mask letter truth }
    {
        match truth {
            None => !self.stands(letter),
            Some(v) => self.says(letter, v) && !self.says(letter, !v),
        }
    }

    // One record more, behind those that the mask has.
    pub fn add(self, heard: Heard) -> Said
        ensures { result.mask ≡ M.with_heard self.mask heard }
    {
        let letter = heard.letter;
        if !token::is_letter(letter) || self.stands(letter) {
            return self.with(Self::MISNAMED);
        }
        self.with(bit_of(letter, heard.truth))
    }

    // All records, in any order.
    pub fn of(heard: &[Heard]) -> Said
        ensures { result.mask ≡ M.said_from 0 heard.now }
    {
        heard
            .iter()
            .fold(Said::NOTHING, |said, record| said.add(*record))
    }
}

impl Moment<'_> {
    // Whether the mask is that of the records it names: one of each signal whose letter stands. A `for`: a chain
    // would have three closures.
    fn is_well_named(&self, said: Said) -> bool
        ensures { result ≡ M.well_named_on self.now.strategy.formed.now.network said.mask }
    {
        let network = &self.strategy.formed.network;
        let mut named = Said::NOTHING;
        for &letter in &network.letters[..network.signals] {
            if said.stands(letter) {
                let truth = said.says(letter, true);
                named = named.add(Heard { letter, truth });
            }
        }
        named == said
    }

    // The truth of the signal p in s, where it is known there at the minute: never where its event does not happen.
    fn known_truth(&self, s: usize, p: usize) -> Option<bool>
        requires { let network = self.now.strategy.formed.now.network in
            (s < scenarios network) × (p < network.signals) }
        ensures { result ≡ H.known_truth self.now.strategy.formed.now.network self.now.strategy.table.now
            self.now.minute s p }
    {
        let known_from = self.strategy.known_from(s, p)?;
        (known_from <= u32::from(self.minute)).then_some(network::has(s, p))
    }

    // Whether what is said of the signal p is what has been heard of it in s before the minute.
    fn has_heard_of(&self, said: Said, s: usize, p: usize) -> bool
        requires { let network = self.now.strategy.formed.now.network in
            (s < scenarios network) × (p < network.signals) }
        ensures { result ≡ D.as_heard self.now.strategy.formed.now.network self.now.strategy.table.now
            self.now.minute (M.said_on said.mask) s p }
    {
        said.tells(
            self.strategy.formed.network.letters[p],
            self.known_truth(s, p),
        )
    }

    // Whether exactly what is said has been heard in s before the minute.
    fn has_heard(&self, said: Said, s: usize) -> bool
        requires { s < scenarios self.now.strategy.formed.now.network }
        ensures { result ≡ D.has_heard_lem self.now.strategy.formed.now.network self.now.strategy.table.now
            self.now.minute (M.said_on said.mask) s }
    {
        (0..self.strategy.formed.network.signals).all(|p| self.has_heard_of(said, s, p))
    }

    // The first case in which exactly what is said has been heard.
    fn hearer(&self, said: Said) -> Option<usize>
        ensures { result ≡ option_of (D.hearer self.now.strategy.formed.now.network self.now.strategy.table.now
            self.now.minute (M.said_on said.mask)) }
    {
        (0..self.strategy.formed.scenario_count()).find(|&s| self.has_heard(said, s))
    }

    // Whether event u is due in s: never where it does not happen, whatever its cell holds.
    fn is_due(&self, s: usize, u: usize) -> bool
        requires { let network = self.now.strategy.formed.now.network in
            (s < scenarios network) × (u < network.events) }
        ensures { result ≡ D.is_due_lem self.now.strategy.formed.now.network self.now.strategy.table.now
            self.now.minute s u }
    {
        self.strategy.formed.happens(s, u) && self.strategy.time(s, u) == self.minute
    }

    // The events of s that are due: bit u for event u. A `for` and no fold: that one bit more fits is a fact of the
    // bits so far, which a closure does not have.
    fn due_in(&self, s: usize) -> u16
        requires { s < scenarios self.now.strategy.formed.now.network }
        ensures { result ≡ D.due_in_lem self.now.strategy.formed.now.network self.now.strategy.table.now
            self.now.minute s }
    {
        let mut due: u16 = 0;
        for u in 0..self.strategy.formed.network.events {
            if self.is_due(s, u) {
                due += 1 << u;
            }
        }
        due
    }
}

// What is due at the minute for those who have heard what is said: bit u for event u.
pub fn due(strategy: &Strategy, minute: u16, said: Said) -> Result<u16, Unanswered>
    requires { Lettered strategy.now.formed.now.network }
    ensures { result ≡ M.due_on strategy.now.formed.now.network strategy.now.table.now minute said.mask }
{
    let moment = Moment {
        strategy: *strategy,
        minute,
    };
    if !moment.is_well_named(said) {
        return Err(Unanswered::Misnamed);
    }
    let s = moment.hearer(said).ok_or(Unanswered::NeverHeard)?;
    Ok(moment.due_in(s))
}
