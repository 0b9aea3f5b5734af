// The sections of a sheet: a section's line, and then so many lines.
ghost use Rattle.std.specs.Prelude.{◌≡◌, true, ◌≤◌, IfOk, MatchResult, Ok, Err, length, drop};
ghost use Rattle.line.specs.Sections.{added};
ghost use Rattle.line.specs.Answers.{passing};
ghost use Rattle.line.specs.declared.Section.TheVariants.{Events};
ghost use Rattle.sheet.specs.Reading.{longest, on_line, read_horizon_lem};
ghost use Rattle.sheet.specs.Stage.{Stage, whole};
ghost use Rattle.sheet.specs.Turn.{Room, Testable, tests_behind};

use line::entry::Entry;
use line::heading::Word;
use line::{Section, entry, heading, whole};
use names::lookup::Defined;
use network::Network;
use refusal::{Cause, Refusal};

// How far the reader has come: the network so far, the place of the next line and its number.
#[derive(Clone, Copy)]
pub(crate) struct Reached {
    pub network: Network,
    pub at: usize,
    pub line: u16,
}

/// What a line says, or why it is refused, with its number.
pub fn on_line<T>(number: u16, read: Result<T, Cause>) -> Result<T, Refusal>
    ensures { result ≡ on_line number read }
{
    read.map_err(|cause| Refusal::at(cause, number))
}

// What a line holds that begins at this place, put into the network.
fn add(network: &mut Network, entry: Entry, at: usize, length: usize)
    requires { Room entry network.old }
    ensures { network.new ≡ added entry network.old at length }
{
    match entry {
        Entry::Event => {
            let n = network.events;
            network.starts[n] = at;
            network.lengths[n] = length;
            network.events = n + 1;
        }
        Entry::Signal {
            letter,
            observation,
        } => {
            let n = network.signals;
            network.letters[n] = letter;
            network.observations[n] = observation;
            network.signals = n + 1;
        }
        Entry::Rule(constraint) => {
            let n = network.rules;
            network.constraints[n] = constraint;
            network.rules = n + 1;
        }
        Entry::Reaction { signal, minutes } => {
            network.reactions[signal] = minutes;
        }
        Entry::Label { event, label } => {
            network.labels[event] = label;
            network.labelled[event] = true;
        }
    }
}

// Behind the last line of a section: with the last label all of them are tested.
fn test_behind(entry: Entry, network: &Network) -> Result<(), Cause>
    requires { Testable entry network.now }
    ensures { result ≡ passing (tests_behind entry true network.now) tt }
{
    match entry {
        Entry::Label { .. } => whole::whole_of(network),
        _ => Ok(()),
    }
}

// The first line.
pub(crate) fn read_horizon(sheet: &[u8]) -> Result<Reached, Refusal>
    ensures read { result ≡ read_horizon_lem sheet.now }
    ensures stage { IfOk result (λ r. Stage sheet.now (whole Events) r.network r.at r.line) }
{
    let line = on_line(
        1,
        heading::section_line(sheet, Word::Horizon, 0, Network::HORIZON),
    )?;
    Ok(Reached {
        network: Network::empty(line.count),
        at: line.length + 1,
        line: 2,
    })
}

// A sheet that is short enough to be read. A section's line and the lines behind it are read from what is left of it,
// which begins at the place that is reached; the whole is there for the names of events, which are parts of it.
#[derive(Clone, Copy)]
pub(crate) struct Reader<'a> {
    pub sheet: &'a [u8],
    pub ghost short: { length sheet.now ≤ longest },
}

impl Reader<'_> {
    ghost use Rattle.sheet.specs.Reading.{read_entries_lem, read_section_lem, read_optional_lem};
    ghost use Rattle.sheet.specs.Stage.{MayBeAbsent, to_come};

    // So many lines of a section, from what is left of the sheet. They are counted, since where the next one begins is
    // known only once a line is read.
    fn read_entries(
        &self,
        section: Section,
        mut left: &[u8],
        reached: &mut Reached,
        count: usize,
    ) -> Result<(), Refusal>
        requires { (left.now ≡ drop reached.old.at self.now.sheet.now)
            × Stage self.now.sheet.now (to_come section count) reached.old.network reached.old.at reached.old.line }
        ensures { MatchResult result
            (λ _. (read_entries_lem self.now.sheet.now section count reached.old.network reached.old.at
            reached.old.line ≡ Ok reached.new)
            × Stage self.now.sheet.now (to_come section 0) reached.new.network reached.new.at reached.new.line)
            (λ r. read_entries_lem self.now.sheet.now section count reached.old.network reached.old.at
            reached.old.line ≡ Err r) }
    {
        for done in 0..count {
            let number = reached.line;
            let defined = Defined {
                sheet: self.sheet,
                network: &reached.network,
            };
            let line = on_line(number, entry::entry_at(section, left, &defined))?;
            add(&mut reached.network, line.entry, reached.at, line.length);
            let last = done + 1 == count;
            if last {
                on_line(number, test_behind(line.entry, &reached.network))?;
            }
            let taken = line.length + 1;
            left = &left[taken..];
            reached.at += taken;
            reached.line = number + 1;
        }
        Ok(())
    }

    // A section, with what is left of the sheet.
    pub(crate) fn read_section(
        &self,
        section: Section,
        left: &[u8],
        mut reached: Reached,
    ) -> Result<Reached, Refusal>
        requires { (left.now ≡ drop reached.at self.now.sheet.now)
            × Stage self.now.sheet.now (whole section) reached.network reached.at reached.line }
        ensures read { result ≡ read_section_lem self.now.sheet.now section reached.network reached.at reached.line }
        ensures stage { IfOk result (λ r. Stage self.now.sheet.now (to_come section 0) r.network r.at r.line) }
    {
        let read = heading::heading_of(section, reached.network.events, left);
        let line = on_line(reached.line, read)?;
        let taken = line.length + 1;
        reached.at += taken;
        reached.line += 1;
        self.read_entries(
            section,
            &left[taken..],
            &mut reached,
            usize::from(line.count),
        )?;
        Ok(reached)
    }

    // A section that may be absent: it is there where any byte is left. It is inlined, since what it is given and
    // answers with would else go through it by C's `memmove` (`counted::overwrite`).
    #[inline(always)]
    pub(crate) fn read_optional(
        &self,
        section: Section,
        left: &[u8],
        reached: Reached,
    ) -> Result<Reached, Refusal>
        requires { MayBeAbsent section × (left.now ≡ drop reached.at self.now.sheet.now)
            × Stage self.now.sheet.now (whole section) reached.network reached.at reached.line }
        ensures read { result ≡ read_optional_lem self.now.sheet.now section reached.network reached.at reached.line }
        ensures stage { IfOk result (λ r. Stage self.now.sheet.now (to_come section 0) r.network r.at r.line) }
    {
        if left.is_empty() {
            return Ok(reached);
        }
        self.read_section(section, left, reached)
    }
}
