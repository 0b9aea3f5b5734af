// A line of each section behind its heading: by its fields, and at the start of what remains of the sheet.
ghost use Rattle.std.specs.Prelude.{◌≡◌, ◌&&◌, ◌<◌, ltb};
ghost use Rattle.network.specs.Limits as L;
ghost use Rattle.network.specs.Build.{reaction_stated};
ghost use Rattle.names.specs.Names.{is_name_lem, is_label_lem, label_of};
ghost use Rattle.names.specs.Defined.{mask_of};
ghost use Rattle.line.specs.Tests.{letters_tests};
ghost use Rattle.line.specs.Answers.{passing, entry_by, entry_at};
ghost use Rattle.line.specs.declared.Section.TheVariants.{Events, Signals, Rules, Reactions, Cases};

use super::Section;
use crate::field;
use names::lookup::Defined;
use names::{label, token};
use network::{Constraint, Label, Network};
use refusal::Cause;
use text::split::Fields;

// What a line of a section adds to the network.
#[derive(Clone, Copy)]
pub enum Entry {
    Event,
    Signal { letter: u8, observation: usize },
    Rule(Constraint),
    Reaction { signal: usize, minutes: u16 },
    Label { event: usize, label: Label },
}

// What a line behind a section's heading holds, and how long it is without its line feed.
#[derive(Clone, Copy)]
pub struct Line {
    pub entry: Entry,
    pub length: usize,
}

// An event's name.
fn event_fields(line: &[u8], defined: &Defined) -> Result<Entry, Cause>
    ensures { result ≡ entry_by line.now Events defined.now.sheet.now defined.now.network.now }
{
    let fields = Fields::<1>::of(line).ok_or(Cause::WrongFields)?;
    let name = fields.at(0);
    if !token::is_name(name) {
        return Err(Cause::IllFormedName);
    }
    if defined.event_named(name).is_some() {
        return Err(Cause::Duplicate);
    }
    Ok(Entry::Event)
}

// `letter,event`. An event that is not defined gives no signal, so that what it gives is asked once it is found.
fn signal_fields(line: &[u8], defined: &Defined) -> Result<Entry, Cause>
    ensures { result ≡ entry_by line.now Signals defined.now.sheet.now defined.now.network.now }
{
    let fields = Fields::<2>::of(line).ok_or(Cause::WrongFields)?;
    let letter = token::one_letter(fields.at(0)).ok_or(Cause::IllFormedName)?;
    let event = fields.at(1);
    if !token::is_name(event) {
        return Err(Cause::IllFormedName);
    }
    if defined.place_of(letter).is_some() {
        return Err(Cause::Duplicate);
    }
    let observation = defined.event_named(event).ok_or(Cause::Undefined)?;
    if defined.gives_signal(observation) {
        return Err(Cause::Duplicate);
    }
    Ok(Entry::Signal {
        letter,
        observation,
    })
}

// The label that a field says: its letters are defined, and none stands twice.
fn label_in(field: &[u8], defined: &Defined) -> Result<Label, Cause>
    ensures { result ≡ passing (letters_tests defined.now.network.now field.now)
        (mask_of defined.now.network.now.signals defined.now.network.now.letters (label_of field.now)) }
{
    let literals = token::literals_of(field);
    if !label::all_defined(literals, defined) {
        return Err(Cause::Undefined);
    }
    if !label::is_distinct(literals) {
        return Err(Cause::RepeatedLetter);
    }
    Ok(label::mask_of(literals, defined))
}

// The ends and the label of a rule are well formed.
fn is_rule(from: &[u8], to: &[u8], label: &[u8]) -> bool
    ensures { result ≡ is_name_lem from.now && (is_name_lem to.now && is_label_lem label.now) }
{
    token::is_name(from) && token::is_name(to) && token::is_label(label)
}

// `kind,from,to,limit,label`.
fn rule_fields(line: &[u8], defined: &Defined) -> Result<Entry, Cause>
    ensures { result ≡ entry_by line.now Rules defined.now.sheet.now defined.now.network.now }
{
    let fields = Fields::<5>::of(line).ok_or(Cause::WrongFields)?;
    let kind = field::kind_of(fields.at(0))?;
    let bound = field::limit_of(fields.at(3))?;
    let first = fields.at(1);
    let second = fields.at(2);
    let field = fields.at(4);
    if !is_rule(first, second, field) {
        return Err(Cause::IllFormedName);
    }
    let from = defined.event_named(first).ok_or(Cause::Undefined)?;
    let to = defined.event_named(second).ok_or(Cause::Undefined)?;
    let label = label_in(field, defined)?;
    Ok(Entry::Rule(Constraint {
        kind,
        from,
        to,
        bound,
        label,
    }))
}

// A line has already said after how many minutes the signal is trusted.
fn is_stated(network: &Network, signal: usize) -> bool
    requires { signal < L.signals }
    ensures { result ≡ ltb 0 (reaction_stated network.now signal) }
{
    network.reactions[signal] != 0
}

// `letter,minutes`. A signal that is not defined has no line, so that its line is asked for once it is found.
fn reaction_fields(line: &[u8], defined: &Defined) -> Result<Entry, Cause>
    ensures { result ≡ entry_by line.now Reactions defined.now.sheet.now defined.now.network.now }
{
    let fields = Fields::<2>::of(line).ok_or(Cause::WrongFields)?;
    let minutes = field::count_of(fields.at(1), u32::from(Network::FASTEST), Network::SLOWEST)?;
    let letter = token::one_letter(fields.at(0)).ok_or(Cause::IllFormedName)?;
    let signal = defined.place_of(letter).ok_or(Cause::Undefined)?;
    if is_stated(defined.network, signal) {
        return Err(Cause::Duplicate);
    }
    Ok(Entry::Reaction { signal, minutes })
}

// An event's name and its label are well formed.
fn is_placed(name: &[u8], label: &[u8]) -> bool
    ensures { result ≡ is_name_lem name.now && is_label_lem label.now }
{
    token::is_name(name) && token::is_label(label)
}

// `event,label`. An event that is not defined has no line, so that its line is asked for once it is found.
fn label_fields(line: &[u8], defined: &Defined) -> Result<Entry, Cause>
    ensures { result ≡ entry_by line.now Cases defined.now.sheet.now defined.now.network.now }
{
    let fields = Fields::<2>::of(line).ok_or(Cause::WrongFields)?;
    let name = fields.at(0);
    let field = fields.at(1);
    if !is_placed(name, field) {
        return Err(Cause::IllFormedName);
    }
    let event = defined.event_named(name).ok_or(Cause::Undefined)?;
    if defined.network.labelled[event] {
        return Err(Cause::Duplicate);
    }
    let label = label_in(field, defined)?;
    Ok(Entry::Label { event, label })
}

// A line of a section, by its fields.
fn fields_of(section: Section, line: &[u8], defined: &Defined) -> Result<Entry, Cause>
    ensures { result ≡ entry_by line.now section defined.now.sheet.now defined.now.network.now }
{
    match section {
        Section::Events => event_fields(line, defined),
        Section::Signals => signal_fields(line, defined),
        Section::Rules => rule_fields(line, defined),
        Section::Reactions => reaction_fields(line, defined),
        Section::Cases => label_fields(line, defined),
    }
}

// The line of a section that begins here.
pub fn entry_at(section: Section, rest: &[u8], defined: &Defined) -> Result<Line, Cause>
    ensures { result ≡ entry_at rest.now section defined.now.sheet.now defined.now.network.now }
{
    let line = field::line_of(rest)?;
    let entry = fields_of(section, line, defined)?;
    Ok(Line {
        entry,
        length: line.len(),
    })
}
