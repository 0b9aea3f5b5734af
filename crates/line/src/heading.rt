// The line that a section begins with: by its fields, and at the start of what remains of the sheet.
ghost use Rattle.std.specs.Prelude.{◌≡◌, ◌≢◌, ◌≤◌, MatchOption};
ghost use Rattle.prelude.specs.Bytes.{ascii};
ghost use Rattle.network.specs.Limits as L;
ghost use Rattle.line.specs.Sections.{heading_of_lem};
ghost use Rattle.line.specs.Words.{spelled};
ghost use Rattle.line.specs.declared.heading.Word.{Word};
ghost use Rattle.line.specs.Answers.{section_by, section_at, heading_at};

use super::Section;
use crate::field;
use network::Network;
use refusal::Cause;
use text::split::Fields;

// The words of the sections, the horizon's included.
#[derive(Clone, Copy, PartialEq, Eq)]
pub enum Word {
    Horizon,
    Section(Section),
}

// The word that a field is.
#[tactic(auto, using(crate::proofs::Words::no_word))]
fn word_of(f: &[u8]) -> Option<Word>
    ensures { MatchOption result ((w : Word) → f.now ≢ ascii (spelled w)) (λ w. f.now ≡ ascii (spelled w)) }
{
    match f {
        b"horizon" => Some(Word::Horizon),
        b"events" => Some(Word::Section(Section::Events)),
        b"signals" => Some(Word::Section(Section::Signals)),
        b"rules" => Some(Word::Section(Section::Rules)),
        b"reactions" => Some(Word::Section(Section::Reactions)),
        b"cases" => Some(Word::Section(Section::Cases)),
        _ => None,
    }
}

// What such a line says: its count, and how long it is without its line feed. (A type beside Line: one with a parameter
// for what it says would name neither an entry nor a count.)
#[derive(Clone, Copy)]
pub struct CountLine {
    pub count: u16,
    pub length: usize,
}

// The count of a section, from lo to hi, on a line with its word. (Word and limits are three parameters: a struct for
// them would be made at each call and opened at once.)
fn section_fields(line: &[u8], word: Word, lo: u32, hi: u16) -> Result<u16, Cause>
    ensures { result ≡ section_by line.now (ascii (spelled word)) lo hi }
{
    let fields = Fields::<2>::of(line).ok_or(Cause::WrongFields)?;
    if word_of(fields.at(0)) != Some(word) {
        return Err(Cause::WrongFields);
    }
    field::count_of(fields.at(1), lo, hi)
}

// The line of a section that begins here.
pub fn section_line(rest: &[u8], word: Word, lo: u32, hi: u16) -> Result<CountLine, Cause>
    ensures { result ≡ section_at rest.now (ascii (spelled word)) lo hi }
{
    let line = field::line_of(rest)?;
    let count = section_fields(line, word, lo, hi)?;
    Ok(CountLine {
        count,
        length: line.len(),
    })
}

// The line that a section begins with, on a sheet of n events. (Each limit fits 16 bits, and so does n; `From` doesn't
// narrow.)
pub fn heading_of(section: Section, n: usize, rest: &[u8]) -> Result<CountLine, Cause>
    requires { n ≤ L.events }
    ensures { result ≡ heading_at rest.now (heading_of_lem n section) }
{
    let (least, most) = match section {
        Section::Events => (1, Network::EVENTS),
        Section::Signals | Section::Reactions => (0, Network::SIGNALS),
        Section::Rules => (0, Network::RULES),
        Section::Cases => (0, n),
    };
    section_line(rest, Word::Section(section), least, most as u16)
}
