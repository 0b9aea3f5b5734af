// The sheet: bytes to a network, or a refusal with its line.
#![tactic(auto)]

ghost use Rattle.std.specs.Prelude.{◌≡◌, MatchResult};
ghost use Rattle.sheet.specs.Reading.{read};

mod section;

use line::Section;
use network::accepted::Accepted;
use network::formed::Formed;
use refusal::{Cause, Refusal};
use section::Reader;
pub use section::on_line;

// The most bytes of a sheet.
pub const LONGEST: usize = 4096;

// The whole sheet: what it is read into, or why it is refused and on which line.
pub fn read(sheet: &[u8]) -> Result<Accepted<'_>, Refusal>
    ensures { MatchResult result (λ a. (a.sheet.now ≡ sheet.now) × (read sheet.now ≡ Ok a.formed.network))
        (λ r. read sheet.now ≡ Err r) }
{
    if LONGEST < sheet.len() {
        return Err(Refusal::without_line(Cause::TooLong));
    }
    let reader = Reader { sheet };
    let horizon = section::read_horizon(sheet)?;
    let events = reader.read_section(Section::Events, &sheet[horizon.at..], horizon)?;
    let signals = reader.read_section(Section::Signals, &sheet[events.at..], events)?;
    let rules = reader.read_section(Section::Rules, &sheet[signals.at..], signals)?;
    let reactions = reader.read_optional(Section::Reactions, &sheet[rules.at..], rules)?;
    let cases = reader.read_optional(Section::Cases, &sheet[reactions.at..], reactions)?;
    if cases.at < sheet.len() {
        return Err(Refusal::at(Cause::TrailingBytes, cases.line));
    }
    let formed = Formed {
        network: cases.network,
    };
    Ok(Accepted { sheet, formed })
}
