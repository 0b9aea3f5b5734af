// A printed table read back: the form of the whole listing first, then its minutes.
#![tactic(auto)]

ghost use Rattle.std.specs.Prelude.{◌≡◌, ◌==◌, ◌&&◌, ◌+◌, ◌≤◌, ◌<◌, length, count_by};
ghost use Rattle.std.specs.Bool.{then_some};
ghost use Rattle.std.proofs.Math.Option.{none};
ghost use Rattle.prelude.specs.Bytes.{same};
ghost use Rattle.text.specs.Lines.{comma, fields, line_at, ends_at};
ghost use Rattle.network.specs.Limits as L;
ghost use Rattle.listing.specs.Listing.{scenario_text, header};
ghost use Rattle.readback.specs.Form.{longest_read};
ghost use Rattle.readback.specs.Rows.{is_row_lem, rows_misfit, line_number_lem, header_fits};
ghost use Rattle.readback.specs.Answers.{digits_in_lem, minute_in_lem, form_answer};
ghost use Rattle.readback.specs.Answers.{RowRead, RowsRead, TimesRead, ReadIs};

use network::Network;
use network::accepted::Accepted;
use network::formed::Formed;
use page::Page;
use text::Number;

// The most bytes of a listing that is read back, and the last minute that is printed in digits.
pub const LONGEST: usize = 4096;

const LATEST: u16 = 65534;

// The most bytes of a scenario's mark.
const MARK: usize = Network::SIGNALS;

// Why a listing is not read.
#[derive(Clone, Copy, PartialEq, Eq)]
pub enum Unread {
    // This line is the first that is not this sheet's.
    OtherForm(u16),
    // This line is the first that has a text that is no minute.
    NoMinute(u16),
    // The table is too short.
    TooShort,
}

// The minute that a text in digits is. (It fits 16 bits, as LATEST does; `From` doesn't narrow.)
fn digits_in(f: &[u8]) -> Option<u16>
    ensures { result ≡ digits_in_lem f.now }
{
    match text::read_number(f, LATEST)? {
        Number::Plus(v) if v <= u32::from(LATEST) => Some(v as u16),
        _ => None,
    }
}

// The minute that any text is: a dash stands where the event does not happen.
fn minute_in(f: &[u8]) -> Option<u16>
    ensures { result ≡ minute_in_lem f.now }
{
    // There is no `match`, since it has three ways to no dash, which the prover's search leaves open.
    if f == b"-".as_slice() {
        return Some(Network::BLANK);
    }
    digits_in(f)
}

// Whether a text is the mark of scenario s. (A scenario's number and its network are two parameters: a struct for them
// would be made at each turn of a loop and opened at once.)
fn is_mark(f: &[u8], s: usize, formed: &Formed) -> bool
    ensures { result ≡ same f.now (scenario_text formed.now.network.signals s) }
{
    let mut mark = Page::<MARK>::new();
    listing::push_truths(&mut mark, s, formed.network.signals);
    f == mark.text()
}

// How many commas a line has, one fewer than it has fields.
fn comma_count(line: &[u8]) -> usize
    ensures { result ≡ count_by (λ b. b == comma) line.now }
{
    line.iter().filter(|&&b| b == b',').count()
}

// Whether a line has the mark of scenario s, and a text for each event behind it.
fn is_row(line: &[u8], s: usize, formed: &Formed) -> bool
    ensures { let network = formed.now.network in
        result ≡ is_row_lem network.signals network.events s line.now }
{
    if comma_count(line) != formed.network.events {
        return false;
    }
    is_mark(&line[..text::until(line, b',')], s, formed)
}

// The length of the line at the front of the rest, where it is the row of scenario s.
fn row_at(rest: &[u8], s: usize, formed: &Formed) -> Option<usize>
    ensures { let network = formed.now.network in
        result ≡ then_some (ends_at rest.now 0 && is_row_lem network.signals network.events s (line_at rest.now 0))
        (length (line_at rest.now 0)) }
{
    let e = text::find(rest, b'\n')?;
    is_row(&rest[..e], s, formed).then_some(e)
}

// The line of scenario s in the listing, which is at most 18.
fn line_number(s: usize) -> u16
    requires { s ≤ L.cases }
    ensures { result ≡ line_number_lem s }
{
    (s + 2) as u16
}

// The minutes of a line's texts, which are as many as the cells of the row, or None where a text is no minute.
fn read_row(line: &[u8], row: &mut [u16]) -> Option<()>
    requires { length (fields line.now) ≡ length row.old + 1 }
    ensures { RowRead line.now row.old row.new result }
{
    let mut at = text::until(line, b',');
    for cell in row.iter_mut() {
        let start = at + 1;
        let end = start + text::until(&line[start..], b',');
        *cell = minute_in(&line[start..end])?;
        at = end;
    }
    Some(())
}

// The rows of a listing, which begin at this place of it.
#[derive(Clone, Copy)]
struct Rows<'a> {
    printed: &'a [u8],
    first: usize,
    formed: &'a Formed,
    ghost inside: { (first ≤ length printed.now) × (length printed.now ≤ longest_read) },
}

impl<'a> Rows<'a> {
    // Each row fits, and nothing is left over behind them.
    fn check_form(&self) -> Result<(), Unread>
        ensures { let network = self.now.formed.now.network in
            result ≡ form_answer (rows_misfit self.now.printed.now self.now.first network.signals network.events) }
    {
        let count = self.formed.scenario_count();
        let mut at = self.first;
        for s in 0..count {
            let misfit = Unread::OtherForm(line_number(s));
            let e = row_at(&self.printed[at..], s, self.formed).ok_or(misfit)?;
            at += e + 1;
        }
        if at < self.printed.len() {
            return Err(Unread::OtherForm(line_number(count)));
        }
        Ok(())
    }

    // The minutes of all rows, which fit, into cells for those of any sheet.
    fn read_cells(&self, times: &mut [u16]) -> Result<(), Unread>
        requires { let network = self.now.formed.now.network in
            (rows_misfit self.now.printed.now self.now.first network.signals network.events ≡ none)
            × (length times.old ≡ L.cells) }
        ensures { let network = self.now.formed.now.network in
            RowsRead self.now.printed.now self.now.first network.signals network.events times.new result }
    {
        let events = self.formed.network.events;
        let mut at = self.first;
        // Rows go by number: that of a row is told where it is refused, and what chunks_exact_mut lends stands in an
        // iterator.
        for s in 0..self.formed.scenario_count() {
            let end = at + text::until(&self.printed[at..], b'\n');
            let start = s * events;
            let row = &mut times[start..start + events];
            read_row(&self.printed[at..end], row).ok_or(Unread::NoMinute(line_number(s)))?;
            at = end + 1;
        }
        Ok(())
    }

    // The minutes of all rows, which fit, into the front of a lent table.
    fn read(&self, table: &mut [u16]) -> Result<usize, Unread>
        requires { let network = self.now.formed.now.network in
            rows_misfit self.now.printed.now self.now.first network.signals network.events ≡ none }
        ensures { let network = self.now.formed.now.network in
            TimesRead self.now.printed.now self.now.first network.signals network.events
            table.old table.new result }
    {
        let mut times = [0u16; Network::CELLS];
        self.read_cells(&mut times)?;
        let cells = self.formed.cell_count();
        if table.len() < cells {
            return Err(Unread::TooShort);
        }
        counted::overwrite(&mut table[..cells], &times[..cells]);
        Ok(cells)
    }
}

// Where the sheet's header ends, where the listing begins with it.
fn head_of(accepted: &Accepted, printed: &[u8]) -> Option<usize>
    ensures { let head = header accepted.now.sheet.now accepted.now.formed.network in
        result ≡ then_some (header_fits head printed.now) (length head) }
{
    let mut page = Page::<{ listing::LONGEST_HEADER }>::new();
    listing::push_header(&mut page, accepted);
    printed.starts_with(page.text()).then_some(page.len())
}

// The table that a listing holds, into the front of a lent table: how many cells that were.
pub fn read(accepted: &Accepted, printed: &[u8], table: &mut [u16]) -> Result<usize, Unread>
    ensures { let network = accepted.now.formed.network in
        ReadIs (header accepted.now.sheet.now network) network.signals network.events
        printed.now table.old table.new result }
{
    if LONGEST < printed.len() {
        return Err(Unread::OtherForm(1));
    }
    let first = head_of(accepted, printed).ok_or(Unread::OtherForm(1))?;
    let rows = Rows {
        printed,
        first,
        formed: &accepted.formed,
    };
    rows.check_form()?;
    rows.read(table)
}
