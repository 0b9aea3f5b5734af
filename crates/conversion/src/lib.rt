// Former sheets, which may hold rows of the kind `fix`: as today's reader is given them, each `fix` row read as a `max`
// row, and as the converter writes them, each as a `max` and a `min` row. Every other byte but the count of rules
// stays.
#![tactic(auto)]

ghost use Rattle.std.specs.Prelude.{◌≡◌, List, ◌++◌, map, ℕ, ◌+◌, ◌≤◌, length, take, drop, Ok, Err, MatchResult};
ghost use Rattle.std.specs.Iterator.{YieldsFirstRef, item_count};
ghost use Rattle.page.specs.Pushed.{Pushed};
ghost use Rattle.page.specs.HandedOut.{HandedOut};
ghost use Rattle.network.specs.Limits as L;
ghost use Rattle.sheet.specs.Reading.{longest, read};
ghost use Rattle.layout.specs.Layout.{lines};
ghost use Rattle.conversion.specs.Rows.{lines_of, is_fix_lem, fixes};
ghost use Rattle.conversion.specs.FormerRules.{as_max, read_as_max_lem};
ghost use Rattle.conversion.specs.Converted.{doubled, resulting, heading, converted};

use network::formed::Formed;
use page::Page;
use refusal::{Cause, Refusal};
use std::marker::Model;
use text::split::Fields;

// Room for a sheet, converted or not, and behind it for the five digits that a number may have.
const ROOM: usize = sheet::LONGEST + 5;

// What is left of a sheet, from the beginning of a line on. Contracts see it as the list of these lines.
#[derive(Drop)]
struct LinesLeft<'a> {
    rest: &'a [u8],
}

impl<'a> Model for LinesLeft<'a> {
    ghost Value = { List (List ℕ) };

    ghost view = { λ l. lines_of l.rest.now };
}

impl<'a> LinesLeft<'a> {
    // All of them.
    fn of(sheet: &'a [u8]) -> Self
        ensures { result ≡ lines_of sheet.now }
    {
        LinesLeft { rest: sheet }
    }
}

impl<'a> Iterator for LinesLeft<'a> {
    type Item = &'a [u8];

    ghost next_gives = { YieldsFirstRef (λ l. l) };

    ghost remaining = { item_count (λ l. l) };

    // The next line, with its line feed if it has one.
    fn next(&mut self) -> Option<&'a [u8]> {
        let rest = self.rest;
        if rest.is_empty() {
            return None;
        }
        let feed = text::until(rest, b'\n');
        let (line, behind) = rest.split_at((feed + 1).min(rest.len()));
        self.rest = behind;
        Some(line)
    }
}

// Whether the line is a `fix` row.
fn is_fix(line: &[u8]) -> bool
    ensures { result ≡ is_fix_lem line.now }
{
    let row = &line[..text::until(line, b'\n')];
    match Fields::<5>::of(row) {
        Some(fields) => fields.at(0) == b"fix".as_slice(),
        None => false,
    }
}

// A `fix` row with another kind.
fn push_with_kind(page: &mut Page<ROOM>, kind: &[u8], row: &[u8])
    requires { (3 ≤ length row.now) × (length page.old + (length kind.now + length (drop 3 row.now)) ≤ longest) }
    ensures { Pushed (length kind.now + length (drop 3 row.now)) page.old (kind.now ++ drop 3 row.now) page.new }
{
    page.push_all(kind);
    page.push_all(&row[3..]);
}

// A line as today's reader is given it.
#[tactic(auto, using(crate::proofs::Length::fix_length, crate::proofs::Length::length_as_max))]
fn push_as_max(page: &mut Page<ROOM>, line: &[u8])
    requires { length page.old + length (as_max line.now) ≤ longest }
    ensures { page.new ≡ page.old ++ as_max line.now }
{
    if is_fix(line) {
        push_with_kind(page, b"max", line);
    } else {
        page.push_all(line);
    }
}

// A line as the converter writes it.
#[tactic(auto, using(crate::proofs::Length::fix_length, crate::proofs::Length::length_doubled))]
fn push_doubled(page: &mut Page<ROOM>, line: &[u8])
    requires { length page.old + length (doubled line.now) ≤ longest }
    ensures { page.new ≡ page.old ++ doubled line.now }
{
    if is_fix(line) {
        push_with_kind(page, b"max", line);
        push_with_kind(page, b"min", line);
    } else {
        page.push_all(line);
    }
}

// So many of the lines that are left, as they are, or all where there are fewer.
fn push_lines(page: &mut Page<ROOM>, left: &mut LinesLeft, count: usize)
    requires { length page.old + length (lines (take count left.old)) ≤ longest }
    ensures { (page.new ≡ page.old ++ lines (take count left.old)) × (left.new ≡ drop count left.old) }
{
    for _ in 0..count {
        if let Some(line) = left.next() {
            page.push_all(line);
        }
    }
}

// The heading of so many rules.
fn push_heading(page: &mut Page<ROOM>, rules: u16)
    requires { length page.old + length (heading rules) ≤ longest }
    ensures { page.new ≡ page.old ++ heading rules }
{
    page.push_all(b"rules,");
    page.push_number(rules);
    page.push(b'\n');
}

// All that are left, as the converter writes them.
fn push_rest(page: &mut Page<ROOM>, left: LinesLeft)
    requires { length page.old + length (lines (map doubled left)) ≤ longest }
    ensures { page.new ≡ page.old ++ lines (map doubled left.entry) }
{
    for line in left {
        push_doubled(page, line);
    }
}

// The sheet as today's reader is given it.
fn read_as_max(sheet: &[u8]) -> Page<ROOM>
    requires { length sheet.now ≤ longest }
    ensures { result ≡ read_as_max_lem sheet.now }
{
    let mut page = Page::<ROOM>::new();
    for line in LinesLeft::of(sheet) {
        push_as_max(&mut page, line);
    }
    page
}

// How many `fix` rows there are.
fn fix_count(sheet: &[u8]) -> usize
    ensures { result ≡ fixes sheet.now }
{
    LinesLeft::of(sheet).filter(|line| is_fix(line)).count()
}

// A former sheet, the network that it is read into once `fix` is read as `max`, and how many rules result.
#[derive(Clone, Copy)]
pub struct Former<'a> {
    pub sheet: &'a [u8],
    pub formed: Formed,
    pub rules: usize,
    pub ghost accepted: { read (read_as_max_lem sheet.now) ≡ Ok formed.network },
    pub ghost counted: { rules ≡ resulting sheet.now formed.network },
}

// A former sheet: what it is read into, or why it is refused and on which line.
pub fn read(sheet: &[u8]) -> Result<Former<'_>, Refusal>
    ensures { MatchResult result (λ f. f.sheet.now ≡ sheet.now) (λ r. read (read_as_max_lem sheet.now) ≡ Err r) }
{
    if sheet::LONGEST < sheet.len() {
        return Err(Refusal::without_line(Cause::TooLong));
    }
    let page = read_as_max(sheet);
    let formed = sheet::read(page.text())?.formed;
    Ok(Former {
        sheet,
        formed,
        rules: formed.network.rules + fix_count(sheet),
    })
}

impl Former<'_> {
    // The converted sheet into out: how many bytes were written, or None where out is too short for them.
    pub fn write(&self, out: &mut [u8]) -> Option<usize>
        requires { self.now.rules ≤ L.rules }
        ensures { HandedOut (converted self.now.sheet.now self.now.formed.network) out.old out.new result }
    {
        let network = &self.formed.network;
        let mut page = Page::<ROOM>::new();
        let mut left = LinesLeft::of(self.sheet);
        push_lines(&mut page, &mut left, 3 + network.events + network.signals);
        // The heading of the rules, which is written anew.
        left.next();
        push_heading(&mut page, self.rules as u16);
        push_rest(&mut page, left);
        page.hand_out(out)
    }
}
