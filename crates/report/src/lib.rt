// The programs, each from what it reads to what it prints. A program's `main` says only where that comes from and goes
// to; that of `judge` makes the two calls of which `judge` consists, and opens the listing between them. A read or a
// write that fails ends a program, and its error is handed on.
#![tactic(auto)]

ghost use Rattle.std.specs.Prelude.{◌≤◌, List, ℕ, IfSome, length, replicate};
ghost use Rattle.calls.specs.Values.{number_values, turned_away};
ghost use Rattle.calls.specs.Bench.{judgement_values};
ghost use Rattle.listing.specs.Most.{most_listing};
ghost use Rattle.calls.specs.Table.{refused_text, or_refused, verdict_text, listing_on};
ghost use Rattle.calls.specs.Table.{table_text, form_text, converted_text, heaviest_text, judge_text};
ghost use Rattle.calls.specs.Printing.{PrintsTable, PrintsForm, PrintsConverted, PrintsRing, PrintsVerdict};
ghost use Rattle.files.specs.Whole.{opened_remaining, Prints};
ghost use Rattle.report.specs.Run.{left, IsRead, BeginAlike, ReadsFirst, PrintsWhat};

mod print;

use checker::Verdict;
use refusal::Refusal;
use std::io;
use std::io::{Read, Write};

// One byte more than the longest sheet or listing shows that one is too long.
pub const SHEET_ROOM: usize = opening::SHEET_BYTES + 1;

const LISTING_ROOM: usize = opening::PRINTED_BYTES + 1;

// `refused N line L`
fn print_refusal<W: Write>(output: &mut W, refusal: Refusal) -> io::Result<()>
    ensures { Prints (W.contents output.old) (W.contents output.new) result (refused_text (turned_away 0 refusal)) }
{
    print::line(output, refusal)
}

// The verdict on a table, or the refusal.
fn print_verdict<W: Write>(output: &mut W, judged: Result<Verdict, Refusal>) -> io::Result<()>
    ensures { Prints (W.contents output.old) (W.contents output.new) result (verdict_text (judgement_values judged)) }
{
    match judged {
        Ok(verdict) => print::line(output, verdict),
        Err(refusal) => print_refusal(output, refusal),
    }
}

// What a call has written on a page, or its refusal.
fn print_written<W: Write>(
    output: &mut W,
    written: Result<usize, Refusal>,
    page: &[u8],
) -> io::Result<()>
    requires { (number_values written).value ≤ length page.now }
    ensures { Prints (W.contents output.old) (W.contents output.new) result
        (or_refused (left written page.now) (λ text. text)) }
{
    match written {
        Ok(n) => files::write_full(output, &page[..n]),
        Err(refusal) => print_refusal(output, refusal),
    }
}

// The listing of a table. No listing is longer than the page.
fn print_listing<W: Write>(output: &mut W, sheet: &[u8], table: &[u16]) -> io::Result<()>
    ensures { Prints (W.contents output.old) (W.contents output.new) result
        (listing_on (replicate most_listing 0) sheet.now table.now) }
{
    let mut page = [0u8; opening::LISTING_BYTES];
    let written = opening::write_listing(sheet, table, &mut page);
    print_written(output, written, &page)
}

// The listing of the least good table of a sheet.
fn print_table<W: Write>(output: &mut W, sheet: &[u8]) -> io::Result<()>
    ensures { Prints (W.contents output.old) (W.contents output.new) result (table_text sheet.now) }
{
    let mut table = [0u16; opening::TABLE_MINUTES];
    match opening::solve_sheet(sheet, &mut table) {
        Ok(solved) => print_listing(output, sheet, &table[..solved.minutes]),
        Err(unsolved) => print_refusal(output, unsolved.refusal),
    }
}

// The house form of a sheet. No form is longer than a sheet may be.
fn print_form<W: Write>(output: &mut W, sheet: &[u8]) -> io::Result<()>
    ensures { Prints (W.contents output.old) (W.contents output.new) result (form_text sheet.now) }
{
    let mut page = [0u8; opening::SHEET_BYTES];
    let written = opening::write_house(sheet, &mut page);
    print_written(output, written, &page)
}

// A former sheet, converted. No converted sheet is longer than a sheet may be.
fn print_converted<W: Write>(output: &mut W, sheet: &[u8]) -> io::Result<()>
    ensures { Prints (W.contents output.old) (W.contents output.new) result (converted_text sheet.now) }
{
    let mut page = [0u8; opening::SHEET_BYTES];
    let written = opening::convert_sheet(sheet, &mut page);
    print_written(output, written, &page)
}

// The heaviest sheet that a line asks for. It is no longer than a sheet may be.
fn print_ring<W: Write>(output: &mut W, line: &[u8]) -> io::Result<()>
    ensures { Prints (W.contents output.old) (W.contents output.new) result (heaviest_text line.now) }
{
    let mut page = [0u8; opening::SHEET_BYTES];
    let written = opening::write_ring(line, &mut page);
    print_written(output, written, &page)
}

// The verdict on the table of a listing.
fn print_judgement<W: Write>(output: &mut W, sheet: &[u8], printed: &[u8]) -> io::Result<()>
    ensures { Prints (W.contents output.old) (W.contents output.new) result (judge_text sheet.now printed.now) }
{
    let mut listed = [0u16; opening::TABLE_MINUTES];
    match opening::read_listing(sheet, printed, &mut listed) {
        Ok(minutes) => print_verdict(output, opening::judge_table(sheet, &listed[..minutes])),
        Err(refusal) => print_refusal(output, refusal),
    }
}

// Reads a sheet and prints the listing of its least good table, or `refused N line L`.
pub fn table<R: Read, W: Write>(input: &mut R, output: &mut W) -> io::Result<()>
    ensures text { IfSome (R.remaining input.old) (λ sheet.
        Prints (W.contents output.old) (W.contents output.new) result (table_text sheet)) }
    ensures means { IfSome (R.remaining input.old) (λ sheet.
        PrintsWhat (PrintsTable sheet) (W.contents output.old) (W.contents output.new) result) }
    ensures order { ReadsFirst (W.contents output.old) (W.contents output.new) result
        (IsRead (R.remaining input.old) (R.remaining input.new)) }
{
    let mut sheet = [0u8; SHEET_ROOM];
    let n = files::read_full(input, &mut sheet)?;
    print_table(output, &sheet[..n])
}

// Reads a sheet and prints it in its house form, or `refused N line L`.
pub fn house<R: Read, W: Write>(input: &mut R, output: &mut W) -> io::Result<()>
    ensures text { IfSome (R.remaining input.old) (λ sheet.
        Prints (W.contents output.old) (W.contents output.new) result (form_text sheet)) }
    ensures means { IfSome (R.remaining input.old) (λ sheet.
        PrintsWhat (PrintsForm sheet) (W.contents output.old) (W.contents output.new) result) }
    ensures order { ReadsFirst (W.contents output.old) (W.contents output.new) result
        (IsRead (R.remaining input.old) (R.remaining input.new)) }
{
    let mut sheet = [0u8; SHEET_ROOM];
    let n = files::read_full(input, &mut sheet)?;
    print_form(output, &sheet[..n])
}

// Reads a former sheet and prints it with a `max` and a `min` row in the place of each `fix`, or `refused N line L`.
pub fn convert<R: Read, W: Write>(input: &mut R, output: &mut W) -> io::Result<()>
    ensures text { IfSome (R.remaining input.old) (λ sheet.
        Prints (W.contents output.old) (W.contents output.new) result (converted_text sheet)) }
    ensures means { IfSome (R.remaining input.old) (λ sheet.
        PrintsWhat (PrintsConverted sheet) (W.contents output.old) (W.contents output.new) result) }
    ensures order { ReadsFirst (W.contents output.old) (W.contents output.new) result
        (IsRead (R.remaining input.old) (R.remaining input.new)) }
{
    let mut sheet = [0u8; SHEET_ROOM];
    let n = files::read_full(input, &mut sheet)?;
    print_converted(output, &sheet[..n])
}

/// Reads a line `n,H` and prints the heaviest sheet of n events, the horizon H and no signal, or `refused N line L`.
pub fn ring<R: Read, W: Write>(input: &mut R, output: &mut W) -> io::Result<()>
    ensures text { IfSome (R.remaining input.old) (λ line.
        Prints (W.contents output.old) (W.contents output.new) result (heaviest_text line)) }
    ensures means { IfSome (R.remaining input.old) (λ line.
        PrintsWhat (PrintsRing line) (W.contents output.old) (W.contents output.new) result) }
    ensures order { ReadsFirst (W.contents output.old) (W.contents output.new) result
        (IsRead (R.remaining input.old) (R.remaining input.new)) }
{
    let mut line = [0u8; SHEET_ROOM];
    let n = files::read_full(input, &mut line)?;
    print_ring(output, &line[..n])
}

/// Reads a listing and prints the verdict on its table, or `refused N line L`, for each sheet that begins as these
/// bytes do, which were read of it. A file that can't be opened counts as empty.
pub fn judge_listing<L: Read, W: Write>(
    sheet: &[u8],
    listing_file: &mut io::Result<L>,
    output: &mut W,
) -> io::Result<()>
    ensures text { (whole : List ℕ) → BeginAlike sheet.now whole
        → IfSome (opened_remaining L.remaining listing_file.old) (λ printed.
        Prints (W.contents output.old) (W.contents output.new) result (judge_text whole printed)) }
    ensures means { (whole : List ℕ) → BeginAlike sheet.now whole
        → IfSome (opened_remaining L.remaining listing_file.old) (λ printed.
        PrintsWhat (PrintsVerdict whole printed) (W.contents output.old) (W.contents output.new) result) }
    ensures order { ReadsFirst (W.contents output.old) (W.contents output.new) result
        (IsRead (opened_remaining L.remaining listing_file.old) (opened_remaining L.remaining listing_file.new)) }
{
    let mut printed = [0u8; LISTING_ROOM];
    let k = files::read_opened(listing_file, &mut printed)?;
    print_judgement(output, sheet, &printed[..k])
}

// Reads a sheet and a listing, and prints the verdict on the table of the listing, or `refused N line L`. A file that
// can't be opened counts as empty. The program makes these two calls, and opens the listing between them.
pub fn judge<S: Read, L: Read, W: Write>(
    sheet_file: &mut io::Result<S>,
    listing_file: &mut io::Result<L>,
    output: &mut W,
) -> io::Result<()>
    ensures text { IfSome (opened_remaining S.remaining sheet_file.old) (λ sheet.
        IfSome (opened_remaining L.remaining listing_file.old) (λ printed.
        Prints (W.contents output.old) (W.contents output.new) result (judge_text sheet printed))) }
    ensures means { IfSome (opened_remaining S.remaining sheet_file.old) (λ sheet.
        IfSome (opened_remaining L.remaining listing_file.old) (λ printed.
        PrintsWhat (PrintsVerdict sheet printed) (W.contents output.old) (W.contents output.new) result)) }
    ensures order { ReadsFirst (W.contents output.old) (W.contents output.new) result
        (IsRead (opened_remaining S.remaining sheet_file.old) (opened_remaining S.remaining sheet_file.new)
        × IsRead (opened_remaining L.remaining listing_file.old) (opened_remaining L.remaining listing_file.new)) }
{
    let mut sheet = [0u8; SHEET_ROOM];
    let n = files::read_opened(sheet_file, &mut sheet)?;
    judge_listing(&sheet[..n], listing_file, output)
}
