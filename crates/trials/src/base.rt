// The base: what is read of a sheet, and the verdict on a table that is handed in, with its listing.
ghost use Rattle.std.specs.Prelude.{◌≤◌, IfOk, IfSome};
ghost use Rattle.calls.specs.Values.{number_values};

use calls::Counts;
use refusal::Refusal;
use std::fmt::Display;
use std::io;

// What a call answers, in one word: the number that it tells, or the refusal, as r13.0.
pub fn print_brief<T: Display + Copy>(
    rt: &impl Print,
    answer: Result<T, Refusal>,
) -> io::Result<()> {
    match answer {
        Ok(n) => print!(rt; "{n}"),
        Err(refusal) => {
            let number = refusal.cause.number();
            let line = refusal.line;
            print!(rt; "r{number}.{line}")
        }
    }
}

// How much a call wrote into memory that has this room. A refusal is printed behind the word.
pub fn count(
    rt: &impl Print,
    word: &str,
    written: Result<usize, Refusal>,
    room: usize,
) -> io::Result<Option<usize>>
    requires { (number_values written).value ≤ room }
    ensures { IfOk result (λ counted. IfSome counted (λ n. n ≤ room)) }
{
    match written {
        Ok(n) => Ok(Some(n)),
        Err(refusal) => {
            println!(rt; "{word}{refusal}")?;
            Ok(None)
        }
    }
}

// The listing of a table, or the refusal.
pub fn list(rt: &impl Print, sheet: &[u8], table: &[u16]) -> io::Result<()> {
    let mut page = [0u8; opening::LISTING_BYTES];
    let listed = opening::write_listing(sheet, table, &mut page);
    match count(rt, "listed ", listed, page.len())? {
        Some(n) => rt.write_all(&page[..n]),
        None => Ok(()),
    }
}

// Whether a text that was written once more is the same.
pub fn print_again(rt: &impl Print, again: &[u8], before: &[u8]) -> io::Result<()> {
    if again == before {
        print!(rt; "again same")
    } else {
        print!(rt; "again other")
    }
}

// What a call answers whose memory is one place too short.
pub fn print_short<T: Display + Copy>(
    rt: &impl Print,
    written: Result<T, Refusal>,
) -> io::Result<()> {
    print!(rt; " short ")?;
    print_brief(rt, written)?;
    println!(rt; "")
}

// What is read of the sheet.
pub fn read(rt: &impl Print, sheet: &[u8]) -> io::Result<()> {
    match opening::read_sheet(sheet) {
        Ok(
            Counts {
                horizon,
                events,
                signals,
                rules,
            },
        ) => println!(rt; "accepted {horizon} {events} {signals} {rules}"),
        Err(refusal) => println!(rt; "{refusal}"),
    }
}

// The verdict, or the refusal.
fn verdict(rt: &impl Print, sheet: &[u8], table: &[u16]) -> io::Result<()> {
    match opening::judge_table(sheet, table) {
        Ok(verdict) => println!(rt; "{verdict}"),
        Err(refusal) => println!(rt; "{refusal}"),
    }
}

// The verdict on a table, and its listing; the bytes are those that it is handed in as, or none where it was read from
// a listing. Half a minute behind the table can be told of bytes alone, as C hands a table in: no minutes come of
// them, which is no sheet's table.
pub fn judge(rt: &impl Print, sheet: &[u8], bytes: &[u8], table: &[u16]) -> io::Result<()> {
    print!(rt; "judged ")?;
    if bytes.is_empty() {
        verdict(rt, sheet, table)?;
    } else {
        let handed = pairs::table_of::<{ opening::TABLE_MINUTES }>(bytes);
        verdict(rt, sheet, handed.as_slice())?;
    }
    list(rt, sheet, table)
}
