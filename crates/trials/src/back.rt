// Request 4, a listing read back: that of the solver's table gives this table; one that is handed in gives its table,
// or is refused, and a table that is one minute too short for it is refused too.
ghost use Rattle.std.specs.Prelude.{◌≤◌};

use crate::base;
use std::io;

// Whether the listing of the table is read back as a table with the same listing, which no other has. A call that
// refuses says so, and then nothing was written.
pub fn again(rt: &impl Print, sheet: &[u8], table: &[u16]) -> io::Result<()> {
    let mut page = [0u8; opening::LISTING_BYTES];
    let mut next = [0u8; opening::LISTING_BYTES];
    let mut read = [0u16; opening::TABLE_MINUTES];
    let listed = opening::write_listing(sheet, table, &mut page);
    let k = base::count(rt, "listed ", listed, page.len())?.unwrap_or(0);
    let returned = opening::read_listing(sheet, &page[..k], &mut read);
    let n = base::count(rt, "returned ", returned, read.len())?.unwrap_or(0);
    let again = opening::write_listing(sheet, &read[..n], &mut next);
    let j = base::count(rt, "listed ", again, next.len())?.unwrap_or(0);
    if page[..k] == next[..j] {
        println!(rt; "returned same")
    } else {
        println!(rt; "returned other")
    }
}

// The listing of n minutes, in a table of one minute less.
fn fill_short(rt: &impl Print, sheet: &[u8], printed: &[u8], n: usize) -> io::Result<()>
    requires { n ≤ 256 }
{
    let mut table = [0u16; opening::TABLE_MINUTES];
    let written = opening::read_listing(sheet, printed, &mut table[..n.saturating_sub(1)]);
    base::print_short(rt, written)
}

// The table of a listing that is handed in.
pub fn tell(rt: &impl Print, sheet: &[u8], printed: &[u8]) -> io::Result<()> {
    let mut table = [0u16; opening::TABLE_MINUTES];
    let returned = opening::read_listing(sheet, printed, &mut table);
    match base::count(rt, "returned ", returned, table.len())? {
        Some(n) => {
            print!(rt; "returned {n}")?;
            fill_short(rt, sheet, printed, n)?;
            base::judge(rt, sheet, b"", &table[..n])
        }
        None => Ok(()),
    }
}
