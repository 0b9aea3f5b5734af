// Request 2, the house form of a sheet: printed, or said to be the same bytes as the last form before it; then whether
// the form is its own form, and what is answered where the lent buffer is one byte too short for it.
ghost use Rattle.std.specs.Prelude.{◌≤◌};

use crate::base;
use std::io;

// A form on its page has zeros behind it, which no form has: pages are the same where the forms on them are.
pub type Form = [u8; opening::SHEET_BYTES];

// Whether the form is its own form. A call that refuses says so, and then nothing was written.
fn print_again(rt: &impl Print, form: &[u8]) -> io::Result<()> {
    let mut page = [0u8; opening::SHEET_BYTES];
    let again = opening::write_house(form, &mut page);
    let n = base::count(rt, "again ", again, page.len())?.unwrap_or(0);
    base::print_again(rt, &page[..n], form)
}

// The form of n bytes, in a buffer of one byte less.
fn fill_short(rt: &impl Print, sheet: &[u8], n: usize) -> io::Result<()>
    requires { n ≤ 4096 }
{
    let mut page = [0u8; opening::SHEET_BYTES];
    let written = opening::write_house(sheet, &mut page[..n.saturating_sub(1)]);
    base::print_short(rt, written)
}

// Takes the page of the last form before this sheet's, and leaves that of the last behind it.
pub fn tell(rt: &impl Print, sheet: &[u8], last: &mut Form) -> io::Result<()> {
    let mut page = [0u8; opening::SHEET_BYTES];
    let written = opening::write_house(sheet, &mut page);
    match base::count(rt, "house ", written, page.len())? {
        Some(n) => {
            if page == *last {
                println!(rt; "house as before")?;
            } else {
                println!(rt; "house")?;
                rt.write_all(&page[..n])?;
            }
            print_again(rt, &page[..n])?;
            fill_short(rt, sheet, n)?;
            *last = page;
            Ok(())
        }
        None => Ok(()),
    }
}
