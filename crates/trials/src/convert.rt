// Request 7, a former sheet: what it is converted to, whether that stays as it is, and what is answered where the lent
// buffer is one byte too short for it.
ghost use Rattle.std.specs.Prelude.{◌≤◌, length};

use crate::base;
use std::io;

// Whether a second pass changes no byte. A call that refuses says so, and then nothing was written.
fn print_again(rt: &impl Print, converted: &[u8]) -> io::Result<()> {
    let mut page = [0u8; opening::SHEET_BYTES];
    let again = opening::convert_sheet(converted, &mut page);
    let n = base::count(rt, "again ", again, page.len())?.unwrap_or(0);
    base::print_again(rt, &page[..n], converted)
}

// The converted sheet of n bytes, in a buffer of one byte less.
fn fill_short(rt: &impl Print, sheet: &[u8], n: usize) -> io::Result<()>
    requires { n ≤ 4096 }
{
    let mut page = [0u8; opening::SHEET_BYTES];
    let written = opening::convert_sheet(sheet, &mut page[..n.saturating_sub(1)]);
    base::print_short(rt, written)
}

// A sheet that is converted, and what it is converted to.
pub fn tell(rt: &impl Print, sheet: &[u8], converted: &[u8]) -> io::Result<()>
    requires { length converted.now ≤ 4096 }
{
    println!(rt; "converted")?;
    rt.write_all(converted)?;
    print_again(rt, converted)?;
    fill_short(rt, sheet, converted.len())
}
