// What each request's file makes of a sheet and of a table, the one that is handed in or the solver's.
use crate::due::Asked;
use crate::{back, base, due};
use network::accepted::Accepted;
use std::io;

// A table of bytes, two a minute, and perhaps half a minute behind them.
fn handed_in(rt: &impl Print, sheet: &[u8], bytes: &[u8]) -> io::Result<()> {
    let table = pairs::table_of::<512>(&bytes[..bytes.len() - bytes.len() % 2]);
    base::judge(rt, sheet, bytes, table.as_slice())?;
    due::ask_first(rt, sheet, table.as_slice())
}

// The solver's table.
fn solved(rt: &impl Print, accepted: &Accepted) -> io::Result<()> {
    let sheet = accepted.sheet;
    let mut minutes = [0u16; opening::TABLE_MINUTES];
    let solved = opening::solve_sheet(sheet, &mut minutes)
        .map(|solved| solved.minutes)
        .map_err(|unsolved| unsolved.refusal);
    match base::count(rt, "solved ", solved, minutes.len())? {
        Some(n) => {
            let table = &minutes[..n];
            base::list(rt, sheet, table)?;
            back::again(rt, sheet, table)?;
            let asked = Asked { accepted, table };
            asked.play(rt)?;
            asked.ask(rt)
        }
        None => Ok(()),
    }
}

// A table that is handed in, or the solver's, where the sheet is accepted. Where none is handed in, there are no bytes.
pub fn tell(rt: &impl Print, sheet: &[u8], bytes: &[u8]) -> io::Result<()> {
    if !bytes.is_empty() {
        return handed_in(rt, sheet, bytes);
    }
    match sheet::read(sheet) {
        Ok(accepted) => solved(rt, &accepted),
        Err(_) => Ok(()),
    }
}
