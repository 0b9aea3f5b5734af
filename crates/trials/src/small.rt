// The solver against the exhaustive search, on sheets that are small enough for it.
use refusal::Cause;
use std::io;

// Both find a table, and each cell of the solver's is the least over all good tables; both find none; or anything else.
#[derive(Clone, Copy)]
enum Compared {
    Table,
    NoTable,
    Differ,
}

// A sheet that the reader or the search refuses differs: all of them are well-formed, and small. Behind the cells of
// the sheet both tables have zeros.
fn compare(sheet: &[u8]) -> Compared {
    let Ok(accepted) = sheet::read(sheet) else {
        return Compared::Differ;
    };
    let Ok(tried) = exhaust::search(&accepted.formed) else {
        return Compared::Differ;
    };
    let mut table = [0u16; exhaust::CELLS];
    match (opening::solve_sheet(sheet, &mut table), tried) {
        (Ok(_), Some(least)) if least == table => Compared::Table,
        (Err(unsolved), None) if unsolved.refusal.cause == Cause::Inconsistent => Compared::NoTable,
        _ => Compared::Differ,
    }
}

// How many sheets there are, and how many of them turned out so that both find a table, and so that both find none.
#[derive(Clone, Copy)]
struct Tally {
    sheets: u64,
    table: u64,
    none: u64,
}

impl Tally {
    // One sheet more: says how it turned out, and counts it.
    fn tell(&mut self, rt: &impl Print, compared: Compared) -> io::Result<()> {
        self.sheets = self.sheets.wrapping_add(1);
        let number = self.sheets;
        match compared {
            Compared::Table => {
                self.table = self.table.wrapping_add(1);
                println!(rt; "small {number} agree table")
            }
            Compared::NoTable => {
                self.none = self.none.wrapping_add(1);
                println!(rt; "small {number} agree none")
            }
            Compared::Differ => println!(rt; "small {number} differ"),
        }
    }

    // The last line: how many sheets there were of each kind.
    fn print(&self, rt: &impl Print) -> io::Result<()> {
        let Tally {
            sheets,
            table,
            none,
        } = *self;
        let differ = sheets.wrapping_sub(table).wrapping_sub(none);
        println!(rt; "small sheets: {table} with a table, {none} without, {differ} differ")
    }
}

// The sheets stand one behind the other, each followed by a line `=`. It is no `split`, since the byte behind a `=` is
// passed over, whatever it is.
pub fn all(rt: &impl Print, text: &[u8]) -> io::Result<()> {
    let mut tally = Tally {
        sheets: 0,
        table: 0,
        none: 0,
    };
    let mut rest = text;
    while !rest.is_empty() {
        let end = text::until(rest, b'=');
        tally.tell(rt, compare(&rest[..end]))?;
        rest = &rest[rest.len().min(end + 2)..];
    }
    tally.print(rt)
}
