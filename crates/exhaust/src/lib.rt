// A second solver, by another method: it makes every table of a small network and asks the checker of each. Cells
// whose event does not happen are blank in all of them. It shares nothing with the solver but the network. Proved safe
// and ending; what it answers is compared with the solver's, not proved.
#![tactic(auto)]

ghost use Rattle.std.specs.Prelude.{◌*◌, ◌^◌, ◌<◌, ◌≤◌};
ghost use Rattle.network.specs.Build.{scenarios};

use checker::Verdict;
use network::Network;
use network::formed::Formed;
use network::times::Strategy;

// The most tables that are made, the most cells that a table has, and the latest time of a cell.
const TABLES: u32 = 70000;

pub const CELLS: usize = 32;

const LATEST: u16 = 15;

// The network has too many tables or cells, or too late a horizon, to be searched.
#[derive(Clone, Copy, PartialEq, Eq)]
pub struct TooLarge;

// What a cell holds in every table, or None where every time is tried.
type Held = Option<u16>;

// What the cells of every table hold.
#[derive(Clone, Copy)]
struct Fixed {
    cells: [Held; CELLS],
}

impl Fixed {
    // What the cells of a network's tables hold, case by case.
    fn of(formed: &Formed) -> Self
        requires { formed.now.network.events * 2 ^ formed.now.network.signals ≤ 32 }
    {
        let events = formed.network.events;
        let mut cells = [Some(0); CELLS];
        let rows = cells.chunks_exact_mut(events);
        for (s, row) in rows.take(formed.scenario_count()).enumerate() {
            for (u, cell) in row.iter_mut().enumerate() {
                *cell = held(formed, s, u);
            }
        }
        Fixed { cells }
    }

    // How many tables there are, where a cell has one of so many times: as many as 32 bits hold, if there are more.
    fn table_count(&self, times: u32) -> u32 {
        let open = self.cells.iter().filter(|cell| cell.is_none());
        open.fold(1, |count: u32, _| count.saturating_mul(times))
    }

    // Table number k: each open cell has a digit of k in base times.
    fn table(&self, k: u32, times: u32) -> [u16; CELLS]
        requires { (0 < times) × (times ≤ 16) }
    {
        let mut rest = k;
        self.cells.map(|cell| {
            cell.unwrap_or_else(|| {
                let digit = rest % times;
                rest /= times;
                // A digit is below 16, so that the cast loses nothing.
                digit as u16
            })
        })
    }
}

// What the cell of event u holds in s: the origin has its time, and where the event does not happen the cell is blank.
fn held(formed: &Formed, s: usize, u: usize) -> Held
    requires { (s < scenarios formed.now.network) × (u < formed.now.network.events) }
{
    if u == 0 {
        return Some(0);
    }
    if !formed.happens(s, u) {
        return Some(Network::BLANK);
    }
    None
}

// Each cell the lesser of the two.
fn lower(a: [u16; CELLS], b: [u16; CELLS]) -> [u16; CELLS] {
    let mut least = a;
    for (cell, other) in least.iter_mut().zip(&b) {
        *cell = (*cell).min(*other);
    }
    least
}

// The network's least solution, or none, by trying every table.
pub fn search(formed: &Formed) -> Result<Option<[u16; CELLS]>, TooLarge> {
    let cells = formed.cell_count();
    let horizon = formed.network.horizon;
    if CELLS < cells || LATEST < horizon {
        return Err(TooLarge);
    }
    let times = u32::from(horizon) + 1;
    let fixed = Fixed::of(formed);
    let count = fixed.table_count(times);
    if TABLES < count {
        return Err(TooLarge);
    }
    let mut least = None;
    for k in 0..count {
        let table = fixed.table(k, times);
        let strategy = Strategy {
            formed,
            table: &table[..cells],
        };
        if checker::check(&strategy) == Verdict::Pass {
            least = Some(least.map_or(table, |found| lower(found, table)));
        }
    }
    Ok(least)
}
