// What rounds keep besides bounds: the frame of a network, and tables in rows of sixteen times, one row for each
// scenario. A loop over two rows takes the cells of one and their numbers, here and in the modules, since a proof knows
// nothing of what `iter_mut().zip(..)` writes. That a scenario's number is below 16 is asked by each function, since
// a type for it would be made at each loop and opened at each array.
#![tactic(auto)]

ghost use Rattle.std.specs.Prelude.{◌+◌, ◌*◌, ◌<◌, max, min, get_or};
ghost use Rattle.network.specs.Limits as L;
ghost use Rattle.rows.specs.Rows.{Sixteen, Wrote};

use network::Network;

pub mod frame;
pub mod known;
pub mod marks;

// The times of all scenarios, a row for each. That they are times of a network is asked where it is needed, and is no
// fact of a type, since a table is lent before its rows are written.
pub type Table = [u16; Network::CELLS];

// The times of one scenario; behind the events it has zeros. That they are small is asked where it is needed, and is no
// fact of a type, since a row is over all times while it is raised.
pub type Row = [u16; Network::EVENTS];

// The times of scenario s. A row that is lent costs less than one that is returned, and a loop less than the library's
// copy, which would test on each row whether the two overlap.
pub fn read_row(t: &Table, s: usize, row: &mut Row)
    requires { s < L.cases }
    ensures { Sixteen row.new (λ u. get_or t.now (s * L.events + u) 0) }
{
    for (u, cell) in row.iter_mut().enumerate() {
        *cell = t[s * Network::EVENTS + u];
    }
}

// The row o becomes row s of t, copied in the same way.
pub fn write_row(t: &mut Table, s: usize, o: &Row)
    requires { s < L.cases }
    ensures { Wrote t.old t.new (s * L.events) L.events (λ u. get_or o.now u 0) }
{
    for (u, time) in o.iter().enumerate() {
        t[s * Network::EVENTS + u] = *time;
    }
}

// What the hyperarcs to scenario r ask: its times, or the first time at which the two are known apart.
pub fn raise_by_scenario(t: &Table, r: usize, first: u16, o: &mut Row)
    requires { r < L.cases }
    ensures { Sixteen o.new
        (λ u. max (get_or o.old u 0) (min (get_or t.now (r * L.events + u) 0) first)) }
{
    for (u, cell) in o.iter_mut().enumerate() {
        *cell = (*cell).max(t[r * Network::EVENTS + u].min(first));
    }
}
