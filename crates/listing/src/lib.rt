// The printed listing of a strategy: each function writes a part of it behind what the page holds.
#![tactic(auto)]

ghost use Rattle.std.specs.Prelude.{◌≡◌, ◌+◌, ◌≤◌, length};
ghost use Rattle.network.specs.Limits as L;
ghost use Rattle.network.specs.Build.{name_of_lem, cells};
ghost use Rattle.listing.specs.Listing.{scenario_text, header, time_text, listing};
ghost use Rattle.listing.specs.Line.{fields_of, mark_of_lem, times_of, line_of, lines_of};
ghost use Rattle.listing.specs.Most.{most_names, most_times, most_header, most_line, most_lines};
ghost use Rattle.page.specs.Pushed.{Pushed};
ghost use Rattle.page.specs.HandedOut.{HandedOut};

use network::Network;
use network::accepted::Accepted;
use network::formed::Formed;
use network::times::Strategy;
use page::Page;

// The names of all events, and the line feed.
fn push_names<const N: usize>(page: &mut Page<N>, accepted: &Accepted)
    requires { length page.old + most_names accepted.now.formed.network.events ≤ N }
    ensures { let network = accepted.now.formed.network in
        Pushed (most_names network.events) page.old
        (fields_of network.events (name_of_lem network accepted.now.sheet.now)) page.new }
{
    for u in 0..accepted.formed.network.events {
        page.push_field(accepted.name(u));
    }
    page.push(b'\n');
}

// The first line, which depends on no time.
pub fn push_header<const N: usize>(page: &mut Page<N>, accepted: &Accepted)
    requires { length page.old + most_header ≤ N }
    ensures { Pushed most_header page.old
        (header accepted.now.sheet.now accepted.now.formed.network) page.new }
{
    page.push_all(b"case");
    push_names(page, accepted);
}

// The mark, T or F, of the truth that is v's last binary digit. (By the digit, as the definition has it:
// network::has asks for a bit.)
fn mark_of(v: usize) -> u8
    ensures { result ≡ mark_of_lem v }
{
    if v % 2 == 1 { b'T' } else { b'F' }
}

// The truths of so many propositions in scenario s, whose binary digits they are.
pub fn push_truths<const N: usize>(page: &mut Page<N>, s: usize, signals: usize)
    requires { (signals ≤ L.signals) × (length page.old + L.signals ≤ N) }
    ensures { Pushed L.signals page.old (scenario_text signals s) page.new }
{
    if signals == 0 {
        page.push(b'-');
        return;
    }
    for p in 0..signals {
        page.push(mark_of(s >> p));
    }
}

// What a cell holds: a time in decimal, or a dash where its event does not happen.
fn push_cell<const N: usize>(page: &mut Page<N>, v: u16)
    requires { length page.old + 5 ≤ N }
    ensures { Pushed 5 page.old (time_text v) page.new }
{
    if v == Network::BLANK {
        page.push(b'-');
    } else {
        page.push_number(v);
    }
}

// The times of a row, each behind its comma, and the line feed.
fn push_times<const N: usize>(page: &mut Page<N>, row: &[u16])
    requires { length page.old + most_times (length row.now) ≤ N }
    ensures { Pushed (most_times (length row.now)) page.old (times_of row.now) page.new }
{
    for &time in row {
        page.push(b',');
        push_cell(page, time);
    }
    page.push(b'\n');
}

// The line of scenario s, which has this row of the table.
fn push_line<const N: usize>(page: &mut Page<N>, formed: &Formed, s: usize, row: &[u16])
    requires { (length row.now ≤ L.events) × (length page.old + most_line ≤ N) }
    ensures { Pushed most_line page.old (line_of formed.now.network.signals s row.now) page.new }
{
    push_truths(page, s, formed.network.signals);
    push_times(page, row);
}

// The lines of all scenarios. Rows go by number: over `chunks_exact` the loop would go by an iterator, and take a new
// invariant and three answers more.
fn push_lines<const N: usize>(page: &mut Page<N>, strategy: &Strategy)
    requires { length page.old + most_lines ≤ N }
    ensures { Pushed most_lines page.old (lines_of strategy.now.formed.now.network strategy.now.table.now) page.new }
{
    let formed = strategy.formed;
    let events = formed.network.events;
    for s in 0..formed.scenario_count() {
        push_line(page, formed, s, &strategy.table[s * events..][..events]);
    }
}

// The longest first line, and the longest listing: it has 101 bytes more for each of 16 scenarios.
pub const LONGEST_HEADER: usize = 149;

pub const LONGEST: usize = 1765;

// The listing of any table of the network's size into out: how many bytes were written, or None where out is too short
// for them. The table's length is asked for: a Strategy beside the sheet would have to be said to be of its network.
pub fn write(accepted: &Accepted, table: &[u16], out: &mut [u8]) -> Option<usize>
    requires { length table.now ≡ cells accepted.now.formed.network }
    ensures { HandedOut (listing accepted.now.sheet.now accepted.now.formed.network table.now)
        out.old out.new result }
{
    let strategy = Strategy {
        formed: &accepted.formed,
        table,
    };
    let mut page = Page::<LONGEST>::new();
    push_header(&mut page, accepted);
    push_lines(&mut page, &strategy);
    page.hand_out(out)
}
