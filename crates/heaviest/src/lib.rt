// From a line `n,H`, the heaviest sheet of n events, the horizon H and no signal: none keeps the solver longer.
#![tactic(auto)]

ghost use Rattle.std.specs.Prelude.{◌≡◌, [], map, ◌+◌, ◌≤◌, ◌<◌, length, MatchResult};
ghost use Rattle.prelude.specs.Bounded.{tabulate};
ghost use Rattle.text.specs.Lines.{line};
ghost use Rattle.page.specs.Pushed.{Pushed};
ghost use Rattle.network.specs.Limits as L;
ghost use Rattle.layout.specs.Layout.{section, rule_line};
ghost use Rattle.heaviest.specs.Asks.{fewest};
ghost use Rattle.heaviest.specs.RingText.{letter_name, no_sooner_row};
ghost use Rattle.heaviest.specs.Most.{most_row, most_text};
ghost use Rattle.heaviest.specs.Reading.{reading};

use line::two_counts::{self, Range};
use network::Network;
use page::Page;
use refusal::{Cause, Refusal};

// Room for every sheet that is written.
const ROOM: usize = 325;

// With one event none is left to go around.
const EVENTS: Range = Range {
    least: 2,
    most: Network::EVENTS as u16,
};

const HORIZONS: Range = Range {
    least: 0,
    most: Network::HORIZON,
};

/// What a line asks for: a sheet of so many events, which go around in a ring behind the start, and this horizon.
#[derive(Clone, Copy)]
pub struct Ring {
    pub events: u8,
    pub horizon: u16,
    pub ghost some: { fewest ≤ events },
    pub ghost few: { events ≤ L.events },
    pub ghost low: { horizon ≤ L.horizon },
}

/// What a line asks for, or why it is refused, and on which line.
pub fn read(line: &[u8]) -> Result<Ring, Refusal>
    ensures { MatchResult result (λ ring. reading line.now ≡ Ok (ring.events, ring.horizon))
        (λ r. reading line.now ≡ Err r) }
{
    if sheet::LONGEST < line.len() {
        return Err(Refusal::without_line(Cause::TooLong));
    }
    let asked = sheet::on_line(1, two_counts::counts_line(line, EVENTS, HORIZONS))?;
    if asked.length + 1 < line.len() {
        return Err(Refusal::at(Cause::TrailingBytes, 2));
    }
    Ok(Ring {
        // At most 16.
        events: asked.counts.first as u8,
        horizon: asked.counts.second,
    })
}

// Event `to` comes no sooner than `least` minutes behind event `from`.
fn push_row(page: &mut Page<ROOM>, from: u8, to: u8, least: u16)
    requires { (from < L.events) × (to < L.events) × (length page.old + most_row ≤ most_text) }
    ensures { Pushed most_row page.old (rule_line (no_sooner_row from to least)) page.new }
{
    page.push_all(b"min");
    page.push_field(&[b'a' + from]);
    page.push_field(&[b'a' + to]);
    page.push(b',');
    page.push_number(least);
    page.push_all(b",-\n");
}

impl Ring {
    ghost use Rattle.std.specs.Prelude.{◌-◌};
    ghost use Rattle.page.specs.HandedOut.{HandedOut};
    ghost use Rattle.heaviest.specs.RingText.{ring_row, ring_text};
    ghost use Rattle.heaviest.specs.Most.{most_names, most_rows};

    // The events: a letter a line.
    fn push_events(&self, page: &mut Page<ROOM>)
        requires { length page.old + most_names ≤ most_text }
        ensures { Pushed most_names page.old
            (section "events" (map (λ n. line n []) (tabulate self.now.events letter_name))) page.new }
    {
        page.push_count(b"events", u16::from(self.events));
        for u in 0..self.events {
            page.push(b'a' + u);
            page.push(b'\n');
        }
    }

    // The rules: from b on to each next event, and from the last back to b.
    fn push_rows(&self, page: &mut Page<ROOM>)
        requires { length page.old + most_rows ≤ most_text }
        ensures { Pushed most_rows page.old
            (section "rules" (map rule_line (tabulate (self.now.events - 1) (ring_row (self.now.events - 1)))))
            page.new }
    {
        let last = self.events - 1;
        page.push_count(b"rules", u16::from(last));
        for u in 1..last {
            push_row(page, u, u + 1, 0);
        }
        push_row(page, last, 1, 1);
    }

    /// The sheet into out: how many bytes were written, or None where out is too short for them.
    pub fn write(&self, out: &mut [u8]) -> Option<usize>
        ensures { HandedOut (ring_text self.now.events self.now.horizon) out.old out.new result }
    {
        let mut page = Page::<ROOM>::new();
        page.push_count(b"horizon", self.horizon);
        self.push_events(&mut page);
        page.push_count(b"signals", 0);
        self.push_rows(&mut page);
        page.hand_out(out)
    }
}
