// What is due. A table is played: at each minute of each case it is asked what is due, with what that case has heard so
// far, and when each event came is noted. And the same questions are asked of every table, most of them with lists that
// no case has heard. Each list is lent as it is, and its mask is asked beside it.
ghost use Rattle.std.specs.Prelude.{◌<◌, ◌≤◌, length};

use crate::base;
use counted::Counted;
use dispatch::{Heard, Said};
use network::accepted::Accepted;
use network::formed::Formed;
use network::{Network, times};
use refusal::Refusal;
use std::io;

// What stands where an event has not come, and where it has come twice: minutes that no good table has. They are cells
// of a table that is listed, and so no Options.
const NOT_YET: u16 = 65535;

const TWICE: u16 = 65534;

// A minute at which all that was given at minute 0 has been heard.
const LONG_AFTER: u16 = 65535;

// When each signal was given.
type Given = [u16; Network::SIGNALS];

// What a case has heard.
type History = Counted<Heard, { Network::SIGNALS }>;

// Each signal was given at minute 0.
const AT_ONCE: Given = [0; Network::SIGNALS];

// A sheet with a table, as it is played and asked.
#[derive(Clone, Copy)]
pub struct Asked<'a> {
    pub accepted: &'a Accepted<'a>,
    pub table: &'a [u16],
}

// Whether the number has the bit. (Beside network's, which is asked for signals' bits alone: these are events'.)
fn has(mask: usize, bit: usize) -> bool
    requires { bit < 16 }
{
    (mask >> bit) & 1 == 1
}

// A record of a list: a signal, and what it is heard to be.
fn signal(letter: u8, truth: bool) -> Heard {
    Heard { letter, truth }
}

// Whether a signal that was given then counts at the minute.
fn counts(given: u16, reaction: u16, minute: u16) -> bool {
    u32::from(given) + u32::from(reaction) <= u32::from(minute)
}

// What the case s has heard before the minute, where signal p was given at given[p]; the last of the sheet first.
// Signals go by number, since what is asked of one stands in three arrays.
fn heard(formed: &Formed, s: usize, given: &Given, minute: u16) -> History {
    let network = &formed.network;
    let mut history = Counted::new([signal(0, false); Network::SIGNALS]);
    for p in (0..network.signals).rev() {
        let reaction = times::reaction_of(network.reactions[p]);
        if counts(given[p], reaction, minute) {
            history.push(signal(network.letters[p], network::has(s, p)));
        }
    }
    history
}

// Notes the minute for the signals that the events due give. Signals go by number, since event and minute are two
// arrays.
fn give(formed: &Formed, given: &mut Given, due: u16, minute: u16) {
    let network = &formed.network;
    for p in 0..network.signals {
        if has(usize::from(due), network.observations[p]) {
            given[p] = minute;
        }
    }
}

// The minute of an event, with what is due now.
fn noted(before: u16, minute: u16, is_due: bool) -> u16 {
    if !is_due {
        return before;
    }
    if before != NOT_YET {
        return TWICE;
    }
    minute
}

// Notes the minute for the events due: bit u for event u. Bit by bit, since nothing says here that a row has at most
// sixteen cells.
fn note(row: &mut [u16], minute: u16, due: u16) {
    let mut rest = due;
    for cell in row.iter_mut() {
        *cell = noted(*cell, minute, rest % 2 == 1);
        rest /= 2;
    }
}

// The events due by a list, and by its mask: where the two answers differ, that is printed.
fn due(
    rt: &impl Print,
    sheet: &[u8],
    table: &[u16],
    minute: u16,
    heard: &[Heard],
) -> io::Result<Result<u16, Refusal>> {
    let due = opening::events_due(sheet, table, minute, heard);
    if opening::events_due_on(sheet, table, minute, Said::of(heard)) != due {
        print!(rt; "by its mask otherwise ")?;
    }
    Ok(due)
}

// What is answered to a list, with a space before it.
fn answer(
    rt: &impl Print,
    sheet: &[u8],
    table: &[u16],
    minute: u16,
    heard: &[Heard],
) -> io::Result<()> {
    print!(rt; " ")?;
    base::print_brief(rt, due(rt, sheet, table, minute, heard)?)
}

// The letter that the lists name: the first signal's, or p where there is none.
fn first_letter(network: &Network) -> u8 {
    if network.signals == 0 {
        b'p'
    } else {
        network.letters[0]
    }
}

impl<'a> Asked<'a> {
    // The events due. A refusal is printed, and then nothing is due.
    fn events_at(&self, rt: &impl Print, minute: u16, heard: &[Heard]) -> io::Result<u16> {
        match due(rt, self.accepted.sheet, self.table, minute, heard)? {
            Ok(events) => Ok(events),
            Err(refusal) => {
                println!(rt; "{refusal}")?;
                Ok(0)
            }
        }
    }

    // Plays the case s, whose row this is.
    fn play_case(&self, rt: &impl Print, s: usize, row: &mut [u16]) -> io::Result<()> {
        let formed = &self.accepted.formed;
        let mut given = [NOT_YET; Network::SIGNALS];
        for minute in 0..=formed.network.horizon {
            let history = heard(formed, s, &given, minute);
            let due = self.events_at(rt, minute, history.as_slice())?;
            note(row, minute, due);
            give(formed, &mut given, due, minute);
        }
        Ok(())
    }

    // Plays each case into its row of the table.
    fn play_cases(&self, rt: &impl Print, played: &mut [u16]) -> io::Result<()> {
        let events = self.accepted.formed.network.events;
        for (s, row) in played.chunks_exact_mut(events).enumerate() {
            self.play_case(rt, s, row)?;
        }
        Ok(())
    }

    // Plays the table into another one, and lists that.
    pub fn play(&self, rt: &impl Print) -> io::Result<()>
        requires { length self.now.table.now ≤ 256 }
    {
        let n = self.table.len();
        let mut played = [NOT_YET; opening::TABLE_MINUTES];
        self.play_cases(rt, &mut played[..n])?;
        print!(rt; "played ")?;
        base::list(rt, self.accepted.sheet, &played[..n])
    }

    // Twelve lists: in which letters stand twice or are undefined, and bytes that are no letters; and the network's
    // signals, all true, all false, and in turn.
    fn ask_lists(&self, rt: &impl Print, minute: u16) -> io::Result<()> {
        let formed = &self.accepted.formed;
        let all = heard(formed, 15, &AT_ONCE, LONG_AFTER);
        let none = heard(formed, 0, &AT_ONCE, LONG_AFTER);
        let some = heard(
            formed,
            10 >> (formed.network.signals % 2),
            &AT_ONCE,
            LONG_AFTER,
        );
        let a = first_letter(&formed.network);
        let yes = signal(a, true);
        let no = signal(a, false);
        let lists: [&[Heard]; 12] = [
            &[],
            &[yes],
            &[no],
            all.as_slice(),
            none.as_slice(),
            some.as_slice(),
            &[yes, no],
            &[yes, yes],
            &[signal(b'P', true), yes],
            &[signal(0, false)],
            &[signal(255, true)],
            &[signal(b'{', false), signal(b'`', false)],
        ];
        for list in lists {
            answer(rt, self.accepted.sheet, self.table, minute, list)?;
        }
        Ok(())
    }

    // Three masks that no list has: all signals true and the first with both truths, or with a bit of no letter among
    // those that are true, and among those that are false.
    fn ask_masks(&self, rt: &impl Print, minute: u16) -> io::Result<()> {
        let formed = &self.accepted.formed;
        let all = Said::of(heard(formed, 15, &AT_ONCE, LONG_AFTER).as_slice()).mask;
        let a = first_letter(&formed.network);
        let both = Said::of(&[signal(a, true)]).mask | Said::of(&[signal(a, false)]).mask;
        for mask in [all | both, all | (1 << 26), all | (1 << 58)] {
            print!(rt; " ")?;
            base::print_brief(
                rt,
                opening::events_due_on(self.accepted.sheet, self.table, minute, Said { mask }),
            )?;
        }
        Ok(())
    }

    // The fifteen questions at a minute.
    fn ask_at(&self, rt: &impl Print, minute: u16) -> io::Result<()> {
        print!(rt; "asked {minute}")?;
        self.ask_lists(rt, minute)?;
        self.ask_masks(rt, minute)?;
        println!(rt; "")
    }

    // The questions to a table, past the horizon too.
    pub fn ask(&self, rt: &impl Print) -> io::Result<()> {
        for minute in [0, 1, 6, self.accepted.formed.network.horizon, 65535] {
            self.ask_at(rt, minute)?;
        }
        Ok(())
    }
}

// What is due at minute 0 of any table, for those who have heard nothing, and for a list with a byte that is no letter.
pub fn ask_first(rt: &impl Print, sheet: &[u8], table: &[u16]) -> io::Result<()> {
    print!(rt; "asked 0")?;
    answer(rt, sheet, table, 0, &[])?;
    answer(rt, sheet, table, 0, &[signal(0, false)])?;
    println!(rt; "")
}
