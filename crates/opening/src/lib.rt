// The public calls. None asks anything of its caller: whatever the bytes and the lengths are, the answer is a defined
// one, and a refusal leaves the lent memory as it was.
#![tactic(auto)]

ghost use Rattle.std.specs.Prelude.{◌≡◌, List, [], Ok, Err, MatchResult, length};
ghost use Rattle.dispatch.specs.Said.{said_from};
ghost use Rattle.calls.specs.Values.{number_values};
ghost use Rattle.calls.specs.Call.{Leaves};
ghost use Rattle.calls.specs.Lent.{in_place_lem};
ghost use Rattle.calls.specs.Calls.{summary, no_counts, summary_values, judgement, listed, housed, converting};
ghost use Rattle.calls.specs.Calls.{ringing};
ghost use Rattle.calls.specs.Counting.{counting, solved_values, rounds_of};
ghost use Rattle.calls.specs.Within.{within, progress_values, reach_of};
ghost use Rattle.calls.specs.Play.{events_due_lem, events_due_on_lem};
ghost use Rattle.calls.specs.Recover.{recovering};
ghost use Rattle.calls.specs.Bench.{no_finding, judgement_values};
ghost use Rattle.calls.specs.Answers.{Answers, AnswersInto};
ghost use Rattle.calls.specs.Numbers.{minutes, judges, solves, solves_within, lists, houses, recovers, plays};
ghost use Rattle.calls.specs.Numbers.{misnamed_by, unheard_by, misnamed_on, unheard_on};
ghost use Rattle.calls.specs.Reader.{AcceptsLayout, RefusesFault, CountsContents};
ghost use Rattle.calls.specs.Judges.{Passes, Breaches};
ghost use Rattle.calls.specs.Solves.{RefusesNone, WritesLeast, CountsRounds};
ghost use Rattle.calls.specs.StopsEarly.{StopsAfter, FinishesWithin, MakesNoRound};
ghost use Rattle.calls.specs.Lists.{WritesListing};
ghost use Rattle.calls.specs.ReadingBack.{ReadsBack};
ghost use Rattle.calls.specs.Playing.{TellsRow};
ghost use Rattle.calls.specs.Housing.{WritesForm};
ghost use Rattle.calls.specs.Converting.{AnswersFormer, WritesConverted};
ghost use Rattle.calls.specs.Ringing.{AnswersRing, WritesHeaviest};
ghost use Rattle.opening.specs.Prologue.{handed_in_lem, lent_for_lem, unsolved, of_unread, of_unanswered};

use calls::{Counts, Floor, Progress, Solved, Unsolved};
use checker::Verdict;
use dispatch::{Heard, Said, Unanswered};
use network::Network;
use network::accepted::Accepted;
use network::times::Strategy;
use readback::Unread;
use refusal::{Cause, Refusal};
use solver::{Inconsistent, Outcome};

// Lent memory of these lengths is long enough for every sheet: a table's minutes, a listing's bytes as it is written,
// and the bytes of a sheet, also in its house form, converted, or the heaviest one. No listing that is longer than the
// last is read back.
pub const TABLE_MINUTES: usize = Network::CELLS;

pub const LISTING_BYTES: usize = listing::LONGEST;

pub const SHEET_BYTES: usize = sheet::LONGEST;

pub const PRINTED_BYTES: usize = readback::LONGEST;

// The sheet, for a call that is handed a table of so many minutes.
fn handed_in(sheet: &[u8], minutes: usize) -> Result<Accepted<'_>, Refusal>
    ensures { MatchResult result
        (λ a. (a.sheet.now ≡ sheet.now) × (handed_in_lem sheet.now minutes ≡ Ok a.formed.network))
        (λ r. handed_in_lem sheet.now minutes ≡ Err r) }
{
    let accepted = sheet::read(sheet)?;
    if minutes != accepted.formed.cell_count() {
        return Err(Refusal::without_line(Cause::WrongTableLength));
    }
    Ok(accepted)
}

// The sheet, for a call whose first test of its own is whether there is room for its table among so many minutes.
fn lent_for(sheet: &[u8], minutes: usize) -> Result<Accepted<'_>, Refusal>
    ensures { MatchResult result
        (λ a. (a.sheet.now ≡ sheet.now) × (lent_for_lem sheet.now minutes ≡ Ok a.formed.network))
        (λ r. lent_for_lem sheet.now minutes ≡ Err r) }
{
    let accepted = sheet::read(sheet)?;
    if minutes < accepted.formed.cell_count() {
        return Err(Refusal::without_line(Cause::BufferTooShort));
    }
    Ok(accepted)
}

// The horizon and the counts of a sheet.
pub fn read_sheet(sheet: &[u8]) -> Result<Counts, Refusal>
    ensures outcome { result ≡ summary sheet.now }
    ensures accepted { AcceptsLayout sheet.now result }
    ensures faults { RefusesFault sheet.now result }
    ensures counts { CountsContents sheet.now result }
    ensures refusals { Answers sheet.now [] no_counts (summary_values result) }
{
    let accepted = sheet::read(sheet)?;
    let network = &accepted.formed.network;
    Ok(Counts {
        horizon: network.horizon,
        events: network.events,
        signals: network.signals,
        rules: network.rules,
    })
}

// The verdict on a table.
pub fn judge_table(sheet: &[u8], table: &[u16]) -> Result<Verdict, Refusal>
    ensures outcome { result ≡ judgement sheet.now table.now }
    ensures refusals { Answers sheet.now (judges (minutes table.now)) no_finding (judgement_values result) }
    ensures passes { Passes sheet.now (minutes table.now) table.now (judgement_values result) }
    ensures breaches { Breaches sheet.now (minutes table.now) table.now (judgement_values result) }
{
    let accepted = handed_in(sheet, table.len())?;
    let strategy = Strategy {
        formed: &accepted.formed,
        table,
    };
    Ok(checker::check(&strategy))
}

// That there is no table, and after how many rounds that was known.
fn unsolved(none: Inconsistent) -> Unsolved
    ensures { result ≡ unsolved none }
{
    Unsolved {
        refusal: Refusal::without_line(Cause::Inconsistent),
        rounds: none.rounds,
    }
}

/// The least good table into the first cells of the table. With it, and with 13, goes the count of rounds: from all
/// zeros each cell whose event happens takes the greatest of its own minute and of each bound that is set there, all
/// read off the table before the round, until a round raises nothing or passes a limit; that one counts too.
pub fn solve_sheet(sheet: &[u8], table: &mut [u16]) -> Result<Solved, Unsolved>
    ensures outcome { Leaves (counting sheet.now table.old) result table.new }
    ensures refusals { AnswersInto sheet.now (solves (length table.old)) table.old (solved_values result) table.new }
    ensures none { RefusesNone sheet.now (in_place_lem table.old) (solved_values result) }
    ensures least { WritesLeast sheet.now (in_place_lem table.old) (solved_values result) table.new }
    ensures rounds { CountsRounds sheet.now (in_place_lem table.old) (solved_values result) (rounds_of result) }
{
    let accepted = lent_for(sheet, table.len())?;
    let minutes = accepted.formed.cell_count();
    match solver::solve(&accepted.formed, table) {
        Ok(rounds) => Ok(Solved { minutes, rounds }),
        Err(none) => Err(unsolved(none)),
    }
}

/// What at most so many rounds reach, into the first cells of the table. Where these are enough, the answer and the
/// table are those of `solve_sheet`. Otherwise it is stopped after the last of them and writes a floor: no good table
/// has any event earlier, and at most as many rounds remain as are left, and one more. A count of 0 is refused with 23,
/// which is tried after 12 and before 13.
pub fn solve_within(sheet: &[u8], rounds: u32, table: &mut [u16]) -> Result<Progress, Unsolved>
    ensures outcome { Leaves (within sheet.now rounds table.old) result table.new }
    ensures refusals { AnswersInto sheet.now (solves_within rounds (length table.old)) table.old
        (progress_values result) table.new }
    ensures stopped { StopsAfter sheet.now rounds (in_place_lem table.old) (progress_values result) (reach_of result)
        table.new }
    ensures finished { FinishesWithin sheet.now rounds (in_place_lem table.old) (progress_values result)
        (reach_of result) table.new }
    ensures no_round { MakesNoRound (progress_values result) (reach_of result) }
{
    let accepted = lent_for(sheet, table.len())?;
    if rounds == 0 {
        return Err(Refusal::without_line(Cause::NoRounds).into());
    }
    let minutes = accepted.formed.cell_count();
    match solver::solve_within(&accepted.formed, rounds, table) {
        Ok(Outcome::Finished(rounds)) => Ok(Progress::Finished(Solved { minutes, rounds })),
        Ok(Outcome::Stopped(left)) => Ok(Progress::Stopped(Floor { minutes, left })),
        Err(none) => Err(unsolved(none)),
    }
}

// The listing of any table of the right length, into the first bytes of out.
pub fn write_listing(sheet: &[u8], table: &[u16], out: &mut [u8]) -> Result<usize, Refusal>
    ensures outcome { Leaves (listed sheet.now table.now out.old) result out.new }
    ensures refusals { AnswersInto sheet.now (lists (minutes table.now) sheet.now table.now out.old) out.old
        (number_values result) out.new }
    ensures lists { WritesListing sheet.now (minutes table.now) table.now (in_place_lem out.old)
        (number_values result) out.new }
{
    let accepted = handed_in(sheet, table.len())?;
    listing::write(&accepted, table, out).ok_or(Refusal::without_line(Cause::BufferTooShort))
}

// Why a listing that can't be read back is refused.
fn of_unread(unread: Unread) -> Refusal
    ensures { result ≡ of_unread unread }
{
    match unread {
        Unread::OtherForm(line) => Refusal::at(Cause::OtherForm, line),
        Unread::NoMinute(line) => Refusal::at(Cause::NoMinute, line),
        Unread::TooShort => Refusal::without_line(Cause::BufferTooShort),
    }
}

// The table of a listing, into the first cells of the table.
pub fn read_listing(sheet: &[u8], printed: &[u8], table: &mut [u16]) -> Result<usize, Refusal>
    ensures outcome { Leaves (recovering sheet.now printed.now table.old) result table.new }
    ensures refusals { AnswersInto sheet.now (recovers sheet.now printed.now (length table.old)) table.old
        (number_values result) table.new }
    ensures reads_back { ReadsBack sheet.now printed.now (in_place_lem table.old) (number_values result) table.new }
{
    let accepted = sheet::read(sheet)?;
    readback::read(&accepted, printed, table).map_err(of_unread)
}

// The sheet in its house form, into the first bytes of out.
pub fn write_house(sheet: &[u8], out: &mut [u8]) -> Result<usize, Refusal>
    ensures outcome { Leaves (housed sheet.now out.old) result out.new }
    ensures refusals { AnswersInto sheet.now (houses sheet.now out.old) out.old (number_values result) out.new }
    ensures form { WritesForm sheet.now (in_place_lem out.old) (number_values result) out.new }
{
    let accepted = sheet::read(sheet)?;
    canonical::write(&accepted, out).ok_or(Refusal::without_line(Cause::BufferTooShort))
}

// A former sheet with a `max` and a `min` row in the place of each `fix`, into the first bytes of out.
pub fn convert_sheet(sheet: &[u8], out: &mut [u8]) -> Result<usize, Refusal>
    ensures outcome { Leaves (converting sheet.now out.old) result out.new }
    ensures refusals { AnswersFormer sheet.now out.old (number_values result) out.new }
    ensures converted { WritesConverted sheet.now (in_place_lem out.old) (number_values result) out.new }
{
    let former = conversion::read(sheet)?;
    if Network::RULES < former.rules {
        return Err(Refusal::without_line(Cause::TooManyRows));
    }
    former
        .write(out)
        .ok_or(Refusal::without_line(Cause::BufferTooShort))
}

/// For a line `n,H`, the heaviest sheet of n events, the horizon H and no signal, into the first bytes of out: no such
/// sheet takes more rounds. n is from 2 to 16. The line is refused with 1 to 5 or 10, as a sheet of one line is, and
/// then 12 is tried.
pub fn write_ring(line: &[u8], out: &mut [u8]) -> Result<usize, Refusal>
    ensures outcome { Leaves (ringing line.now out.old) result out.new }
    ensures refusals { AnswersRing line.now out.old (number_values result) out.new }
    ensures heaviest { WritesHeaviest line.now (in_place_lem out.old) (number_values result) out.new }
{
    let ring = heaviest::read(line)?;
    ring.write(out)
        .ok_or(Refusal::without_line(Cause::BufferTooShort))
}

// Why a list that no case can have heard is refused.
fn of_unanswered(unanswered: Unanswered) -> Refusal
    ensures { result ≡ of_unanswered unanswered }
{
    match unanswered {
        Unanswered::Misnamed => Refusal::without_line(Cause::MisnamedSignal),
        Unanswered::NeverHeard => Refusal::without_line(Cause::NeverHeard),
    }
}

// The events due at the minute, by what a mask says of the signals heard before it. A mask says what a list does
// where `Said::add` made it from `Said::NOTHING`, record by record; any other is misnamed.
pub fn events_due_on(sheet: &[u8], table: &[u16], minute: u16, said: Said) -> Result<u16, Refusal>
    ensures outcome { result ≡ events_due_on_lem sheet.now table.now minute said.mask }
    ensures refusals { Answers sheet.now (plays (minutes table.now) table.now (misnamed_on said.mask)
        (unheard_on table.now minute said.mask)) 0 (number_values result) }
    ensures row { (hs : List Heard) → said_from 0 hs ≡ said.mask
        → TellsRow sheet.now (minutes table.now) table.now minute hs (number_values result) }
{
    let accepted = handed_in(sheet, table.len())?;
    let strategy = Strategy {
        formed: &accepted.formed,
        table,
    };
    if let Verdict::Breach(_) = checker::check(&strategy) {
        return Err(Refusal::without_line(Cause::TableFails));
    }
    dispatch::due(&strategy, minute, said).map_err(of_unanswered)
}

// The events due at the minute, by the list of the signals heard before it.
pub fn events_due(sheet: &[u8], table: &[u16], minute: u16, heard: &[Heard]) -> Result<u16, Refusal>
    ensures outcome { result ≡ events_due_lem sheet.now table.now minute heard.now }
    ensures refusals { Answers sheet.now (plays (minutes table.now) table.now (misnamed_by heard.now)
        (unheard_by table.now minute heard.now)) 0 (number_values result) }
    ensures row { TellsRow sheet.now (minutes table.now) table.now minute heard.now (number_values result) }
{
    events_due_on(sheet, table, minute, Said::of(heard))
}
