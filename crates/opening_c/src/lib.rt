// The calls for C, as include/opening.h declares them: byte slices and numbers only. Each is the public call on the
// minutes of the bytes. A table travels as two bytes a minute, low byte first, and an answer is one number, whose bytes
// the header explains.
#![tactic(auto)]

ghost use Rattle.std.specs.Prelude.{◌≡◌, true, ◌/◌, ◌<◌, min, length};
ghost use Rattle.pairs.specs.Pairs.{minutes_of};
ghost use Rattle.network.specs.Limits as L;
ghost use Rattle.dispatch.specs.HeardText.{is_heard_lem, heard_in};
ghost use Rattle.calls.specs.Values.{number_values};
ghost use Rattle.calls.specs.Call.{Leaves};
ghost use Rattle.calls.specs.Lent.{in_place_lem, in_pairs};
ghost use Rattle.calls.specs.Calls.{housed, converting, ringing};
ghost use Rattle.calls.specs.Counting.{answer_of, rounds_of};
ghost use Rattle.calls.specs.Within.{written_of, reach_of};
ghost use Rattle.calls.specs.Bench as B;
ghost use Rattle.calls.specs.Header.{told, found, shifted, opening_rounds, reach_told, ReachTold};
ghost use Rattle.calls.specs.Answers.{Answers, AnswersInto};
ghost use Rattle.calls.specs.Numbers.{bytes, judges, solves, solves_within, lists, houses, recovers, plays};
ghost use Rattle.calls.specs.Numbers.{misnamed_in, unheard_by};
ghost use Rattle.calls.specs.Judges.{Passes, Breaches};
ghost use Rattle.calls.specs.Solves.{RefusesNone, WritesLeast, CountsRounds};
ghost use Rattle.calls.specs.StopsEarly.{StopsAfter, FinishesWithin, MakesNoRound};
ghost use Rattle.calls.specs.Lists.{WritesListing};
ghost use Rattle.calls.specs.ReadingBack.{ReadsBack};
ghost use Rattle.calls.specs.Playing.{TellsRow};
ghost use Rattle.calls.specs.Housing.{WritesForm};
ghost use Rattle.calls.specs.Converting.{AnswersFormer, WritesConverted};
ghost use Rattle.calls.specs.Ringing.{AnswersRing, WritesHeaviest};
ghost use Rattle.opening_c.specs.Packed.{HasRoom, packed_table_lem};

mod answer;

use answer::{packed, with_rounds, word};
use calls::{Progress, Solved, Unsolved};
use network::Network;
use refusal::Refusal;

// The bit of an answer's last three bytes that says that the run was stopped.
const STOPPED: u32 = 1 << 23;

// How many minutes of a sheet's table so many bytes have room for: whole pairs are counted.
fn room(bytes: usize) -> usize
    ensures { result ≡ min (bytes / 2) L.cells }
{
    (bytes / 2).min(Network::CELLS)
}

// What the solver has written, or why it has not.
fn written(solved: Result<Solved, Unsolved>) -> Result<usize, Refusal>
    ensures { result ≡ answer_of solved }
{
    match solved {
        Ok(found) => Ok(found.minutes),
        Err(unsolved) => Err(unsolved.refusal),
    }
}

// How many rounds it took.
fn rounds(solved: Result<Solved, Unsolved>) -> u32
    ensures { result ≡ rounds_of solved }
{
    match solved {
        Ok(found) => found.rounds,
        Err(unsolved) => unsolved.rounds,
    }
}

// What solving within so many rounds has written, or why it has not.
fn written_within(progress: Result<Progress, Unsolved>) -> Result<usize, Refusal>
    ensures { result ≡ written_of progress }
{
    match progress {
        Ok(Progress::Finished(found)) => Ok(found.minutes),
        Ok(Progress::Stopped(floor)) => Ok(floor.minutes),
        Err(unsolved) => Err(unsolved.refusal),
    }
}

// How far it came: the rounds that it took, or the highest bit of three bytes and what is left.
fn reach(progress: Result<Progress, Unsolved>) -> u32
    requires { B.reach_bytes (reach_of progress) < 16777216 }
    ensures { result ≡ B.reach_bytes (reach_of progress) }
{
    match progress {
        Ok(Progress::Finished(found)) => found.rounds,
        Ok(Progress::Stopped(floor)) => STOPPED + floor.left,
        Err(unsolved) => unsolved.rounds,
    }
}

// The answer of a call that writes: a count that fits 16 bits, so that the cast loses nothing.
fn packed_written(written: Result<usize, Refusal>) -> u64
    requires { (number_values written).value < 65536 }
    ensures { result ≡ B.packed_count_lem (number_values written) }
{
    packed(written.map(|count| count as u32))
}

// The answer of a call that writes minutes, and as many of them in the table's bytes.
fn packed_table(written: Result<usize, Refusal>, minutes: &[u16], table: &mut [u8]) -> u64
    requires { HasRoom written minutes.now table.old }
    ensures { Leaves (packed_table_lem written minutes.now table.old) result table.new }
{
    if let Ok(count) = written {
        pairs::pack(&minutes[..count], table);
    }
    packed_written(written)
}

// The judge.
#[unsafe(no_mangle)]
pub extern "C" fn opening_judge(sheet: &[u8], table: &[u8]) -> u64
    ensures outcome { result ≡ B.packed (B.judgement_values (B.bench_judgement sheet.now table.now)) }
    ensures refusals { Answers sheet.now (judges (bytes table.now)) B.no_finding (found result) }
    ensures passes { Passes sheet.now (bytes table.now) (minutes_of table.now) (found result) }
    ensures breaches { Breaches sheet.now (bytes table.now) (minutes_of table.now) (found result) }
    ensures unused { shifted result 56 ≡ 0 }
{
    let minutes = pairs::table_of::<{ Network::CELLS }>(table);
    packed(opening::judge_table(sheet, minutes.as_slice()).map(word))
}

// The solver.
#[unsafe(no_mangle)]
pub extern "C" fn opening_solve(sheet: &[u8], table: &mut [u8]) -> u64
    ensures outcome { Leaves (B.packed_counted (B.bench_counting sheet.now table.old)) result table.new }
    ensures refusals { AnswersInto sheet.now (solves (length table.old / 2)) table.old (told result) table.new }
    ensures none { RefusesNone sheet.now (in_pairs table.old) (told result) }
    ensures least { WritesLeast sheet.now (in_pairs table.old) (told result) table.new }
    ensures rounds { CountsRounds sheet.now (in_pairs table.old) (told result) (opening_rounds result) }
    ensures unused { shifted result 63 ≡ 0 }
{
    let mut minutes = [0u16; Network::CELLS];
    let lent = room(table.len());
    let solved = opening::solve_sheet(sheet, &mut minutes[..lent]);
    let packed = packed_table(written(solved), &minutes, table);
    with_rounds(packed, rounds(solved))
}

/// The solver, within so many rounds.
#[unsafe(no_mangle)]
pub extern "C" fn opening_solve_within(sheet: &[u8], rounds: u32, table: &mut [u8]) -> u64
    ensures outcome { Leaves (B.packed_progress (B.bench_within sheet.now rounds table.old)) result table.new }
    ensures refusals { AnswersInto sheet.now (solves_within rounds (length table.old / 2)) table.old (told result)
        table.new }
    ensures stopped { StopsAfter sheet.now rounds (in_pairs table.old) (told result) (reach_told result) table.new }
    ensures finished { FinishesWithin sheet.now rounds (in_pairs table.old) (told result) (reach_told result)
        table.new }
    ensures no_round { MakesNoRound (told result) (reach_told result) }
    ensures header { ReachTold result }
{
    let mut minutes = [0u16; Network::CELLS];
    let lent = room(table.len());
    let progress = opening::solve_within(sheet, rounds, &mut minutes[..lent]);
    let packed = packed_table(written_within(progress), &minutes, table);
    with_rounds(packed, reach(progress))
}

// The listing.
#[unsafe(no_mangle)]
pub extern "C" fn opening_listing(sheet: &[u8], table: &[u8], out: &mut [u8]) -> u64
    ensures outcome { Leaves (B.packed_left (B.bench_listed sheet.now table.now out.old)) result out.new }
    ensures refusals { AnswersInto sheet.now (lists (bytes table.now) sheet.now (minutes_of table.now) out.old) out.old
        (told result) out.new }
    ensures lists { WritesListing sheet.now (bytes table.now) (minutes_of table.now) (in_place_lem out.old)
        (told result) out.new }
    ensures unused { shifted result 40 ≡ 0 }
{
    let minutes = pairs::table_of::<{ Network::CELLS }>(table);
    packed_written(opening::write_listing(sheet, minutes.as_slice(), out))
}

// The reader of listings.
#[unsafe(no_mangle)]
pub extern "C" fn opening_read_listing(sheet: &[u8], printed: &[u8], table: &mut [u8]) -> u64
    ensures outcome { Leaves (B.packed_left (B.bench_recovering sheet.now printed.now table.old)) result table.new }
    ensures refusals { AnswersInto sheet.now (recovers sheet.now printed.now (length table.old / 2)) table.old
        (told result) table.new }
    ensures reads_back { ReadsBack sheet.now printed.now (in_pairs table.old) (told result) table.new }
    ensures unused { shifted result 40 ≡ 0 }
{
    let mut minutes = [0u16; Network::CELLS];
    let lent = room(table.len());
    let written = opening::read_listing(sheet, printed, &mut minutes[..lent]);
    packed_table(written, &minutes, table)
}

// The house form.
#[unsafe(no_mangle)]
pub extern "C" fn opening_house(sheet: &[u8], out: &mut [u8]) -> u64
    ensures outcome { Leaves (B.packed_left (housed sheet.now out.old)) result out.new }
    ensures refusals { AnswersInto sheet.now (houses sheet.now out.old) out.old (told result) out.new }
    ensures form { WritesForm sheet.now (in_place_lem out.old) (told result) out.new }
    ensures unused { shifted result 40 ≡ 0 }
{
    packed_written(opening::write_house(sheet, out))
}

// The converter.
#[unsafe(no_mangle)]
pub extern "C" fn opening_convert(sheet: &[u8], out: &mut [u8]) -> u64
    ensures outcome { Leaves (B.packed_left (converting sheet.now out.old)) result out.new }
    ensures refusals { AnswersFormer sheet.now out.old (told result) out.new }
    ensures converted { WritesConverted sheet.now (in_place_lem out.old) (told result) out.new }
    ensures unused { shifted result 40 ≡ 0 }
{
    packed_written(opening::convert_sheet(sheet, out))
}

/// The writer of the heaviest sheets.
#[unsafe(no_mangle)]
pub extern "C" fn opening_ring(line: &[u8], out: &mut [u8]) -> u64
    ensures outcome { Leaves (B.packed_left (ringing line.now out.old)) result out.new }
    ensures refusals { AnswersRing line.now out.old (told result) out.new }
    ensures heaviest { WritesHeaviest line.now (in_place_lem out.old) (told result) out.new }
    ensures unused { shifted result 40 ≡ 0 }
{
    packed_written(opening::write_ring(line, out))
}

// The player.
#[unsafe(no_mangle)]
pub extern "C" fn opening_due(sheet: &[u8], table: &[u8], minute: u16, heard: &[u8]) -> u64
    ensures outcome { result ≡ B.packed_count_lem (number_values (B.bench_due sheet.now table.now minute heard.now)) }
    ensures refusals { Answers sheet.now (plays (bytes table.now) (minutes_of table.now) (misnamed_in heard.now)
        (unheard_by (minutes_of table.now) minute (heard_in heard.now))) 0 (told result) }
    ensures row { is_heard_lem heard.now ≡ true → TellsRow sheet.now (bytes table.now) (minutes_of table.now) minute
        (heard_in heard.now) (told result) }
    ensures unused { shifted result 40 ≡ 0 }
{
    let minutes = pairs::table_of::<{ Network::CELLS }>(table);
    let said = dispatch::heard_text::said(heard);
    let due = opening::events_due_on(sheet, minutes.as_slice(), minute, said);
    packed(due.map(u32::from))
}
