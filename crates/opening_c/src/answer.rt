// Answers as C has them: one number, whose bytes stand in the order of the header's table, the lowest first.
ghost use Rattle.std.specs.Prelude.{◌≡◌, ◌+◌, ◌*◌, ◌<◌};
ghost use Rattle.calls.specs.Values.{done, number_values};
ghost use Rattle.calls.specs.Bench as B;

use checker::{Breach, Verdict};
use refusal::Refusal;

// The bytes: the number, the line and what the call tells, of which the last byte is 0 or the judge's third value.
fn in_bytes(number: u8, line: u16, told: u32) -> u64
    ensures { result ≡ number + 256 * (line + 65536 * told) }
{
    let [line_low, line_high] = line.to_le_bytes();
    let [first, second, third, fourth] = told.to_le_bytes();
    u64::from_le_bytes([number, line_low, line_high, first, second, third, fourth, 0])
}

// An answer: what it tells, behind a number and a line of 0, or a refusal's number and line.
pub(crate) fn packed(answer: Result<u32, Refusal>) -> u64
    ensures { result ≡ B.packed_count_lem (number_values answer) }
{
    match answer {
        Ok(told) => in_bytes(0, 0, told),
        Err(refusal) => in_bytes(refusal.cause.number(), refusal.line, 0),
    }
}

// A verdict's word with its three values, as what an answer tells.
pub(crate) fn word(verdict: Verdict) -> u32
    ensures { B.packed_count_lem (done result) ≡ B.packed (B.verdict_values verdict) }
{
    match verdict {
        Verdict::Pass => 0,
        Verdict::Breach(Breach::Late { scenario, event }) => {
            u32::from_le_bytes([1, scenario, event, 0])
        }
        Verdict::Breach(
            Breach::Rule {
                scenario,
                constraint,
            },
        ) => u32::from_le_bytes([2, scenario, constraint, 0]),
        Verdict::Breach(
            Breach::Unheard {
                scenario,
                other,
                event,
            },
        ) => u32::from_le_bytes([3, scenario, other, event]),
    }
}

// The answer of a call that makes rounds, with what it tells of them in the last three bytes.
pub(crate) fn with_rounds(answer: u64, told: u32) -> u64
    requires { (answer < 1099511627776) × (told < 16777216) }
    ensures { result ≡ answer + 1099511627776 * told }
{
    answer + 1099511627776 * u64::from(told)
}
