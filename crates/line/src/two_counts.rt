// A line of two counts: by its fields, and at the start of what remains.
ghost use Rattle.std.specs.Prelude.{◌≡◌};
ghost use Rattle.line.specs.TwoCounts.{both_lem, two_counts_by, two_counts_at};

use crate::field;
use refusal::Cause;
use text::split::Fields;

/// What a count may be, both ends included.
#[derive(Clone, Copy)]
pub struct Range {
    pub least: u16,
    pub most: u16,
}

/// The two counts of a line.
#[derive(Clone, Copy)]
pub struct Counts {
    pub first: u16,
    pub second: u16,
}

/// What such a line says, and how long it is without its line feed.
#[derive(Clone, Copy)]
pub struct CountsLine {
    pub counts: Counts,
    pub length: usize,
}

// Both counts. Where both are refused, the lower number decides.
fn both(first: Result<u16, Cause>, second: Result<u16, Cause>) -> Result<Counts, Cause>
    ensures { result ≡ both_lem first second }
{
    match (first, second) {
        (Ok(first), Ok(second)) => Ok(Counts { first, second }),
        (Ok(_), Err(cause)) | (Err(cause), Ok(_)) => Err(cause),
        (Err(a), Err(b)) => Err(if b.number() < a.number() { b } else { a }),
    }
}

// The two counts of a line, each in its range.
fn two_counts_fields(line: &[u8], first: Range, second: Range) -> Result<Counts, Cause>
    ensures { result ≡ two_counts_by line.now first second }
{
    let fields = Fields::<2>::of(line).ok_or(Cause::WrongFields)?;
    both(
        field::count_of(fields.at(0), u32::from(first.least), first.most),
        field::count_of(fields.at(1), u32::from(second.least), second.most),
    )
}

/// The line of two counts that begins here.
pub fn counts_line(rest: &[u8], first: Range, second: Range) -> Result<CountsLine, Cause>
    ensures { result ≡ two_counts_at rest.now first second }
{
    let line = field::line_of(rest)?;
    let counts = two_counts_fields(line, first, second)?;
    Ok(CountsLine {
        counts,
        length: line.len(),
    })
}
