// A line and its fields: numbers and kinds.
ghost use Rattle.std.specs.Prelude.{◌≡◌, true, false, MatchResult};
ghost use Rattle.std.proofs.Math.Option;
ghost use Rattle.prelude.specs.Bytes.{is_in};
ghost use Rattle.text.specs.Lines.{line_feed, up_to};
ghost use Rattle.text.specs.Number.{magnitude, value_of};
ghost use Rattle.refusal.specs.declared.Cause.TheVariants.{MissingLine};
ghost use Rattle.network.specs.declared.Kind.TheVariants.{Max};
ghost use Rattle.line.specs.Tests.{count_tests, limit_tests, kind_tests, kind_of};
ghost use Rattle.line.specs.Answers.{passing};

use network::{Kind, Network};
use refusal::Cause;
use text::Number;

// The line that begins here, without its line feed.
pub(crate) fn line_of(rest: &[u8]) -> Result<&[u8], Cause>
    ensures { MatchResult result
        (λ line. (line.now ≡ up_to line_feed rest.now) × (is_in line_feed rest.now ≡ true))
        (λ e. (e ≡ MissingLine) × (is_in line_feed rest.now ≡ false)) }
{
    let end = text::find(rest, b'\n').ok_or(Cause::MissingLine)?;
    Ok(&rest[..end])
}

// The kind of a rule.
#[tactic(auto, unfolding(crate::specs::Tests::kind_tests))]
pub(crate) fn kind_of(f: &[u8]) -> Result<Kind, Cause>
    ensures { result ≡ passing (kind_tests f.now) (Option.get_or (kind_of f.now) Max) }
{
    match f {
        b"max" => Ok(Kind::Max),
        b"min" => Ok(Kind::Min),
        b"fix" => Err(Cause::RetiredKind),
        _ => Err(Cause::WrongFields),
    }
}

// The limit of a rule, with its sign. (A size of at most 10,080 fits an i32; `From` takes no u32 to one.)
pub(crate) fn limit_of(f: &[u8]) -> Result<i32, Cause>
    ensures { result ≡ passing (limit_tests f.now) (value_of f.now) }
{
    let most = u32::from(Network::HORIZON);
    let number = text::read_number(f, Network::HORIZON).ok_or(Cause::IllFormedNumber)?;
    match number {
        Number::Plus(v) if v <= most => Ok(v as i32),
        Number::Minus(v) if v <= most => Ok(-(v as i32)),
        _ => Err(Cause::OutOfRange),
    }
}

// The count of a section, from lo to hi; a lo over 65,535 refuses each. (It fits 16 bits, as hi does; `From` doesn't
// narrow.)
pub(crate) fn count_of(f: &[u8], lo: u32, hi: u16) -> Result<u16, Cause>
    ensures { result ≡ passing (count_tests lo hi f.now) (magnitude f.now) }
{
    let number = text::read_number(f, hi).ok_or(Cause::IllFormedNumber)?;
    match number {
        Number::Plus(v) if lo <= v && v <= u32::from(hi) => Ok(v as u16),
        _ => Err(Cause::OutOfRange),
    }
}
