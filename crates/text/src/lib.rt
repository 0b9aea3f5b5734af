// Lines, fields and decimal numbers. What each function answers is defined in specs/.
#![tactic(auto)]

ghost use Rattle.std.specs.Prelude.{◌≡◌, ◌==◌, ◌&&◌, ◌+◌, ◌-◌, ◌*◌, ◌≤◌, ◌<◌, position, length, get_or};
ghost use Rattle.text.specs.Lines.{up_to};
ghost use Rattle.text.specs.Number as N;
ghost use Rattle.text.specs.ReadNumber.{capped, read_digits_lem, read_natural_lem, read_number_lem};

pub mod digits;
pub mod split;

// The place of the first byte d.
pub fn find(s: &[u8], d: u8) -> Option<usize>
    ensures { result ≡ position (λ b. b == d) s.now }
{
    s.iter().position(|&b| b == d)
}

// Where the first byte d stands, or the length where there is none.
pub fn until(s: &[u8], d: u8) -> usize
    ensures { result ≡ length (up_to d s.now) }
{
    find(s, d).unwrap_or(s.len())
}

// A number by its sign; there is no `-0`.
#[derive(Clone, Copy)]
pub enum Number {
    Plus(u32),
    Minus(u32),
}

// The size after one more digit.
fn next_size(v: u32, b: u8, most: u16) -> u32
    requires { (v ≤ most + 1) × (48 ≤ b) × (b ≤ 57) }
    ensures { result ≡ capped most (10 * v + (b - 48)) }
{
    (10 * v + u32::from(b - b'0')).min(u32::from(most) + 1)
}

// The size of digits one behind the other.
fn read_digits(f: &[u8], most: u16) -> Option<u32>
    ensures { result ≡ read_digits_lem most f.now }
{
    let mut v: u32 = 0;
    for &b in f {
        if !b.is_ascii_digit() {
            return None;
        }
        v = next_size(v, b, most);
    }
    Some(v)
}

// The size of a number with no sign.
fn read_natural(f: &[u8], most: u16) -> Option<u32>
    ensures { result ≡ read_natural_lem most f.now }
{
    match f {
        [] => None,
        [b'0', _, ..] => None,
        _ => read_digits(f, most),
    }
}

// Whether a field begins with the sign.
fn is_negative(f: &[u8]) -> bool
    ensures { result ≡ N.is_negative f.now }
{
    matches!(f, [b'-', ..])
}

// Whether a zero stands behind the sign.
fn is_minus_zero(f: &[u8]) -> bool
    ensures { result ≡ N.is_negative f.now && (get_or f.now 1 0 == 48) }
{
    matches!(f, [b'-', b'0', ..])
}

// A number with its sign; a size over `most` is given as one more than `most`, so that any count of digits is exact.
pub fn read_number(f: &[u8], most: u16) -> Option<Number>
    ensures { result ≡ read_number_lem most f.now }
{
    if is_minus_zero(f) {
        return None;
    }
    if is_negative(f) {
        return read_natural(&f[1..], most).map(Number::Minus);
    }
    read_natural(f, most).map(Number::Plus)
}
