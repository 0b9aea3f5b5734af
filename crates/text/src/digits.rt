// Numbers as they are written, digit by digit.
ghost use Rattle.std.specs.Prelude.{◌≡◌, ◌*◌, ◌≤◌, ◌<◌, length};
ghost use Rattle.counted.specs.Values.{values};
ghost use Rattle.text.specs.Spelled.{DigitsAre};
ghost use Rattle.text.specs.Places.{CountedOff, PlacesAre, Placed};

use counted::Counted;
use std::{fmt, str};

// The decimal digits of a number, of which there are at most five.
pub type Digits = Counted<u8, 5>;

// How often a weight goes into a number, and what is left.
#[derive(Clone, Copy)]
struct Weighed {
    digit: u8,
    left: u16,
}

// The weight taken off v as often as it goes, by threes and then by ones: from a loop that takes off the same each time
// the compiler would make a division.
fn count_off(v: u16, weight: u16) -> Weighed
    requires { (v < 10 * weight) × (weight ≤ 10000) }
    ensures { CountedOff v weight result }
{
    let three = 3 * weight;
    let mut digit: u8 = 0;
    let mut left = v;
    while weight <= left {
        if three <= left {
            left -= three;
            digit += 3;
        } else {
            left -= weight;
            digit += 1;
        }
    }
    Weighed { digit, left }
}

// The place of this weight, behind those above it, which leave the number `above`: what it leaves in its turn. A zero
// is left out where no digit stands before it.
fn place(digits: &mut Digits, above: u16, weight: u16) -> u16
    requires { PlacesAre (10 * weight) (values digits.old) above
        × (length (values digits.old) < 5)
        × (weight ≤ 10000) }
    ensures { Placed weight (values digits.old) above (values digits.new) result }
{
    let weighed = count_off(above, weight);
    if weighed.digit != 0 || digits.len() != 0 {
        digits.push(b'0' + weighed.digit);
    }
    weighed.left
}

// The digits of v: ten-thousands, thousands, hundreds and tens are counted off, and the ones are left.
pub fn spell(v: u16) -> Digits
    ensures { DigitsAre v (values result) }
{
    let mut digits = Digits::new([0; 5]);
    let below_ten_thousand = place(&mut digits, v, 10000);
    let below_thousand = place(&mut digits, below_ten_thousand, 1000);
    let below_hundred = place(&mut digits, below_thousand, 100);
    let ones = place(&mut digits, below_hundred, 10);
    // What the tens leave is below ten.
    digits.push(b'0' + ones as u8);
    digits
}

// A number that is printed by its digits, so that no printing divides.
#[derive(Clone, Copy)]
pub struct Spelled(pub u16);

impl From<u8> for Spelled {
    fn from(v: u8) -> Self
        ensures { result.0 ≡ v }
    {
        Spelled(u16::from(v))
    }
}

impl fmt::Display for Spelled {
    ghost use Rattle.std.specs.Prelude.{Some};
    ghost use Rattle.std.specs.Fmt.{decimal};

    ghost output = { λ v. Some (decimal v.0) };

    fn fmt<W: fmt::Write>(&self, f: &mut fmt::Formatter<W>) -> fmt::Result {
        let digits = spell(self.0);
        // Digits are ASCII.
        let Ok(text) = str::from_utf8(digits.as_slice()) else {
            unreachable!();
        };
        f.write_str(text)
    }
}
