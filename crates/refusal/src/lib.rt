// Why a call is refused: the cause, and the line that decides, of the sheet or of a listing.
#![tactic(auto)]

ghost use Rattle.std.specs.Prelude.{◌≡◌};
ghost use Rattle.refusal.specs.Refusal.{number_of, refusal};

use std::fmt;
use text::digits::Spelled;

// The refusals of document 01, in its checking order, and those of document 02 behind them.
#[derive(Clone, Copy, PartialEq, Eq)]
pub enum Cause {
    // The sheet is longer than 4,096 bytes.
    TooLong = 1,
    // The sheet ends where a line is due, or that line has no line feed.
    MissingLine = 2,
    // Another count of fields than the place asks, or another section word or kind.
    WrongFields = 3,
    IllFormedNumber = 4,
    OutOfRange = 5,
    // A name, letter or label is ill-formed.
    IllFormedName = 6,
    // A name or letter is defined a second time, its event already gives a signal, or the letter or event already has a
    // line among the reactions or cases.
    Duplicate = 7,
    // An event or letter is used that is not defined.
    Undefined = 8,
    // A label holds one letter twice.
    RepeatedLetter = 9,
    // Bytes follow the last section.
    TrailingBytes = 10,
    // A table handed in has not exactly the sheet's count of numbers.
    WrongTableLength = 11,
    // A lent table or buffer is too short for what would be written.
    BufferTooShort = 12,
    // No good table exists: the network is not dynamically consistent within its horizon.
    Inconsistent = 13,
    // A table that is to be played does not pass the judge.
    TableFails = 14,
    // A letter in the list of signals heard is undefined or stands twice.
    MisnamedSignal = 15,
    // No case has heard exactly this list.
    NeverHeard = 16,
    // More rules than a sheet may have would result where a former sheet is converted.
    TooManyRows = 17,
    // A listing is longer than 4,096 bytes, or its header, cases, fields or line ends are not the sheet's.
    OtherForm = 18,
    // A minute of a listing is ill-formed, negative or over 65,534, and no dash.
    NoMinute = 19,
    // The start is given a label other than the dash.
    StartLabelled = 20,
    // A label lacks part of the label of an event whose signal it uses.
    IncompleteLabel = 21,
    // The row is a `fix`, which the converter alone reads.
    RetiredKind = 22,
    // The solver is given a count of 0 rounds.
    NoRounds = 23,
}

// A line is counted from 1; 0 where the refusal concerns no line, as the papers and include/opening.h have it.
#[derive(Clone, Copy, PartialEq, Eq)]
pub struct Refusal {
    pub cause: Cause,
    pub line: u16,
}

impl Cause {
    // The number of the cause in the documents: its discriminant, which only a cast gives.
    pub fn number(self) -> u8
        ensures { result ≡ number_of self }
    {
        self as u8
    }
}

impl Refusal {
    // The refusal of a line.
    pub fn at(cause: Cause, line: u16) -> Self
        ensures { result ≡ refusal cause line }
    {
        Refusal { cause, line }
    }

    // The refusal of a whole call.
    pub fn without_line(cause: Cause) -> Self
        ensures { result ≡ refusal cause 0 }
    {
        Refusal { cause, line: 0 }
    }
}

// `refused N line L`
impl fmt::Display for Refusal {
    ghost use Rattle.std.specs.Prelude.{Some};
    ghost use Rattle.refusal.specs.Printed.{refused_text};

    ghost output = { λ r. Some (refused_text r) };

    fn fmt<W: fmt::Write>(&self, f: &mut fmt::Formatter<W>) -> fmt::Result {
        let number = Spelled::from(self.cause.number());
        let line = Spelled(self.line);
        write!(f, "refused {number} line {line}")
    }
}
