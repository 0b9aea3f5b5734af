// What is proved of all sheets, tables and lent memory, each gathered record as the contract of a function that does
// nothing: of the definitions that the calls' contracts are equations with.
ghost use Rattle.calls.specs.Demands.{Demands};
ghost use Rattle.calls.specs.Numbers.{Numbers};
ghost use Rattle.calls.specs.Benched.{Benched};
ghost use Rattle.calls.specs.ReadingBack.{ReadingBack};
ghost use Rattle.calls.specs.Playing.{Playing};
ghost use Rattle.calls.specs.Housing.{Housing};
ghost use Rattle.calls.specs.Converting.{Converting};
ghost use Rattle.calls.specs.Ringing.{Ringing};
ghost use Rattle.calls.specs.Reacting.{Reacting};
ghost use Rattle.calls.specs.Printing.{Printing};
ghost use Rattle.calls.specs.Trials.{Trials};

/// The three demands.
pub fn demands_hold()
    ensures { Demands }
{}

/// Which numbers and lines each call answers with, and why.
pub fn numbers_hold()
    ensures { Numbers }
{}

/// The demands on the calls for C.
pub fn benched_holds()
    ensures { Benched }
{}

/// What holds of reading a listing back.
pub fn reading_back_holds()
    ensures { ReadingBack }
{}

/// What holds of playing a table.
pub fn playing_holds()
    ensures { Playing }
{}

/// What holds of the house form.
pub fn housing_holds()
    ensures { Housing }
{}

/// What holds of converting former sheets.
pub fn converting_holds()
    ensures { Converting }
{}

/// What holds of the heaviest sheets.
pub fn ringing_holds()
    ensures { Ringing }
{}

/// What holds of reactions.
pub fn reacting_holds()
    ensures { Reacting }
{}

/// What holds of what the programs print.
pub fn printing_holds()
    ensures { Printing }
{}

/// The trial sheets.
pub fn trials_hold()
    ensures { Trials }
{}
