// Readers into lent memory, files that could be opened or not among them, and texts into writers.
#![tactic(auto)]

ghost use Rattle.std.specs.Prelude.{◌≡◌, ℕ, ◌<◌, ◌≤◌, IfOk, OnOk, OnErr, IsErr, Ok, length, take};
ghost use Rattle.std.specs.Counts.{IsPrefixLen};
ghost use Rattle.std.specs.Io.KnownBytes.{Consumes, IsAtEnd};
ghost use Rattle.files.specs.Whole.{opened_remaining, GivesFirst, Fills, Prints};

use std::io;
use std::io::{Read, Write};

// Reads into buf, as far as there is room, and counts the bytes. A read that fails ends it, and its error is handed on:
// then what was read before stands in front in buf.
pub fn read_full<R: Read>(input: &mut R, buf: &mut [u8]) -> io::Result<usize>
    ensures counted { IfOk result (λ n. IsPrefixLen n buf.new) }
    ensures bytes { IfOk result (λ n. Consumes (R.remaining input.old) (R.remaining input.new) (take n buf.new)) }
    ensures end { IfOk result (λ n. n < length buf.old → IsAtEnd (R.remaining input.new)) }
    ensures whole { IfOk result (λ n. Fills (length buf.old) (R.remaining input.old) n buf.new) }
    ensures rest { OnOk result (GivesFirst (length buf.old) (R.remaining input.old) (R.remaining input.new)) }
    ensures failed { OnErr result ((n : ℕ) × (n ≤ length buf.new)
        × Consumes (R.remaining input.old) (R.remaining input.new) (take n buf.new)) }
{
    // `read_exact` would say nothing of a shorter input, and `read_to_end` needs a heap.
    let mut done = 0;
    while done < buf.len() {
        let n = input.read(&mut buf[done..])?;
        if n == 0 {
            break;
        }
        done += n;
    }
    Ok(done)
}

// Writes all of a text. A write that fails ends it, and its error is handed on: then what was written before is the
// front of the text.
pub fn write_full<W: Write>(output: &mut W, text: &[u8]) -> io::Result<()>
    ensures { Prints (W.contents output.old) (W.contents output.new) result text.now }
{
    // `write_all` would say nothing of what is written before it fails.
    let mut done = 0;
    while done < text.len() {
        let n = output.write(&text[done..])?;
        if n == 0 {
            return Err(io::ErrorKind::WriteZero.into());
        }
        done += n;
    }
    Ok(())
}

// Reads a file that was to be opened into buf, as far as there is room; one that can't be opened counts as empty.
pub fn read_opened<R: Read>(opened: &mut io::Result<R>, buf: &mut [u8]) -> io::Result<usize>
    ensures counted { IfOk result (λ n. IsPrefixLen n buf.new) }
    ensures whole { IfOk result (λ n. Fills (length buf.old) (opened_remaining R.remaining opened.old) n buf.new) }
    ensures rest { OnOk result (GivesFirst (length buf.old) (opened_remaining R.remaining opened.old)
        (opened_remaining R.remaining opened.new)) }
    ensures absent { IsErr opened.old → result ≡ Ok 0 }
{
    match opened {
        Ok(file) => read_full(file, buf),
        Err(_) => Ok(0),
    }
}
