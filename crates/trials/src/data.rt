// The files of data/, which is the folder that the program is started in.
ghost use Rattle.std.specs.Prelude.{IfOk};
ghost use Rattle.std.specs.Counts.{IsPrefixLen};

use std::rt::Files;
use std::{fs, io};

// Reads a file into buf, as far as there is room; one that can't be opened counts as empty.
pub fn read(rt: &impl Files, path: &str, buf: &mut [u8]) -> io::Result<usize>
    ensures { IfOk result (λ n. IsPrefixLen n buf.new) }
{
    files::read_opened(&mut fs::open(rt, path), buf)
}

// Whether a file can be opened.
pub fn is_there(rt: &impl Files, path: &str) -> bool {
    fs::open(rt, path).is_ok()
}
