// A line that is printed: it is put together first, so that no more than a front of it is written where a write fails.
ghost use Rattle.std.specs.Prelude.{◌≡◌, ◌++◌, ◌∷◌, [], IfSome};
ghost use Rattle.text.specs.Lines.{line_feed};
ghost use Rattle.files.specs.Whole.{Prints};

use page::Page;
use std::fmt::Display;
use std::io;
use std::io::Write;

// More than any refusal or verdict has.
const LINE_BYTES: usize = 128;

// The line so far.
#[derive(Drop)]
struct Draft {
    page: Page<LINE_BYTES>,
}

impl Write for Draft {
    ghost use Rattle.std.specs.Prelude.{Some};

    ghost contents = { λ l. Some l.page };

    // All of it, or nothing where there is no room for all.
    fn write(&mut self, buf: &[u8]) -> io::Result<usize> {
        if buf.is_empty() || LINE_BYTES.saturating_sub(self.page.len()) < buf.len() {
            return Ok(0);
        }
        self.page.push_all(buf);
        Ok(buf.len())
    }

    fn flush(&mut self) -> io::Result<()> {
        Ok(())
    }
}

// What the value displays, and a line feed.
pub fn line<W: Write, T: Display + Drop>(output: &mut W, value: T) -> io::Result<()>
    ensures { IfSome (T.output value) (λ text. Prints (W.contents output.old) (W.contents output.new) result
        (text ++ line_feed ∷ [])) }
{
    let mut line = Draft { page: Page::new() };
    line.writeln(value)?;
    files::write_full(output, line.page.text())
}
