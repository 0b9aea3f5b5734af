// Text written piece by piece onto a page, whose caller has seen to the room; hand_out copies it into lent memory, and
// tests first whether there is room. Everything else in that memory stays as it was.
#![tactic(auto)]

ghost use Rattle.std.specs.Prelude.{◌≡◌, List, [], ◌∷◌, ℕ, ◌+◌, ◌≤◌, ◌<◌, length};
ghost use Rattle.counted.specs.Values.{values};
ghost use Rattle.text.specs.Lines.{comma, line};
ghost use Rattle.text.specs.Decimal.{decimal};
ghost use Rattle.page.specs.Pushed.{Pushed};
ghost use Rattle.page.specs.HandedOut.{HandedOut};

use counted::Counted;
use std::marker::Model;

// Memory of N bytes, written from the front. Contracts see it as the bytes that are written.
#[derive(Drop)]
pub struct Page<const N: usize> {
    bytes: Counted<u8, N>,
}

impl<const N: usize> Model for Page<N> {
    ghost Value = { List ℕ };

    ghost view = { λ p. values p.bytes };
}

impl<const N: usize> Page<N> {
    // One with nothing written.
    pub fn new() -> Self
        ensures { result ≡ [] }
    {
        Page {
            bytes: Counted::new([0; N]),
        }
    }

    // How many bytes are written.
    pub fn len(&self) -> usize
        ensures { result ≡ length self.now }
    {
        self.bytes.len()
    }

    // The bytes that are written.
    pub fn text(&self) -> &[u8]
        ensures { result.now ≡ self.now }
    {
        self.bytes.as_slice()
    }

    // One byte.
    pub fn push(&mut self, b: u8)
        requires { length self.old < N }
        ensures { Pushed 1 self.old (b ∷ []) self.new }
    {
        self.bytes.push(b);
    }

    // Bytes, one behind the other.
    pub fn push_all(&mut self, s: &[u8])
        requires { length self.old + length s.now ≤ N }
        ensures { Pushed (length s.now) self.old s.now self.new }
    {
        self.bytes.push_all(s);
    }

    // A field of a line, behind its comma.
    pub fn push_field(&mut self, s: &[u8])
        requires { length self.old + length s.now < N }
        ensures { Pushed (1 + length s.now) self.old (comma ∷ s.now) self.new }
    {
        self.push(b',');
        self.push_all(s);
    }

    // A number in decimal.
    pub fn push_number(&mut self, v: u16)
        requires { length self.old + 5 ≤ N }
        ensures { Pushed 5 self.old (decimal v) self.new }
    {
        self.push_all(text::digits::spell(v).as_slice());
    }

    // The line `word,count`.
    pub fn push_count(&mut self, word: &[u8], count: u16)
        requires { length self.old + (length word.now + 7) ≤ N }
        ensures { Pushed (length word.now + 7) self.old (line word.now (decimal count ∷ [])) self.new }
    {
        self.push_all(word);
        self.push(b',');
        self.push_number(count);
        self.push(b'\n');
    }

    // The text into the front of lent memory: how many bytes that were, or None where the memory is too short for them.
    pub fn hand_out(&self, out: &mut [u8]) -> Option<usize>
        ensures { HandedOut self.now out.old out.new result }
    {
        hand_out(self.text(), out)
    }
}

/// A text into the front of lent memory: how many bytes that were, or None where the memory is too short for them; then
/// it stays as it was.
pub fn hand_out(text: &[u8], out: &mut [u8]) -> Option<usize>
    ensures { HandedOut text.now out.old out.new result }
{
    if out.len() < text.len() {
        return None;
    }
    counted::overwrite(&mut out[..text.len()], text);
    Some(text.len())
}
