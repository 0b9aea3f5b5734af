// What has been heard, as text: letters, each with a bang before it where the signal said false.
ghost use Rattle.std.specs.Prelude.{◌≡◌, false, map};
ghost use Rattle.names.specs.Names.{literals};
ghost use Rattle.dispatch.specs.Said.{said_from};
ghost use Rattle.dispatch.specs.HeardText.{is_heard_lem, record_of, said_text};

use super::{Heard, Said};
use names::token;

// Whether the text is empty, or a label.
fn is_heard(text: &[u8]) -> bool
    ensures { result ≡ is_heard_lem text.now }
{
    text.is_empty() || token::is_label(text)
}

// The records of a label's literals, as a mask. (A walk as `names::token::are_literals` is one, which asks something
// else of a byte.)
fn said_by(t: &[u8]) -> Said
    ensures { result.mask ≡ said_from 0 (map record_of (literals false t.now)) }
{
    let mut said = Said::NOTHING;
    let mut bang = false;
    for &b in t {
        if b != b'!' {
            said = said.add(Heard {
                letter: b,
                truth: !bang,
            });
        }
        bang = b == b'!';
    }
    said
}

// The text as a mask. Every text has one: that of a text of another form is misnamed.
pub fn said(text: &[u8]) -> Said
    ensures { result.mask ≡ said_text text.now }
{
    if !is_heard(text) {
        return Said::NOTHING.with(Said::MISNAMED);
    }
    said_by(token::literals_of(text))
}
