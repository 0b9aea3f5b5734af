// Names, letters and labels, byte by byte.
ghost use Rattle.std.specs.Prelude.{◌≡◌, false, ◌||◌, get_or};
ghost use Rattle.std.specs.Bool.{then_some};
ghost use Rattle.std.specs.List.{list_all};
ghost use Rattle.text.specs.Number.{is_digit};
ghost use Rattle.names.specs.Names.{is_letter_lem, is_name_lem, is_one_letter_lem, are_literals_lem, is_dash_lem};
ghost use Rattle.names.specs.Names.{is_label_lem, literals};
ghost use Rattle.names.specs.Names.{label_of};
ghost use Rattle.names.specs.Scan.{may_follow_lem};

// Lower-case letters.
pub fn is_letter(b: u8) -> bool
    ensures { result ≡ is_letter_lem b }
{
    b.is_ascii_lowercase()
}

// A byte of a name behind its first.
fn is_later(b: u8) -> bool
    ensures { result ≡ is_letter_lem b || is_digit b }
{
    is_letter(b) || b.is_ascii_digit()
}

// Whether all bytes may stand behind the first of a name.
fn are_later(f: &[u8]) -> bool
    ensures { result ≡ list_all (λ b. is_letter_lem b || is_digit b) f.now }
{
    f.iter().all(|&b| is_later(b))
}

// An event's name.
#[tactic(auto, using(prelude::proofs::Bytes::all_is))]
pub fn is_name(f: &[u8]) -> bool
    ensures { result ≡ is_name_lem f.now }
{
    match f {
        [] => false,
        [first, later @ ..] => is_letter(*first) && are_later(later) && f.len() <= 8,
    }
}

// A signal's letter: a field of one byte.
pub fn one_letter(f: &[u8]) -> Option<u8>
    ensures { result ≡ then_some (is_one_letter_lem f.now) (get_or f.now 0 0) }
{
    match f {
        [b] if is_letter(*b) => Some(*b),
        _ => None,
    }
}

// Whether a byte may stand here in a label, with a bang before it or not.
fn may_follow(bang: bool, b: u8) -> bool
    ensures { result ≡ may_follow_lem bang b }
{
    if b == b'!' { !bang } else { is_letter(b) }
}

// Letters, each with an optional bang before it. (Other walks over a label ask something else of each byte, so that one
// function for all of them would be no plainer.)
fn are_literals(f: &[u8]) -> bool
    ensures { result ≡ are_literals_lem false f.now }
{
    let mut bang = false;
    for &b in f {
        if !may_follow(bang, b) {
            return false;
        }
        bang = b == b'!';
    }
    !bang
}

// The label of every case.
fn is_dash(f: &[u8]) -> bool
    ensures { result ≡ is_dash_lem f.now }
{
    matches!(f, b"-")
}

// A label.
pub fn is_label(f: &[u8]) -> bool
    ensures { result ≡ is_label_lem f.now }
{
    is_dash(f) || (!f.is_empty() && are_literals(f))
}

// The literals of a label: all of it, or none for a dash.
pub fn literals_of(f: &[u8]) -> &[u8]
    ensures { literals false result.now ≡ label_of f.now }
{
    if is_dash(f) { &[] } else { f }
}
