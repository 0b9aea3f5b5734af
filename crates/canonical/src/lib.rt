// A sheet in its house form, written on a page. Each section has its own function, of the page and of the sheet:
// one is written while the other is read.
#![tactic(auto)]

ghost use Rattle.std.specs.Prelude.{◌≡◌, [], ◌∷◌, map, ◌+◌, ◌≤◌, ◌<◌, length};
ghost use Rattle.prelude.specs.Gather.{ahead};
ghost use Rattle.counted.specs.Values.{values};
ghost use Rattle.text.specs.Lines.{comma, line};
ghost use Rattle.page.specs.Pushed.{Pushed};
ghost use Rattle.page.specs.HandedOut.{HandedOut};
ghost use Rattle.network.specs.Limits as L;
ghost use Rattle.network.specs.WellFormed.{InLimits, Proper};
ghost use Rattle.layout.specs.Layout.{lines, section, signal_line, rule_line, signed_text};
ghost use Rattle.layout.specs.Layout.{label_text, reaction_line, reactions_text, case_line, cases_text};
ghost use Rattle.layout.specs.Most.{most_events, most_signals, most_label, most_rule, most_rules};
ghost use Rattle.layout.specs.Most.{most_reaction, most_reactions, most_case, most_cases, most_form};
ghost use Rattle.tighten.specs.Tightest.{remaining_of};
ghost use Rattle.canonical.specs.Listed.{slow_by, slow_of, labelled_at, labelled_of, section_of, before_labels};
ghost use Rattle.canonical.specs.Asked.{asked, asked_text};
ghost use Rattle.canonical.specs.House.{literals_of, names_of, signals_of, as_rule, as_case, house_text};

use network::accepted::Accepted;
use network::formed::Formed;
use network::{Constraint, Label, Network, times};
use page::Page;
use tighten::UpperBounds;

// No form is longer.
const LONGEST: usize = 3021;

// The events: a name a line. A sheet counts at most 64 of anything, so that this cast and those below lose nothing.
fn push_events(page: &mut Page<LONGEST>, accepted: &Accepted)
    requires { length page.old + most_events ≤ most_form }
    ensures { Pushed most_events page.old
        (section "events" (map (λ n. line n []) (names_of accepted.now.sheet.now accepted.now.formed.network)))
        page.new }
{
    let events = accepted.formed.network.events;
    page.push_count(b"events", events as u16);
    for u in 0..events {
        page.push_all(accepted.name(u));
        page.push(b'\n');
    }
}

// The signals: a letter and its event's name a line. They go by number, since a letter and an event are two arrays.
fn push_signals(page: &mut Page<LONGEST>, accepted: &Accepted)
    requires { length page.old + most_signals ≤ most_form }
    ensures { Pushed most_signals page.old
        (section "signals" (map signal_line (signals_of accepted.now.sheet.now accepted.now.formed.network)))
        page.new }
{
    let network = &accepted.formed.network;
    page.push_count(b"signals", network.signals as u16);
    for p in 0..network.signals {
        page.push(network.letters[p]);
        page.push_field(accepted.name(network.observations[p]));
        page.push(b'\n');
    }
}

// A limit with its sign, behind its comma. Without its sign it is at most 10,080, which fits 16 bits.
fn push_limit(page: &mut Page<LONGEST>, bound: i32)
    requires { InLimits bound × (length page.old + 7 ≤ most_form) }
    ensures { Pushed 7 page.old (comma ∷ signed_text bound) page.new }
{
    page.push(b',');
    if bound < 0 {
        page.push(b'-');
    }
    page.push_number(bound.unsigned_abs() as u16);
}

// What a label asks of signal p, if it does.
fn asked(label: Label, p: usize) -> Option<bool>
    requires { p < L.signals }
    ensures { result ≡ asked label p }
{
    if network::has(usize::from(label.positive), p) {
        return Some(true);
    }
    if network::has(usize::from(label.negative), p) {
        return Some(false);
    }
    None
}

// What a label asks of one letter, if it does.
fn push_literal(page: &mut Page<LONGEST>, letter: u8, truth: Option<bool>)
    requires { length page.old + 2 ≤ most_form }
    ensures { Pushed 2 page.old (asked_text letter truth) page.new }
{
    match truth {
        None => {}
        Some(true) => page.push(letter),
        Some(false) => {
            page.push(b'!');
            page.push(letter);
        }
    }
}

// A label, its letters in signal order.
fn push_label(page: &mut Page<LONGEST>, formed: &Formed, label: Label)
    requires { length page.old + most_label ≤ most_form }
    ensures { Pushed most_label page.old (label_text (literals_of formed.now.network label)) page.new }
{
    let network = &formed.network;
    let before = page.len();
    for (p, &letter) in network.letters[..network.signals].iter().enumerate() {
        push_literal(page, letter, asked(label, p));
    }
    if page.len() == before {
        page.push(b'-');
    }
}

// One upper bound.
fn push_rule(page: &mut Page<LONGEST>, accepted: &Accepted, upper: &Constraint)
    requires { Proper accepted.now.formed.network upper.now × (length page.old + most_rule ≤ most_form) }
    ensures { Pushed most_rule page.old
        (rule_line (as_rule accepted.now.sheet.now accepted.now.formed.network upper.now)) page.new }
{
    page.push_all(b"max");
    page.push_field(accepted.name(upper.from));
    page.push_field(accepted.name(upper.to));
    push_limit(page, upper.bound);
    page.push(b',');
    push_label(page, &accepted.formed, upper.label);
    page.push(b'\n');
}

// The upper bounds that remain.
fn push_rules(page: &mut Page<LONGEST>, accepted: &Accepted, remaining: &UpperBounds)
    requires { (values remaining.now ≡ remaining_of accepted.now.formed.network)
        × (length page.old + most_rules ≤ most_form) }
    ensures { Pushed most_rules page.old (section "rules" (map rule_line
        (map (as_rule accepted.now.sheet.now accepted.now.formed.network) (remaining_of accepted.now.formed.network))))
        page.new }
{
    let uppers = remaining.as_slice();
    page.push_count(b"rules", uppers.len() as u16);
    for upper in uppers {
        push_rule(page, accepted, upper);
    }
}

// How many signals react otherwise than after a minute.
fn slow_count(formed: &Formed) -> usize
    ensures { result ≡ length (slow_of formed.now.network) }
{
    let network = &formed.network;
    network.reactions[..network.signals]
        .iter()
        .filter(|&&stated| times::reaction_of(stated) != Network::FASTEST)
        .count()
}

// A signal's reaction, if it is other than 1.
fn push_reaction(page: &mut Page<LONGEST>, letter: u8, reaction: u16)
    requires { length page.old + most_reaction ≤ most_form }
    ensures { Pushed most_reaction page.old
        (lines (map reaction_line (ahead (slow_by letter reaction) []))) page.new }
{
    if reaction == Network::FASTEST {
        return;
    }
    page.push(letter);
    page.push(b',');
    page.push_number(reaction);
    page.push(b'\n');
}

// The reactions other than 1, where there are any, or where labels are to follow. They go by number, since a letter
// and a reaction are two arrays.
fn push_reactions(page: &mut Page<LONGEST>, formed: &Formed)
    requires { length page.old + most_reactions ≤ most_form }
    ensures { Pushed most_reactions page.old (reactions_text
        (before_labels (length (labelled_of formed.now.network)) (slow_of formed.now.network))) page.new }
{
    let network = &formed.network;
    let count = slow_count(formed);
    if count == 0 && labelled_count(formed) == 0 {
        return;
    }
    page.push_count(b"reactions", count as u16);
    for p in 0..network.signals {
        push_reaction(
            page,
            network.letters[p],
            times::reaction_of(network.reactions[p]),
        );
    }
}

// How many events have a label other than `-`.
fn labelled_count(formed: &Formed) -> usize
    ensures { result ≡ length (labelled_of formed.now.network) }
{
    let network = &formed.network;
    network.labels[..network.events]
        .iter()
        .filter(|&&label| label != Label::DASH)
        .count()
}

// An event's label behind its name, if it is other than `-`.
fn push_case(page: &mut Page<LONGEST>, accepted: &Accepted, u: usize)
    requires { (u < accepted.now.formed.network.events) × (length page.old + most_case ≤ most_form) }
    ensures { Pushed most_case page.old
        (lines (map (λ v. case_line (as_case accepted.now.sheet.now accepted.now.formed.network v))
        (ahead (labelled_at accepted.now.formed.network u) []))) page.new }
{
    let label = accepted.formed.network.labels[u];
    if label == Label::DASH {
        return;
    }
    page.push_all(accepted.name(u));
    page.push(b',');
    push_label(page, &accepted.formed, label);
    page.push(b'\n');
}

// The labels other than `-`, where there are any.
fn push_cases(page: &mut Page<LONGEST>, accepted: &Accepted)
    requires { length page.old + most_cases ≤ most_form }
    ensures { Pushed most_cases page.old (cases_text (section_of (map
        (as_case accepted.now.sheet.now accepted.now.formed.network) (labelled_of accepted.now.formed.network))))
        page.new }
{
    let labelled = labelled_count(&accepted.formed);
    if labelled == 0 {
        return;
    }
    page.push_count(b"cases", labelled as u16);
    for u in 0..accepted.formed.network.events {
        push_case(page, accepted, u);
    }
}

// The form into out: how many bytes were written, or None where out is too short for them.
pub fn write(accepted: &Accepted, out: &mut [u8]) -> Option<usize>
    ensures { HandedOut (house_text accepted.now.sheet.now accepted.now.formed.network) out.old out.new result }
{
    let mut page = Page::<LONGEST>::new();
    page.push_count(b"horizon", accepted.formed.network.horizon);
    push_events(&mut page, accepted);
    push_signals(&mut page, accepted);
    push_rules(&mut page, accepted, &tighten::remaining(&accepted.formed));
    push_reactions(&mut page, &accepted.formed);
    push_cases(&mut page, accepted);
    page.hand_out(out)
}
