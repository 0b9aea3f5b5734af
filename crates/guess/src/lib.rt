// How periods are guessed. A guess is tested before it is used, so nothing is promised of it but that its numbers are
// small and that the cell it watches is one of a table's; what is written here decides how soon and how often rounds
// are passed over, and nothing else.
#![tactic(auto)]

ghost use Rattle.std.specs.Prelude.{◌≡◌, ◌-◌, ◌≤◌, ◌<◌, length};
ghost use Rattle.network.specs.Limits as L;

use network::Network;

// The longest horizon, by a cast, since `From` can't be called in a constant.
const LONGEST: u32 = Network::HORIZON as u32;

// A turn of the run: which it is, and the times before and after its round.
#[derive(Clone, Copy)]
pub struct Turn<'a> {
    pub number: u32,
    pub before: &'a [u16],
    pub after: &'a [u16],
    pub ghost sized: { (length before.now ≤ L.cells) × (length after.now ≡ length before.now) },
}

impl Turn<'_> {
    // Whether its round raised as mark says.
    fn is_alike(&self, mark: &[u16; Network::CELLS]) -> bool {
        let times = self.before.iter().zip(self.after);
        times.zip(mark).all(|((before, after), rise)| after.wrapping_sub(*before) == *rise)
    }
}

// What is to be done after a turn: to go on; to keep the table as the one that periods are counted from; to try a leap.
#[derive(Clone, Copy, PartialEq, Eq)]
pub enum Next {
    GoOn,
    Keep,
    Leap,
}

// A round that raises as the marked one did ends a period. From turn `from` on a round is marked, by its rises, and
// another after `window` rounds in which none was alike.
#[derive(Clone, Copy)]
pub struct Watch {
    from: u32,
    window: u32,
    mark: Option<[u16; Network::CELLS]>,
}

impl Watch {
    // Sheets that take fewer rounds are not watched.
    pub fn new() -> Self {
        Watch {
            from: 64,
            window: 32,
            mark: None,
        }
    }

    // Sees a turn, after which so many rounds are made, `age` of them since the table was kept.
    pub fn see(&mut self, turn: &Turn<'_>, rounds: u32, age: u32) -> Next {
        if turn.number < self.from {
            return Next::GoOn;
        }
        if let Some(mark) = &self.mark {
            if turn.is_alike(mark) {
                return if is_short(age, rounds) {
                    Next::Leap
                } else {
                    Next::Keep
                };
            }
            if age <= self.window {
                return Next::GoOn;
            }
            self.window = self.window.wrapping_add(self.window);
        }
        self.mark = Some(moves::rise(turn.before, turn.after));
        Next::Keep
    }

    // Watches anew after a leap was tried, which passed over `made` rounds: at once, or half as many turns later if
    // none was passed over.
    pub fn tried(&mut self, turns: u32, made: u32) {
        *self = Watch {
            from: if made == 0 {
                turns.wrapping_add(turns / 2)
            } else {
                turns
            },
            ..Watch::new()
        };
    }
}

// Whether a period is short enough to be tested: at most a sixth of the rounds made.
fn is_short(p: u32, rounds: u32) -> bool {
    0 < p && p <= rounds / 6
}

// How the counts of moves that are tried go: the first; then twice as many each time; then half as many.
#[derive(Clone, Copy, PartialEq, Eq)]
enum Course {
    First,
    Up,
    Down,
}

// Which counts of moves are tried: first the most that the horizon allows; if that is too many, few, and twice as
// many as long as they hold; then half as many each time.
#[derive(Clone, Copy)]
pub struct Tries {
    pub moves: u32,
    course: Course,
    pub ghost small: { moves ≤ L.horizon },
}

impl Tries {
    // First the most.
    pub fn new(most: u32) -> Self
        requires { most ≤ L.horizon }
    {
        Tries {
            moves: most,
            course: Course::First,
        }
    }

    // The next count, after one that held or did not.
    pub fn next(self, held: bool) -> Self {
        match (self.course, held) {
            // Few, and at most half as many.
            (Course::First, false) => Tries {
                moves: (self.moves / 2).min(4),
                course: Course::Up,
            },
            (Course::Up, true) => Tries {
                moves: (2 * self.moves).min(LONGEST),
                course: Course::Up,
            },
            _ => Tries {
                moves: self.moves / 2,
                course: Course::Down,
            },
        }
    }
}

// How often a cell has risen since the turn of its first rise.
#[derive(Clone, Copy)]
struct Climb {
    rises: u32,
    start: u32,
}

// A cell of a table, by its place. (A struct of its own, since a table that stands beside a fact, as `since` would in
// `Pace`, can't be lent.)
#[derive(Clone, Copy)]
struct Cell {
    place: usize,
    pub ghost in_table: { place < L.cells },
}

// The pace of the fastest times: the cell whose time is the latest is watched until it has risen as often as is
// wanted, or until the turn `until`, when another is chosen. Its first rise made the table `since`.
#[derive(Clone, Copy)]
pub struct Pace {
    cell: Cell,
    want: u32,
    until: u32,
    climb: Option<Climb>,
    pub since: [u16; Network::CELLS],
}

impl Pace {
    // Event 0 does not rise, so nothing is told before another cell is chosen.
    pub fn new() -> Self {
        Pace {
            cell: Cell { place: 0 },
            want: 16,
            until: 1024,
            climb: None,
            since: [0; Network::CELLS],
        }
    }

    // Follows a turn: how many turns the rises took, if they were the last that were wanted and it is no long period
    // for the turns made.
    pub fn follow(&mut self, turn: &Turn<'_>) -> Option<u32> {
        if self.until < turn.number {
            self.choose(turn);
            return None;
        }
        let place = self.cell.place;
        if turn.after.get(place) <= turn.before.get(place) {
            return None;
        }
        match self.climb {
            None => {
                moves::copy(turn.after, &mut self.since);
                self.climb = Some(Climb {
                    rises: 1,
                    start: turn.number,
                });
                None
            }
            Some(climb) if climb.rises < self.want => {
                self.climb = Some(Climb {
                    rises: climb.rises.wrapping_add(1),
                    ..climb
                });
                None
            }
            Some(climb) => {
                self.choose(turn);
                let period = turn.number.wrapping_sub(climb.start);
                // A period that is long for the turns made is watched again.
                if turn.number / 8 < period {
                    return None;
                }
                self.want = self.want.wrapping_add(self.want);
                Some(period)
            }
        }
    }

    // Chooses the latest cell.
    fn choose(&mut self, turn: &Turn<'_>) {
        self.cell = Cell {
            place: latest(turn.after),
        };
        self.until = turn.number.wrapping_add(turn.number);
        self.climb = None;
    }
}

// Where the latest time is; the first place, if there are several. The table of a sheet has a cell, so 0 is never the
// answer of none.
fn latest(t: &[u16]) -> usize
    ensures { result ≤ length t.now - 1 }
{
    let places = t.iter().enumerate().rev();
    places
        .max_by_key(|(_, time)| **time)
        .map_or(0, |(place, _)| place)
}

// How often the rises d may be added to t, and once more within the horizon, by at most so many rounds, p each time.
pub fn most(t: &[u16], d: &[u16], horizon: u16, p: u32, left: u32) -> u32
    ensures { result ≤ L.horizon }
{
    // How often p rounds are among those left.
    let most = left.checked_div(p).unwrap_or(0).min(LONGEST);
    let times = t
        .iter()
        .zip(d)
        .filter_map(|(t, d)| horizon.saturating_sub(*t).checked_div(*d));
    times
        .min()
        .map_or(most, |least| most.min(u32::from(least.saturating_sub(1))))
}

// The highest rise below the limit.
pub fn highest_below(d: &[u16], limit: u16) -> Option<u16> {
    d.iter().copied().filter(|rise| *rise < limit).max()
}

// A rise and one more, if it is not 0: cells that have another period may rise once more in some p rounds than in
// others.
pub fn margin(m: u16) -> u16
    ensures { result ≤ L.horizon }
{
    if m == 0 {
        return 0;
    }
    m.saturating_add(1).min(Network::HORIZON)
}
