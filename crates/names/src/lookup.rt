// What has been defined so far: events by their names, signals by their letters.
ghost use Rattle.std.specs.Prelude.{◌≡◌, ◌≤◌, ◌<◌, length, take, drop, get_or};
ghost use Rattle.prelude.specs.Options.{option_of};
ghost use Rattle.names.specs.Found.{NamesIn};

use network::Network;

// A sheet and the network of those of its lines that are read, whose events are named by parts of the sheet.
#[derive(Clone, Copy)]
pub struct Defined<'a> {
    pub sheet: &'a [u8],
    pub network: &'a Network,
    pub ghost names: { NamesIn sheet.now network.now },
}

impl<'a> Defined<'a> {
    ghost use Rattle.names.specs.Defined.{event_named, place_of, gives_signal_lem};

    // The name of event u.
    fn name(&self, u: usize) -> &'a [u8]
        requires { u < self.now.network.now.events }
        ensures { result.now ≡ take (get_or self.now.network.now.lengths u 0)
            (drop (get_or self.now.network.now.starts u 0) self.now.sheet.now) }
    {
        self.network.name_in(self.sheet, u)
    }

    // The first event with the name f.
    pub fn event_named(&self, f: &[u8]) -> Option<usize>
        ensures { result ≡ option_of (event_named self.now.sheet.now self.now.network.now.events
            self.now.network.now.starts self.now.network.now.lengths f.now) }
    {
        (0..self.network.events).find(|&u| self.name(u) == f)
    }

    // The letters of the signals.
    fn letters(&self) -> &'a [u8]
        ensures { (result.now ≡ take self.now.network.now.signals self.now.network.now.letters)
            × (self.now.network.now.signals ≤ length self.now.network.now.letters) }
    {
        &self.network.letters[..self.network.signals]
    }

    // The events that give the signals.
    fn observations(&self) -> &'a [usize]
        ensures { (result.now ≡ take self.now.network.now.signals self.now.network.now.observations)
            × (self.now.network.now.signals ≤ length self.now.network.now.observations) }
    {
        &self.network.observations[..self.network.signals]
    }

    // The place of a signal by its letter.
    pub fn place_of(&self, letter: u8) -> Option<usize>
        ensures { result ≡ option_of (place_of self.now.network.now.signals self.now.network.now.letters letter) }
    {
        text::find(self.letters(), letter)
    }

    // Whether one of the signals is given by event u.
    pub fn gives_signal(&self, u: usize) -> bool
        ensures { result ≡ gives_signal_lem self.now.network.now.signals self.now.network.now.observations u }
    {
        self.observations().contains(&u)
    }
}
