// A sheet that was read, beside what it was read into: the names of events are parts of it.
ghost use Rattle.std.specs.Prelude.{◌≡◌, ◌≤◌, ◌<◌, length};
ghost use Rattle.network.specs.Build.{name_of_lem};
ghost use Rattle.network.specs.WellFormed.{Named};

use super::formed::Formed;

// A sheet and its network, and that each event's name stands in the sheet.
#[derive(Clone, Copy)]
pub struct Accepted<'a> {
    pub sheet: &'a [u8],
    pub formed: Formed,
    pub ghost named: { Named sheet.now formed.network },
}

impl<'a> Accepted<'a> {
    // The name of event u.
    pub fn name(&self, u: usize) -> &'a [u8]
        requires { u < self.now.formed.network.events }
        ensures { (result.now ≡ name_of_lem self.now.formed.network self.now.sheet.now u) × (length result.now ≤ 8) }
    {
        self.formed.network.name_in(self.sheet, u)
    }
}
