// The bounds of all scenarios.
ghost use Rattle.std.specs.Prelude.{◌-◌};
ghost use Rattle.network.specs.Limits as L;
ghost use Rattle.network.specs.WellFormed.{FewLetters};
ghost use Rattle.bounds.specs.Listed.{NoLonger, Added};

use crate::bound::Bound;
use crate::list::BoundList;
use network::{Label, Network};
use rows::frame::Frame;

// A list for each scenario. Where they hold nothing yet they are written `[BoundList::empty(); Network::CASES]`: a
// function that returned them would cost a copy. So that they hold nothing is asked where they are filled. An array
// with a name, and no struct, since a struct would have to be opened in each clause and at each list.
pub type Lists = [BoundList; Network::CASES];

// One more bound for each scenario in which the label holds. (Lists and frame are two parameters: `Compiled` holds
// both, but promises that the lists are full.)
pub fn add(lists: &mut Lists, frame: &Frame, bound: Bound, label: Label)
    requires { FewLetters label × NoLonger (L.listed - 1) lists.old }
    ensures { Added label bound lists.old lists.new frame.now.scenarios }
{
    for (s, list) in lists[..frame.scenarios].iter_mut().enumerate() {
        if network::satisfies(s, label) {
            list.push(bound);
        }
    }
}
