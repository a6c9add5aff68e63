// The parts of a listing: its lines, the seed of the next one, and halving; and what holds of every
// listing.
#![tactic(auto)]

ghost use Rattle.listing.specs.Bill.{BillLaws};
ghost use Rattle.listing.specs.Example.{ExampleIsListed};
ghost use Rattle.listing.specs.HalvingLaws.{HalvingLaws};
ghost use Rattle.listing.specs.LineLaws.{LineLaws};
ghost use Rattle.listing.specs.OrderLaws.{OrderLaws};
ghost use Rattle.listing.specs.RunLaws.{RunLaws};
ghost use Rattle.listing.specs.Sound.{SoundLaws};

mod halves;
mod lines;
mod seeds;
mod settle;

pub use halves::{Outcome, halving};
pub use lines::{Full, Line, Listing, MOST_LINES};
pub use seeds::{Room, Search};

// Keep weight is an order, and the foremost unexplored set is what it should be in any order, as a
// theorem: see specs/OrderLaws.antt.
pub fn order_laws_hold()
    ensures { OrderLaws }
{}

// What holds of true lines, as a theorem: see specs/LineLaws.antt.
pub fn line_laws_hold()
    ensures { LineLaws }
{}

// What holds of every halving, as a theorem: see specs/HalvingLaws.antt.
pub fn halving_laws_hold()
    ensures { HalvingLaws }
{}

// What the bound on the checks rests on, as a theorem: see specs/Bill.antt.
pub fn bill_laws_hold()
    ensures { BillLaws }
{}

// What holds of a state whatever the checks answer, as a theorem: see specs/Sound.antt.
pub fn sound_laws_hold()
    ensures { SoundLaws }
{}

// The law of every run of the steps, as a theorem: see specs/RunLaws.antt.
pub fn run_laws_hold()
    ensures { RunLaws }
{}

// The steps list the worked example as they should, by computation: see specs/Example.antt.
pub fn example_is_listed()
    ensures { ExampleIsListed }
{}
