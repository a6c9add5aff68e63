// The explainer: it lists the minimal conflicts and the maximal relaxations of any one oracle, a
// line at each NEXT; and what holds of every run of its calls.
#![tactic(auto)]

ghost use Rattle.explainer.specs.Law.{EnoughIs};
ghost use Rattle.explainer.specs.NextLaw.{NextLaw};
ghost use Rattle.explainer.specs.Preferring.{preferring};
ghost use Rattle.explainer.specs.Runs.{LawOfCalls, UntilEndEnds};

mod asking;
mod moments;
mod progress;
mod running;
mod tallies;
mod workspace;

pub use asking::Explainer;
pub use moments::{Call, Counts, Made, Moment, NextAnswer, NextRefusal};
use oracle::Oracle;
pub use running::{Caller, Calls, Ran, UntilEnd, run};
pub use workspace::Workspace;

/// The law of the listing holds of an explainer and its record, whatever calls lead to it, as a
/// theorem over every oracle: see specs/Runs.antt. `run` has it in its contract.
pub fn law_of_calls_holds<O: Oracle>()
    ensures law { LawOfCalls preferring O.meaning O.check_leads O.grant_leads }
    ensures enough { EnoughIs }
{}

/// What a NEXT comes to by itself, from wherever an explainer stands, as a theorem over every
/// oracle: see specs/NextLaw.antt.
pub fn next_law_holds<O: Oracle>()
    ensures { NextLaw preferring O.meaning O.check_leads }
{}

/// NEXT until it answers no line ends within 513 turns, as a theorem over every oracle: see
/// specs/Runs.antt.
pub fn until_end_ends<O: Oracle>()
    ensures { UntilEndEnds preferring O.meaning O.check_leads O.grant_leads }
{}
