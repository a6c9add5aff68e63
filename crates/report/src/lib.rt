// The report of a ticket: its pile of oracles, the listing of it, and both as text.
#![tactic(auto)]

ghost use Rattle.report.specs.Exactly.{EveryReportTrue};
ghost use Rattle.report.specs.Named.{NamedCases};

mod explained;
mod piles;
mod texts;

pub use explained::{Answer, explain};
pub use piles::{Below, Pile, pile};
pub use texts::Report;

/// The definitions yield each worked ticket as it should be, by computation: see specs/Named.antt.
pub fn named_cases_hold()
    ensures { NamedCases }
{}

/// What any bytes are answered with is a true report of the ticket that they are, or its refusal:
/// see specs/Exactly.antt.
pub fn every_report_true()
    ensures { EveryReportTrue }
{}
