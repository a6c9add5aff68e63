// Reads a job ticket from its bytes into a list of rules, or refuses it with number, line and field.
#![tactic(auto)]

ghost use Rattle.ticket.specs.Example.{ReadsA, WritesA};
ghost use Rattle.ticket.specs.EveryRule.{EveryRuleCounts};
ghost use Rattle.ticket.specs.RefusalLaws.{RefusalLaws};

mod entry;
mod fault;
mod lines;
mod reader;
mod ruled;
#[cfg(test)]
mod tests;

pub use fault::TicketFault;
pub use fields::MOST_RULES;
pub use reader::{Header, LONGEST, read};

// The definitions read the worked ticket as they should, and write it again.
pub fn worked_ticket_reads()
    ensures { ReadsA × WritesA }
{}

// No rule that is read counts as blank for an oracle, as a theorem: see specs/EveryRule.antt.
pub fn every_rule_counts()
    ensures { EveryRuleCounts }
{}

/// One refusal, with number, line and field, or an acceptance is true of each text; and a text is
/// refused with number, line and field exactly when that refusal is true of it. When which refusal
/// is true says specs/FirstRefusal.antt, from the text alone; specs/RefusalLaws.antt has the laws.
pub fn refusal_laws_hold()
    ensures { RefusalLaws }
{}
