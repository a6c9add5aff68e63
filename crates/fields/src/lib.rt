// One line of a ticket: its text cut into fields, what each field says, and the first that is at fault.
#![tactic(auto)]

ghost use Rattle.fields.specs.Flaws.{FlawLaws};

mod cuts;
mod fault;
mod layout;
mod line;
mod number;
mod value;

pub use cuts::cut;
pub use fault::{FieldFault, Flaw, LineFault};
pub use layout::{Heading, MOST_RULES, Sort};
pub use line::{Form, MOST, Values};
pub use value::Value;

/// A line that is refused has the fault that is told of it, none with a smaller number, and none
/// with this number at an earlier field. A line that is taken has no fault, and its fields say the
/// values that are given, one each. specs/Flaws.antt says when a line has which fault.
pub fn first_flaw_holds()
    ensures { FlawLaws }
{}
