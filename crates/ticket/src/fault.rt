// Why a ticket is refused. A line's fault goes whole into the ticket's.
ghost use Rattle.std.specs.Prelude.{◌≡◌, Some};
ghost use Rattle.ticket.specs.Refusals.{told};
ghost use Rattle.ticket.specs.Words.{fault_words};
ghost use Rattle.ticket.specs.declared.fault.TicketFault.TheVariants.{Line};

use fields::LineFault;
use std::error::Error;
use std::fmt;

// `Tail` has the number of the line after the last.
#[derive(Clone, Copy, PartialEq, Eq, Debug)]
pub enum TicketFault {
    Long,
    Line(LineFault),
    Tail(usize),
}

// Written out: std derives no `From`, and no contract says what one that `thiserror` derives makes.
impl From<LineFault> for TicketFault {
    ghost from_gives = { λ e r. r ≡ Line e };

    fn from(fault: LineFault) -> TicketFault {
        TicketFault::Line(fault)
    }
}

impl TicketFault {
    // A case that holds a value can have no discriminant, so the numbers stand here.
    pub fn told(self) -> (u32, usize, usize)
        ensures { result ≡ told self }
    {
        match self {
            TicketFault::Long => (1, 0, 0),
            TicketFault::Line(fault) => fault.told(),
            TicketFault::Tail(line) => (9, line, 0),
        }
    }
}

// In words: where the ticket is at fault, and what is wrong there.
impl fmt::Display for TicketFault {
    ghost output = { λ f. Some (fault_words f) };

    fn fmt<W: fmt::Write>(&self, f: &mut fmt::Formatter<W>) -> fmt::Result {
        match *self {
            TicketFault::Long => write!(f, "the ticket has more than 16,384 bytes (LONG)"),
            TicketFault::Line(fault) => write!(f, "{fault}"),
            TicketFault::Tail(line) => {
                write!(
                    f,
                    "line {line}: the ticket has ended, and more bytes follow (TAIL)"
                )
            }
        }
    }
}

impl Error for TicketFault {}
