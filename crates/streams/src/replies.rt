// What is answered to the bytes of a ticket, as text.
ghost use Rattle.std.specs.Prelude.{◌≡◌, OnOk, IfOk};
ghost use Rattle.report.specs.Exactly.{IsReportOf};
ghost use Rattle.report.specs.Explained.{explained};
ghost use Rattle.streams.specs.Faults.{fault_of, fault_told};

use crate::texts::text_of;
use report::{Answer, explain};
use std::alloc::{AllocError, Global};
use ticket::TicketFault;

// The text of an answer, and the fault of a ticket that is refused.
#[derive(Drop)]
pub(crate) struct Reply {
    pub(crate) text: Vec<u8>,
    pub(crate) fault: Option<TicketFault>,
}

// The fault of a ticket that was refused.
fn fault(answer: &Answer) -> Option<TicketFault>
    ensures { result ≡ fault_told answer.now }
{
    match answer {
        Answer::Report(_) => None,
        Answer::Refused(fault) => Some(*fault),
    }
}

// The whole answer, before any of it is written. It is printed into the room of the ticket, which
// is not looked at again.
pub(crate) fn reply_to(heap: Global, ticket: Vec<u8>) -> Result<Reply, AllocError>
    ensures text { IfOk result (λ r. r.text.items ≡ explained ticket.items) }
    ensures fault { IfOk result (λ r. r.fault ≡ fault_of ticket.items) }
    ensures truly { OnOk result (IsReportOf ticket.items (explained ticket.items)) }
{
    let answer = explain(heap, ticket.as_slice())?;
    let fault = fault(&answer);
    let mut room = ticket;
    room.clear();
    let text = text_of(room, &answer)?;
    Ok(Reply { text, fault })
}
