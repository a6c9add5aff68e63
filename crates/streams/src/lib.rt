// From a reader to a writer: takes a ticket from the one, and writes its answer to the other.
#![tactic(auto)]

ghost use Rattle.std.specs.Prelude.{IfOk, OnOk, IfErr};
ghost use Rattle.streams.specs.Limit.{most_taken, LimitIsEnough, TakesAtMost};
ghost use Rattle.streams.specs.Written.{WritesAnswer, TellsTruly, TellsFault, WrittenOnError};

mod error;
mod reading;
mod replies;
mod texts;
mod writing;

pub use error::AnswerError;
use reading::{LIMIT, fill};
use replies::reply_to;
use std::alloc::Global;
use std::io::{Read, Write};
use ticket::TicketFault;
use writing::write_through;

/// Reads a ticket to its end, or to one byte more than a ticket may have, and writes its answer.
/// Tells the fault of a ticket that is refused. All room for the ticket is taken before the first
/// read, and all of the answer is made before the first write. Calls that are interrupted are made
/// again. The writer is not flushed.
pub fn answer<R: Read, W: Write>(
    heap: Global,
    reader: &mut R,
    writer: &mut W,
) -> Result<Option<TicketFault>, AnswerError>
    ensures written { OnOk result (WritesAnswer (R.remaining reader.old)
        (W.contents writer.old) (W.contents writer.new)) }
    ensures truly { OnOk result (TellsTruly (R.remaining reader.old)) }
    ensures fault { IfOk result (TellsFault (R.remaining reader.old)) }
    ensures failed { IfErr result (WrittenOnError (R.remaining reader.old)
        (W.contents writer.old) (W.contents writer.new)) }
    ensures taken { TakesAtMost most_taken (R.remaining reader.old) (R.remaining reader.new) }
{
    let mut text = Vec::with_capacity(heap, LIMIT)?;
    fill(reader, &mut text).map_err(AnswerError::Reading)?;
    let reply = reply_to(heap, text)?;
    write_through(writer, reply.text.as_slice()).map_err(AnswerError::Writing)?;
    Ok(reply.fault)
}

/// What is answered to some bytes is answered to as many of them as are read: see specs/Limit.antt.
pub fn limit_is_enough()
    ensures { LimitIsEnough }
{}
