// The bytes of an answer, before any of them is written.
ghost use Rattle.std.specs.Prelude.{◌≡◌, [], IfOk};
ghost use Rattle.report.specs.Answered.{answer_text};

use report::Answer;
use std::alloc::AllocError;
use std::fmt;
use std::fmt::{Formatter, Write};

// What has been printed so far. The pieces of a report are mostly a byte or two, so each byte is
// pushed by itself, which is quicker than to copy pieces.
#[derive(Drop)]
struct Printed {
    bytes: Vec<u8>,
}

impl Write for Printed {
    ghost use Rattle.std.specs.Prelude.{◌≡◌, ◌++◌};

    ghost write_str_gives = { λ p bs q. q.bytes.items ≡ p.bytes.items ++ bs };

    fn write_str(&mut self, piece: &str) -> fmt::Result {
        for byte in piece.as_bytes() {
            if self.bytes.push(*byte).is_err() {
                return Err(fmt::Error);
            }
        }
        Ok(())
    }
}

// All of the bytes of an answer, in the room that is handed in. Printing fails only where memory
// does.
pub(crate) fn text_of(room: Vec<u8>, answer: &Answer) -> Result<Vec<u8>, AllocError>
    requires { room.items ≡ [] }
    ensures { IfOk result (λ v. v.items ≡ answer_text answer.now) }
{
    let mut formatter = Formatter::new(Printed { bytes: room });
    match formatter.write(answer) {
        Ok(()) => Ok(formatter.into_inner().bytes),
        Err(_) => Err(AllocError),
    }
}
