// The bytes of a ticket, from a reader.
ghost use Rattle.std.specs.Prelude.{◌≡◌, ◌<◌, ◌≤◌, [], length, vec_capacity, OnOk};
ghost use Rattle.std.specs.Io.KnownBytes.{Consumes, IsAtEnd};

use std::io;
use std::io::{ErrorKind, Read};
use ticket::LONGEST;

// One byte more than a ticket may have, so that a longer input is seen to be longer.
pub(crate) const LIMIT: usize = LONGEST + 1;

// How much is read at once.
const CHUNK: usize = 1024;

// Reads to the end, or as many bytes as LIMIT. There is room for so many, so no byte that was read
// is lost.
pub(crate) fn fill<R: Read>(reader: &mut R, text: &mut Vec<u8>) -> io::Result<()>
    requires empty { text.old.items ≡ [] }
    requires room { LIMIT ≤ vec_capacity text.old }
    ensures few { length text.new.items ≤ LIMIT }
    ensures taken { Consumes (R.remaining reader.old) (R.remaining reader.new) text.new.items }
    ensures end { OnOk result (length text.new.items < LIMIT → IsAtEnd (R.remaining reader.new)) }
{
    let mut chunk = [0u8; CHUNK];
    for _ in 0..u64::MAX {
        let room = (LIMIT - text.len()).min(CHUNK);
        if room == 0 {
            return Ok(());
        }
        match reader.read(&mut chunk[..room]) {
            Ok(0) => return Ok(()),
            Ok(count) => {
                if text.extend_from_slice(&chunk[..count]).is_err() {
                    unreachable!()
                }
            }
            Err(error) if error.kind() == ErrorKind::Interrupted => {}
            Err(error) => return Err(error),
        }
    }
    Err(io::Error::from(ErrorKind::TimedOut))
}
