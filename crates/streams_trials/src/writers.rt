// Writers that an answer may go to.
use std::io;
use std::io::{ErrorKind, Write};

// Takes three bytes a call at most, and is interrupted at every other call.
#[derive(Drop)]
pub(crate) struct Slow {
    pub(crate) got: Vec<u8>,
    pub(crate) halts: bool,
}

impl Write for Slow {
    ghost use Rattle.std.specs.Prelude.{Some};

    ghost contents = { λ w. Some w.got.items };

    fn write(&mut self, buf: &[u8]) -> io::Result<usize> {
        self.halts = !self.halts;
        if !self.halts {
            return Err(io::Error::from(ErrorKind::Interrupted));
        }
        let most = buf.len().min(3);
        self.got.extend_from_slice(&buf[..most])?;
        Ok(most)
    }

    fn flush(&mut self) -> io::Result<()> {
        Ok(())
    }
}

// Has room for so many bytes. Past it, it fails, or takes nothing, once: whoever writes again finds
// room.
#[derive(Drop)]
pub(crate) struct Narrow {
    pub(crate) got: Vec<u8>,
    pub(crate) room: usize,
    pub(crate) fails: bool,
}

impl Write for Narrow {
    ghost use Rattle.std.specs.Prelude.{Some};

    ghost contents = { λ w. Some w.got.items };

    fn write(&mut self, buf: &[u8]) -> io::Result<usize> {
        if self.room == 0 {
            self.room = usize::MAX;
            if !self.fails {
                return Ok(0);
            }
            return Err(io::Error::from(ErrorKind::StorageFull));
        }
        let most = buf.len().min(self.room);
        self.got.extend_from_slice(&buf[..most])?;
        self.room = self.room.saturating_sub(most);
        Ok(most)
    }

    fn flush(&mut self) -> io::Result<()> {
        Ok(())
    }
}
