// Readers that a ticket may come from.
ghost use Rattle.std.specs.Prelude.{Some};

use std::io;
use std::io::{ErrorKind, Read};

// Gives one byte a call.
#[derive(Drop)]
pub(crate) struct OneByOne<'a> {
    pub(crate) text: &'a [u8],
}

impl Read for OneByOne<'_> {
    ghost use Rattle.std.specs.Prelude.{Some};

    ghost remaining = { λ r. Some r.text.now };

    fn read(&mut self, buf: &mut [u8]) -> io::Result<usize> {
        let most = buf.len().min(1);
        self.text.read(&mut buf[..most])
    }
}

// Gives one byte at every other call, and is interrupted at those between.
#[derive(Drop)]
pub(crate) struct Halting<'a> {
    pub(crate) text: &'a [u8],
    pub(crate) halts: bool,
}

impl Read for Halting<'_> {
    ghost use Rattle.std.specs.Prelude.{Some};

    ghost remaining = { λ r. Some r.text.now };

    fn read(&mut self, buf: &mut [u8]) -> io::Result<usize> {
        self.halts = !self.halts;
        if !self.halts {
            return Err(io::Error::from(ErrorKind::Interrupted));
        }
        let most = buf.len().min(1);
        self.text.read(&mut buf[..most])
    }
}

// Gives so many bytes of a text, seven a call, and then fails once: whoever reads again gets the
// rest.
#[derive(Drop)]
pub(crate) struct Broken<'a> {
    pub(crate) text: &'a [u8],
    pub(crate) left: usize,
}

impl Read for Broken<'_> {
    ghost use Rattle.std.specs.Prelude.{Some};

    ghost remaining = { λ r. Some r.text.now };

    fn read(&mut self, buf: &mut [u8]) -> io::Result<usize> {
        if self.left == 0 {
            self.left = usize::MAX;
            return Err(io::Error::from(ErrorKind::BrokenPipe));
        }
        let most = buf.len().min(self.left).min(7);
        let count = self.text.read(&mut buf[..most])?;
        self.left = self.left.saturating_sub(count);
        Ok(count)
    }
}

// Never ends, and counts what was taken.
#[derive(Drop)]
pub(crate) struct Endless {
    pub(crate) taken: usize,
}

impl Read for Endless {
    fn read(&mut self, buf: &mut [u8]) -> io::Result<usize> {
        buf.fill(b'\n');
        self.taken = self.taken.saturating_add(buf.len());
        Ok(buf.len())
    }
}
