// The lines of a listing.
ghost use Rattle.std.specs.Prelude.{◌≡◌, ◌≤◌, [], IfOk, vec_len, vec_capacity};
ghost use Rattle.listing.specs.Lines.{most_lines};

use sets::Set;
use std::alloc::{AllocError, Global};

// A line names a conflict or a relaxation.
#[derive(Clone, Copy, PartialEq, Eq, Debug)]
pub enum Line {
    // A set that cannot be met together.
    Conflict(Set),
    // A set that can.
    Relaxation(Set),
}

// The most lines of a listing.
pub const MOST_LINES: usize = 512;

// That there is no room for a further line.
#[derive(Clone, Copy, PartialEq, Eq, Debug)]
pub struct Full;

// The lines of a listing, in the order in which they were listed, with room for all of them from the start.
#[derive(Drop)]
pub struct Listing {
    lines: Vec<Line>,
    ghost few: { vec_len lines ≤ most_lines },
    ghost room: { most_lines ≤ vec_capacity lines },
}

impl Listing {
    ghost use Rattle.listing.specs.Listed.{lines_of, with_one, room_answer};

    pub fn new(heap: Global) -> Result<Listing, AllocError>
        ensures { IfOk result (λ l. lines_of l ≡ []) }
    {
        Ok(Listing {
            lines: Vec::with_capacity(heap, MOST_LINES)?,
        })
    }

    pub fn lines(&self) -> &[Line]
        ensures { result.now ≡ lines_of self.now }
    {
        self.lines.as_slice()
    }

    // Lists a line, unless 512 are listed.
    pub fn list(&mut self, line: Line) -> Result<(), Full>
        ensures lines { lines_of self.new ≡ with_one (lines_of self.old) line }
        ensures answer { result ≡ room_answer (lines_of self.old) }
    {
        if self.lines.len() >= MOST_LINES {
            return Err(Full);
        }
        match self.lines.push(line) {
            Ok(()) => Ok(()),
            Err(_) => unreachable!(),
        }
    }
}
