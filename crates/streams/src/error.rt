// Why an answer was not written, or not all of it.
ghost use Rattle.std.specs.Prelude.{◌≡◌};
ghost use Rattle.streams.specs.declared.error.AnswerError.TheVariants.{Memory};

use std::alloc::AllocError;
use std::io;
use thiserror::Error;

/// Why a ticket was not answered, or not in full.
#[derive(Debug, Drop, Error)]
pub enum AnswerError {
    /// There was no memory for the ticket or its answer. Nothing was written.
    #[error("no memory for the answer: {0}")]
    Memory(AllocError),
    /// The reader failed. Nothing was written.
    #[error("cannot read the ticket: {0}")]
    Reading(io::Error),
    /// The writer failed. A beginning of the answer was written, which may be all of it or nothing.
    #[error("cannot write the answer: {0}")]
    Writing(io::Error),
}

// Written out: no contract says what one that `thiserror` derives makes.
impl From<AllocError> for AnswerError {
    ghost from_gives = { λ e r. r ≡ Memory e };

    fn from(error: AllocError) -> AnswerError {
        AnswerError::Memory(error)
    }
}
