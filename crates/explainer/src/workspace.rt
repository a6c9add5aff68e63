// All memory that an explainer and a run need. Making it can want for memory; an explainer or a run
// that is made of it never does.
ghost use Rattle.std.specs.Prelude.{◌≡◌, ◌≤◌, [], IfOk, vec_capacity};
ghost use Rattle.std.proofs.Props.{props};

use crate::moments::Moment;
use listing::Room;
use std::alloc::{AllocError, Global};

/// Room for the lines of an explainer and its search, and for what is recorded of so many turns.
#[derive(Drop)]
pub struct Workspace {
    pub(crate) room: Room,
    pub(crate) moments: Vec<Moment>,
    pub(crate) turns: usize,
    ghost recorded: { turns ≤ vec_capacity moments },
    ghost empty: { moments.items ≡ [] } by { Prim.hlevel props },
}

impl Workspace {
    /// So many calls of a run can be recorded; an explainer by itself needs none.
    pub fn new(heap: Global, turns: usize) -> Result<Workspace, AllocError>
        ensures { IfOk result (λ w. w.turns ≡ turns) }
    {
        Ok(Workspace {
            room: Room::new(heap)?,
            moments: Vec::with_capacity(heap, turns)?,
            turns,
        })
    }
}
