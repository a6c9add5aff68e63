// Up to 64 sets, in the order in which they were kept.
ghost use Rattle.std.specs.Prelude.{◌≤◌, length};
ghost use Rattle.layers.specs.Asked.{most_kept};

use arrayvec::ArrayVec;
use sets::Set;

const MOST: usize = 64;

#[derive(Drop)]
pub struct KeptSets {
    sets: ArrayVec<Set, MOST>,
    ghost few: { length sets.items ≤ most_kept },
}

impl KeptSets {
    // Here, since `kept_list` names `KeptSets`, and what is named above is read before it.
    ghost use Rattle.std.specs.Prelude.{◌≡◌, []};
    ghost use Rattle.sets.specs.Sets.{bits_of};
    ghost use Rattle.layers.specs.Asked.{kept_one};
    ghost use Rattle.layers.specs.Layered.{under_one, over_one};
    ghost use Rattle.layers.specs.Listed.{kept_list};

    pub fn new() -> KeptSets
        ensures { kept_list result ≡ [] }
    {
        KeptSets {
            sets: ArrayVec::new(),
        }
    }

    /// Whether the set is part of a kept one. Two functions for two ways round, since one over a
    /// closure would be no shorter.
    pub fn has_over(&self, set: Set) -> bool
        ensures { result ≡ under_one (bits_of set) (kept_list self.now) }
    {
        self.sets.iter().any(|kept| set.is_part_of(*kept))
    }

    /// Whether the set contains a kept one.
    pub fn has_under(&self, set: Set) -> bool
        ensures { result ≡ over_one (bits_of set) (kept_list self.now) }
    {
        self.sets.iter().any(|kept| kept.is_part_of(set))
    }

    /// Keeps the set, unless there is no room.
    pub fn keep(&mut self, set: Set)
        ensures { kept_list self.new ≡ kept_one (bits_of set) (kept_list self.old) }
    {
        if !self.sets.is_full() {
            self.sets.push(set);
        }
    }
}
