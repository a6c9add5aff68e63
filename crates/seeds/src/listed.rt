// A listing made by the seed and by halving alone, of a verdict that is known beforehand.
use listing::{Line, MOST_LINES, Outcome, Room, Search, halving};
use sets::Set;
use std::alloc::{AllocError, Global};

// What tells of each set whether it is fit.
pub trait Verdict {
    fn is_fit(&self, set: Set) -> bool;
}

// A set is fit unless it contains one of these.
#[derive(Drop)]
pub struct Without<'a> {
    pub conflicts: &'a [Set],
}

impl<'a> Verdict for Without<'a> {
    fn is_fit(&self, set: Set) -> bool {
        !self
            .conflicts
            .iter()
            .any(|conflict| conflict.is_part_of(set))
    }
}

// The lines with the search of their seeds, and how many checks they took.
#[derive(Drop)]
pub struct Listed {
    pub search: Search,
    pub checks: u64,
}

// No halving has more answers than this.
const MOST_ANSWERS: u32 = 64;

impl Listed {
    pub fn new(heap: Global, width: u32) -> Result<Listed, AllocError> {
        Ok(Listed {
            search: Search::new(Room::new(heap)?, width),
            checks: 0,
        })
    }

    pub fn check<V: Verdict>(&mut self, verdict: &V, set: Set) -> bool {
        self.checks = self.checks.saturating_add(1);
        verdict.is_fit(set)
    }

    // The part of an unfit seed with which a halving ends; none where it does not end in time,
    // which it always does.
    fn halve<V: Verdict>(
        &mut self,
        heap: Global,
        verdict: &V,
        seed: Set,
    ) -> Result<Option<Set>, AllocError> {
        let mut answers = Vec::new(heap);
        for _ in 0..MOST_ANSWERS {
            match halving(seed, answers.as_slice()) {
                Outcome::Done(set) => return Ok(Some(set)),
                Outcome::Ask(set) => answers.push(self.check(verdict, set))?,
            }
        }
        Ok(None)
    }

    // The line of a seed.
    fn line<V: Verdict>(
        &mut self,
        heap: Global,
        verdict: &V,
        seed: Set,
    ) -> Result<Option<Line>, AllocError> {
        if self.check(verdict, seed) {
            return Ok(Some(Line::Relaxation(seed)));
        }
        Ok(
            self.halve(heap, verdict, seed)?
                .map(|set| Line::Conflict(set)),
        )
    }

    // Lists one line more; tells whether there was one, and room for it.
    pub fn go_on<V: Verdict>(&mut self, heap: Global, verdict: &V) -> Result<bool, AllocError> {
        let Some(next) = self.search.seed() else {
            return Ok(false);
        };
        if self.search.lines().len() >= MOST_LINES {
            return Ok(false);
        }
        match self.line(heap, verdict, next)? {
            Some(line) => Ok(self.search.list(line).is_ok()),
            None => Ok(false),
        }
    }
}

// All lines of a verdict, or the first 512.
pub fn list_all<V: Verdict>(heap: Global, width: u32, verdict: &V) -> Result<Listed, AllocError> {
    let mut made = Listed::new(heap, width)?;
    if !made.check(verdict, Set::empty()) {
        let _ = made.search.list(Line::Conflict(Set::empty()));
    }
    for _ in 0..=MOST_LINES {
        if !made.go_on(heap, verdict)? {
            return Ok(made);
        }
    }
    Ok(made)
}
