// A listing by trying every set, over a table of verdicts. It is written from docs/LISTING.md, and shares no step with the explainer.
use listing::Line;
use sets::Set;
use std::alloc::{AllocError, Global};
use std::ops::Range;

// The most requests of a table.
pub const MOST: u32 = 8;

const SETS: usize = 256;

// Of each set of a few requests, by its number, whether it is fit.
#[derive(Clone, Copy)]
pub struct Table {
    width: u32,
    fits: [bool; SETS],
}

impl Table {
    // No set is fit at first.
    pub fn new(width: u32) -> Table {
        Table {
            width: width.min(MOST),
            fits: [false; SETS],
        }
    }

    // Puts a set down as fit or unfit.
    pub fn put(&mut self, bits: u32, fit: bool) {
        if let Some(entry) = self.fits.get_mut(bits as usize) {
            *entry = fit;
        }
    }

    // The numbers of all sets within the width.
    pub fn sets(&self) -> Range<u32> {
        0..1 << self.width.min(MOST)
    }

    pub fn is_fit(&self, bits: u32) -> bool {
        self.fits.get(bits as usize).is_some_and(|fit| *fit)
    }

    // Unfit, and fit whichever request is taken away.
    fn is_minimal(&self, bits: u32) -> bool {
        !self.is_fit(bits)
            && (0..MOST).all(|i| bits & (1 << i) == 0 || self.is_fit(bits & !(1 << i)))
    }

    // Fit, and unfit whichever request of the ticket is added.
    fn is_maximal(&self, bits: u32) -> bool {
        self.is_fit(bits)
            && (0..self.width.min(MOST)).all(|i| bits & (1 << i) != 0
                || !self.is_fit(bits | (1 << i)))
    }

    // Whether every minimal conflict and every maximal relaxation is listed, and nothing else, nor anything twice.
    pub fn is_whole(&self, lines: &[Line]) -> bool {
        let conflicts = self.sets().filter(|bits| self.is_minimal(*bits)).count();
        let relaxations = self.sets().filter(|bits| self.is_maximal(*bits)).count();
        let all = self.sets().all(|bits| {
            (!self.is_minimal(bits) || lines.contains(&Line::Conflict(Set::new(bits))))
                && (!self.is_maximal(bits) || lines.contains(&Line::Relaxation(Set::new(bits))))
        });
        all && lines.len() == conflicts.saturating_add(relaxations)
    }

    // The unfit set of least number.
    pub fn least_unfit(&self) -> Option<u32> {
        self.sets().find(|bits| !self.is_fit(*bits))
    }

    // The unfit part of a set that has the least number.
    fn blamed(&self, whole: u32) -> Option<u32> {
        self.sets()
            .find(|bits| bits & whole == *bits && !self.is_fit(*bits))
    }

    // The unexplored set of greatest keep weight.
    fn seed(&self, lines: &[Line]) -> Option<u32> {
        self.sets()
            .filter(|bits| lines.iter().all(|line| leaves(line, *bits)))
            .max_by_key(|bits| keep_weight(self.width, *bits))
    }

    // The line after these; none where nothing is unexplored.
    fn next(&self, lines: &[Line]) -> Option<Line> {
        if lines.is_empty() && !self.is_fit(0) {
            return Some(Line::Conflict(Set::new(0)));
        }
        let seed = self.seed(lines)?;
        if self.is_fit(seed) {
            return Some(Line::Relaxation(Set::new(seed)));
        }
        Some(Line::Conflict(Set::new(self.blamed(seed)?)))
    }

    // All lines.
    pub fn listed(&self, heap: Global) -> Result<Vec<Line>, AllocError> {
        let mut lines = Vec::new(heap);
        for _ in 0..SETS {
            let Some(line) = self.next(lines.as_slice()) else {
                break;
            };
            lines.push(line)?;
        }
        Ok(lines)
    }
}

// Whether a line leaves a set unexplored: it contains no conflict, and is part of no relaxation.
fn leaves(line: &Line, bits: u32) -> bool {
    match line {
        Line::Conflict(conflict) => conflict.bits() & bits != conflict.bits(),
        Line::Relaxation(relaxation) => relaxation.bits() & bits != bits,
    }
}

// Request r of so many counts 2^(width - r).
pub fn keep_weight(width: u32, bits: u32) -> u64 {
    let mut weight = 0_u64;
    for r in 1..=width.min(32) {
        if (bits >> (r - 1)) % 2 == 1 {
            weight = weight.saturating_add(1 << (width.min(32) - r));
        }
    }
    weight
}

// Whether the relaxations fall in keep weight.
pub fn falls(width: u32, lines: &[Line]) -> bool {
    let mut last = u64::MAX;
    for line in lines {
        if let Line::Relaxation(set) = line {
            let weight = keep_weight(width, set.bits());
            if last <= weight {
                return false;
            }
            last = weight;
        }
    }
    true
}

pub fn is_conflict(line: &Line) -> bool {
    matches!(line, Line::Conflict(_))
}

// How many requests the listed conflicts have, added up.
pub fn sizes(lines: &[Line]) -> usize {
    let mut total: usize = 0;
    for line in lines {
        if let Line::Conflict(set) = line {
            total = total.saturating_add(set.bits().count_ones() as usize);
        }
    }
    total
}

// How many times in a row so many requests can be halved until each part has one, for 0 to 8 of them.
const DEPTHS: [usize; 9] = [0, 0, 1, 2, 2, 3, 3, 3, 3];

// One check for the empty set, one for each line, and two at each depth for each request of a conflict.
pub fn bound(width: u32, lines: &[Line]) -> usize {
    let depth = DEPTHS.get(width as usize).copied().unwrap_or(5);
    lines
        .len()
        .saturating_add(1)
        .saturating_add(sizes(lines).saturating_mul(2).saturating_mul(depth))
}
