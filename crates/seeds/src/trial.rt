// A listing by trying every set: the foremost unexplored one, and the least part to blame, each found by going over all of them.
use crate::listed::Verdict;
use listing::Line;
use sets::Set;
use std::alloc::{AllocError, Global};

// The lines, and how many checks they took.
#[derive(Drop)]
pub struct Tried {
    pub lines: Vec<Line>,
    pub checks: u64,
}

// Whether a line leaves a set unexplored.
fn leaves(line: &Line, bits: u32) -> bool {
    match line {
        Line::Conflict(conflict) => conflict.bits() & bits != conflict.bits(),
        Line::Relaxation(relaxation) => relaxation.bits() & bits != bits,
    }
}

// The set whose bits, read from request 1 on, are those of a number of so many bits: greater numbers keep more.
fn by_keep(width: u32, number: u32) -> u32 {
    let mut bits = 0;
    for i in 0..width.min(32) {
        if (number >> i) % 2 == 1 {
            bits |= 1 << (width.min(32) - 1 - i);
        }
    }
    bits
}

// The unexplored set that keeps most.
fn foremost(width: u32, lines: &[Line]) -> Option<u32> {
    (0..1 << width.min(10))
        .rev()
        .map(|number| by_keep(width, number))
        .find(|bits| lines.iter().all(|line| leaves(line, *bits)))
}

// The first unfit part of a set by number.
fn blamed<V: Verdict>(verdict: &V, whole: u32) -> Option<u32> {
    (0..=whole)
        .filter(|bits| bits & whole == *bits)
        .find(|bits| !verdict.is_fit(Set::new(*bits)))
}

// The first members of a set, half of them.
fn lower(set: u32) -> u32 {
    let mut half = 0_u32;
    for i in 0..32_u32 {
        let bit = set & (1_u32 << i);
        if half.count_ones() < set.count_ones() / 2 {
            half |= bit;
        }
    }
    half
}

// How many checks a halving takes, and what it ends with: the method as a recursion that checks.
fn halve<V: Verdict>(verdict: &V, depth: u32, held: u32, added: u32, part: u32) -> (u64, u32) {
    if added != 0 && !verdict.is_fit(Set::new(held)) {
        return (1, 0);
    }
    let own = u64::from(added != 0);
    if depth == 0 || part.count_ones() <= 1 {
        return (own, part);
    }
    let first = lower(part);
    let second = part & !first;
    let (two, upper) = halve(verdict, depth - 1, held | first, first, second);
    let (one, below) = halve(verdict, depth - 1, held | upper, upper, first);
    (own.saturating_add(one).saturating_add(two), below | upper)
}

impl Tried {
    pub fn new(heap: Global) -> Tried {
        Tried {
            lines: Vec::new(heap),
            checks: 1,
        }
    }

    // One line more; none where nothing is unexplored, or where the two ways to what is to blame do not agree.
    fn go_on<V: Verdict>(&mut self, width: u32, verdict: &V) -> Option<Line> {
        let seed = foremost(width, self.lines.as_slice())?;
        self.checks = self.checks.saturating_add(1);
        if verdict.is_fit(Set::new(seed)) {
            return Some(Line::Relaxation(Set::new(seed)));
        }
        let (checks, result) = halve(verdict, 5, 0, 0, seed);
        self.checks = self.checks.saturating_add(checks);
        if blamed(verdict, seed) != Some(result) {
            return None;
        }
        Some(Line::Conflict(Set::new(result)))
    }

    fn push(&mut self, line: Option<Line>) -> Result<bool, AllocError> {
        match line {
            Some(line) => {
                self.lines.push(line)?;
                Ok(true)
            }
            None => Ok(false),
        }
    }
}

// All lines of a verdict over a few requests.
pub fn try_all<V: Verdict>(heap: Global, width: u32, verdict: &V) -> Result<Tried, AllocError> {
    let mut tried = Tried::new(heap);
    if !verdict.is_fit(Set::empty()) {
        tried.push(Some(Line::Conflict(Set::empty())))?;
    }
    for _ in 0..1024 {
        let line = tried.go_on(width, verdict);
        if !tried.push(line)? {
            return Ok(tried);
        }
    }
    Ok(tried)
}
