// Listings against trying every set, and the hard families at full size.
use crate::family::{FAMILIES, Family, WIDTH};
use crate::listed::{Verdict, Without, list_all};
use crate::trial::try_all;
use listing::Line;
use sets::Set;
use std::alloc::{AllocError, Global};
use std::io;
use std::process::Abort;

// A verdict on the sets of up to three requests: that on a set is the bit of a table at its number.
#[derive(Clone, Copy)]
struct Table {
    width: u32,
    bits: u32,
}

impl Verdict for Table {
    fn is_fit(&self, set: Set) -> bool {
        (self.bits >> (set.bits() % 32)) % 2 == 1
    }
}

impl Table {
    // Whether every part of a fit set is fit: it is enough to take one request away.
    fn is_lawful(self) -> bool {
        (0..1 << self.width.min(3)).all(|set| {
            (0..3).all(|r| !self.is_fit(Set::new(set)) || self.is_fit(Set::new(set & !(1 << r))))
        })
    }
}

// The listing by the seed and by halving is that by trying, line by line, and takes as many checks.
fn agree<V: Verdict>(
    rt: &impl Abort,
    heap: Global,
    width: u32,
    verdict: &V,
) -> Result<usize, AllocError> {
    let made = list_all(heap, width, verdict)?;
    let tried = try_all(heap, width, verdict)?;
    assert_eq!(rt; made.search.lines(), tried.lines.as_slice());
    assert_eq!(rt; made.checks, tried.checks);
    Ok(made.search.lines().len())
}

// Widths, how many tables each has, and how many of them are lawful.
const WIDTHS: [(u32, u32, u32); 4] = [(0, 2, 2), (1, 4, 3), (2, 16, 6), (3, 256, 20)];

// How many tables are lawful; the listings of those agree.
fn agree_on(rt: &impl Abort, heap: Global, width: u32, tables: u32) -> Result<u32, AllocError> {
    let mut lawful: u32 = 0;
    for bits in 0..tables {
        let table = Table { width, bits };
        if table.is_lawful() {
            agree(rt, heap, width, &table)?;
            lawful = lawful.saturating_add(1);
        }
    }
    Ok(lawful)
}

// All verdicts over up to three requests.
#[test]
fn every_verdict_up_to_three(rt: HostRuntime) -> io::Result<()> {
    for (width, tables, lawful) in WIDTHS {
        let counted = agree_on(&rt, rt.alloc(), width, tables)?;
        assert_eq!(rt; (width, counted), (width, lawful));
    }
    Ok(())
}

// Numbers by lot.
#[derive(Drop)]
struct Lot {
    state: u32,
}

impl Lot {
    fn number(&mut self) -> u32 {
        self.state = self
            .state
            .wrapping_mul(1_664_525)
            .wrapping_add(1_013_904_223);
        self.state >> 16
    }

    // A set of the first requests, up to ten; about three eighths of them are in it.
    fn set(&mut self, width: u32) -> Set {
        let either = self.number() | self.number();
        Set::new(either & self.number() & ((1 << width.min(10)) - 1))
    }

    fn sets(&mut self, heap: Global, count: u32, width: u32) -> Result<Vec<Set>, AllocError> {
        let mut sets = Vec::new(heap);
        for _ in 0..count {
            sets.push(self.set(width))?;
        }
        Ok(sets)
    }
}

// Verdicts by lot over four to ten requests: their listings agree, and have over a thousand lines together.
#[test]
fn verdicts_by_lot(rt: HostRuntime) -> io::Result<()> {
    let mut lot = Lot { state: 7 };
    let mut lines: usize = 0;
    for i in 0..140 {
        let width = 4 + i % 7;
        let conflicts = lot.sets(rt.alloc(), 1 + i % 20, width)?;
        let verdict = Without {
            conflicts: conflicts.as_slice(),
        };
        lines = lines.saturating_add(agree(&rt, rt.alloc(), width, &verdict)?);
    }
    assert_eq!(rt; (lines, 1_000 < lines), (lines, true));
    Ok(())
}

// How many conflicts and relaxations of each family are listed: all, or the first 512 lines.
const COUNTS: [(Family, usize, usize); 8] = [
    (Family::PairsLast, 9, 503),
    (Family::PairsFirst, 9, 503),
    (Family::Nested, 9, 503),
    (Family::Triples, 5, 243),
    (Family::Planes, 21, 343),
    (Family::Star, 20, 256),
    (Family::Rings, 4, 508),
    (Family::Pool, 34, 5),
];

fn is_conflict(line: &Line) -> bool {
    match line {
        Line::Conflict(_) => true,
        Line::Relaxation(_) => false,
    }
}

// The keep weight of a line's set, if it is a relaxation: of 32 requests it is the number with the bits the other way round.
fn weight(line: &Line) -> Option<u32> {
    match line {
        Line::Conflict(_) => None,
        Line::Relaxation(set) => Some(set.bits().reverse_bits()),
    }
}

// Whether a line is one of the conflicts, or a fit set that no request can be added to.
fn is_due(conflicts: &[Set], line: &Line) -> bool {
    let verdict = Without { conflicts };
    match line {
        Line::Conflict(set) => conflicts.contains(set),
        Line::Relaxation(set) => {
            verdict.is_fit(*set)
                && (1..=32).all(|r| set.contains(r) || !verdict.is_fit(set.with(r)))
        }
    }
}

// Whether the relaxations fall, and so none of them stands twice.
fn falls(lines: &[Line]) -> bool {
    let mut last = None;
    for line in lines {
        if let Some(next) = weight(line) {
            if last.is_some_and(|least| least <= next) {
                return false;
            }
            last = Some(next);
        }
    }
    true
}

#[test]
fn families_are_listed(rt: HostRuntime) -> io::Result<()> {
    for (family, few, many) in COUNTS {
        let conflicts = family.conflicts(rt.alloc())?;
        let verdict = Without {
            conflicts: conflicts.as_slice(),
        };
        let made = list_all(rt.alloc(), WIDTH, &verdict)?;
        let lines = made.search.lines();
        let count = lines.iter().filter(|line| is_conflict(line)).count();
        assert_eq!(rt; (family, count, lines.len()), (family, few, few + many));
        let due = lines.iter().all(|line| is_due(conflicts.as_slice(), line));
        assert_eq!(rt; (family, due, falls(lines)), (family, true, true));
    }
    Ok(())
}

// Each conflict of a family is listed, so none stands twice where there are as many; and the one of least number comes first.
#[test]
fn conflicts_of_families(rt: HostRuntime) -> io::Result<()> {
    for family in FAMILIES {
        let conflicts = family.conflicts(rt.alloc())?;
        let verdict = Without {
            conflicts: conflicts.as_slice(),
        };
        let made = list_all(rt.alloc(), WIDTH, &verdict)?;
        let lines = made.search.lines();
        let all = conflicts
            .iter()
            .all(|set| lines.contains(&Line::Conflict(*set)));
        let first = lines.iter().find(|line| is_conflict(line)).copied();
        let least = conflicts.iter().map(|set| set.bits()).min();
        assert_eq!(rt;
            (family, all, first),
            (
                family,
                true,
                least.map(|bits| Line::Conflict(Set::new(bits)))
            )
        );
    }
    Ok(())
}

// The request that stands so many places before the last of a set, alone.
fn from_the_end(set: Set, places: u64) -> Set {
    let mut left = places;
    for request in (1..=32).rev() {
        if set.contains(request) {
            if left == 0 {
                return Set::empty().with(request);
            }
            left -= 1;
        }
    }
    Set::empty()
}

// Of conflicts that have no request in common, the relaxation at a place, counted from nought: each leaves out one request of every conflict, and the places count up like a number
// with a digit for each conflict, which says how far from its end the one that is left out stands.
fn at_place(conflicts: &[Set], place: u64) -> Set {
    let mut kept = Set::all(WIDTH);
    let mut rest = place;
    for conflict in conflicts.iter().rev() {
        let size = u64::from(conflict.len().max(1));
        kept = kept.minus(from_the_end(*conflict, rest % size));
        rest /= size;
    }
    kept
}

// Each relaxation of a listing stands at its place.
fn in_places(rt: &impl Abort, family: Family, conflicts: &[Set], lines: &[Line]) {
    let mut place: u64 = 0;
    for line in lines {
        if let Line::Relaxation(set) = line {
            assert_eq!(rt;
                (family, place, *set),
                (family, place, at_place(conflicts, place))
            );
            place = place.saturating_add(1);
        }
    }
}

// Where a family has more lines than there is room for, none of the first is left out.
#[test]
fn none_is_skipped(rt: HostRuntime) -> io::Result<()> {
    for family in [
        Family::PairsLast,
        Family::PairsFirst,
        Family::Nested,
        Family::Rings,
    ] {
        let conflicts = family.conflicts(rt.alloc())?;
        let verdict = Without {
            conflicts: conflicts.as_slice(),
        };
        let made = list_all(rt.alloc(), WIDTH, &verdict)?;
        in_places(&rt, family, conflicts.as_slice(), made.search.lines());
    }
    Ok(())
}
