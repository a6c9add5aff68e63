// The seed of the next line: the foremost of the sets that no line explores.
ghost use Rattle.std.specs.Prelude.{◌≡◌, ◌≤◌, true, false, Some, min, [], length, vec_len, bit_and, IfOk};
ghost use Rattle.std.proofs.Props.{props};
ghost use Rattle.sets.specs.Members.{none, added_from};
ghost use Rattle.sets.specs.Requests.{widest, Within};
ghost use Rattle.sets.specs.Sets.{bits_of};
ghost use Rattle.listing.specs.Lines.{explored};
ghost use Rattle.listing.specs.Levels.{most_levels};
ghost use Rattle.listing.specs.Listed.{lines_of};
ghost use Rattle.listing.specs.Orders.{keeps_more, NothingBefore};
ghost use Rattle.listing.specs.Deciding.{AreDecided, IsLeft};
ghost use Rattle.listing.specs.Seed.{seed_set};
ghost use Rattle.listing.specs.Settling.{conflicts_of, drops_of, IsBetween, Found};

use crate::lines::{Full, Line, Listing, MOST_LINES};
use crate::settle::{Sets, settle};
use arrayvec::ArrayVec;
use oracle::WIDEST;
use sets::Set;
use std::alloc::{AllocError, Global};

// Whether some line explores the set.
fn is_explored(lines: &[Line], set: Set) -> bool
    ensures { result ≡ explored lines.now (bits_of set) }
{
    lines.iter().any(|line| match line {
        Line::Conflict(conflict) => conflict.is_part_of(set),
        Line::Relaxation(relaxation) => set.is_part_of(*relaxation),
    })
}

// Keeps the listed conflicts that lie within a set.
#[tactic(auto, using(crate::proofs::SeedLists::kept_in_turn))]
fn conflicts_within(lines: &[Line], set: Set, conflicts: &mut Sets)
    requires { length lines.now ≤ MOST_LINES }
    ensures { conflicts.new.items ≡ conflicts_of (bits_of set) lines.now }
{
    conflicts.clear();
    for line in lines {
        if let Line::Conflict(conflict) = line {
            if conflict.is_part_of(set) {
                conflicts.push(*conflict);
            }
        }
    }
}

// Keeps what the listed relaxations that contain the kept requests leave out of the free ones.
#[tactic(auto, using(crate::proofs::SeedLists::kept_in_turn))]
fn drops_beyond(lines: &[Line], kept: Set, free: Set, drops: &mut Sets)
    requires { length lines.now ≤ MOST_LINES }
    ensures { drops.new.items ≡ drops_of (bits_of kept) (bits_of free) lines.now }
{
    drops.clear();
    for line in lines {
        if let Line::Relaxation(relaxation) = line {
            if kept.is_part_of(*relaxation) {
                drops.push(free.minus(*relaxation));
            }
        }
    }
}

// Some unexplored set that has all kept requests, and others only of the free ones; none where
// there is none.
fn find(lines: &[Line], kept: Set, free: Set, levels: &mut [Sets]) -> Option<Set>
    requires few { length lines.now ≤ MOST_LINES }
    requires room { MOST_LEVELS ≤ length levels.old }
    requires apart { bit_and (bits_of kept) (bits_of free) ≡ none }
    ensures { Found lines.now (bits_of kept) (bits_of free) result }
{
    let Some((conflicts, below)) = levels.split_first_mut() else {
        unreachable!()
    };
    let Some((drops, deeper)) = below.split_first_mut() else {
        unreachable!()
    };
    conflicts_within(lines, kept.union(free), conflicts);
    drops_beyond(lines, kept, free, drops);
    let rest = settle(free, conflicts.as_slice(), drops.as_slice(), deeper)?;
    Some(kept.union(rest))
}

// The same where an unexplored set is known that has all kept requests but perhaps this one: that
// set, if it has it; that set with it, if that is unexplored; otherwise what is found.
fn reach(
    lines: &[Line],
    best: Set,
    request: u32,
    kept: Set,
    free: Set,
    levels: &mut [Sets],
) -> Option<Set>
    requires few { length lines.now ≤ MOST_LINES }
    requires room { MOST_LEVELS ≤ length levels.old }
    requires apart { bit_and (bits_of kept) (bits_of free) ≡ none }
    requires between { IsBetween (bits_of kept) (bits_of free) (added_from 1 (bits_of best) request) }
    requires unexplored { explored lines.now (bits_of best) ≡ false }
    ensures { Found lines.now (bits_of kept) (bits_of free) result }
{
    if best.contains(request) {
        return Some(best);
    }
    let wider = best.with(request);
    if is_explored(lines, wider) {
        return find(lines, kept, free, levels);
    }
    Some(wider)
}

/// How many lists a search needs: the conflicts, the drops, and one for each request that is
/// decided.
pub const MOST_LEVELS: usize = WIDEST as usize + 2;

/// All memory that a search takes: room for its lines, and the lists that it works in. Making it
/// can want for memory; a search that is made of it never does.
#[derive(Drop)]
pub struct Room {
    listing: Listing,
    levels: Vec<Sets>,
    ghost empty: { lines_of listing ≡ [] } by { Prim.hlevel props },
    ghost room: { most_levels ≤ vec_len levels },
}

impl Room {
    /// Nothing is listed in it.
    pub fn new(heap: Global) -> Result<Room, AllocError>
        ensures { IfOk result (λ r. lines_of r.listing ≡ []) }
    {
        let mut levels = Vec::with_capacity(heap, MOST_LEVELS)?;
        for _level in 0..MOST_LEVELS {
            levels.push(ArrayVec::new())?;
        }
        Ok(Room {
            listing: Listing::new(heap)?,
            levels,
        })
    }
}

/// The lines listed so far, and the search for the seed of the next. What its lists hold between
/// two searches is open, and nothing depends on it.
#[derive(Drop)]
pub struct Search {
    width: u32,
    listing: Listing,
    // No unexplored set has more keep weight than this: all requests at first, and then the last
    // seed. Lines only explore more, so this stays true.
    top: Set,
    levels: Vec<Sets>,
    ghost narrow: { width ≤ widest },
    ghost room: { most_levels ≤ vec_len levels },
    ghost inside: { Within width (bits_of top) },
    ghost led: { NothingBefore (keeps_more width) width (lines_of listing) (bits_of top) } by { Prim.hlevel props },
}

impl Search {
    ghost use Rattle.listing.specs.Listed.{with_one, room_answer};
    ghost use Rattle.listing.specs.Searches.{lines_in};

    /// Nothing is listed at first. The width is cut at 32.
    pub fn new(room: Room, width: u32) -> Search
        ensures width { result.width ≡ min width widest }
        ensures lines { lines_in result ≡ [] }
    {
        Search {
            width: width.min(WIDEST),
            listing: room.listing,
            top: Set::all(width),
            levels: room.levels,
        }
    }

    pub fn width(&self) -> u32
        ensures { result ≡ self.now.width }
    {
        self.width
    }

    /// The lines, in the order in which they were listed.
    pub fn lines(&self) -> &[Line]
        ensures { result.now ≡ lines_in self.now }
    {
        self.listing.lines()
    }

    /// What is listed, when the search is over.
    pub fn into_listing(self) -> Listing
        ensures { lines_of result ≡ lines_in self }
    {
        let Search { listing, .. } = self;
        listing
    }

    /// Lists a line, unless 512 are listed.
    pub fn list(&mut self, line: Line) -> Result<(), Full>
        ensures width { self.new.width ≡ self.old.width }
        ensures lines { lines_in self.new ≡ with_one (lines_in self.old) line }
        ensures answer { result ≡ room_answer (lines_in self.old) }
    {
        self.listing.list(line)
    }

    /// The unexplored set of greatest keep weight, or none where nothing is left.
    pub fn seed(&mut self) -> Option<Set>
        ensures seed { result ≡ seed_set self.old.width (lines_in self.old) }
        ensures width { self.new.width ≡ self.old.width }
        ensures lines { lines_in self.new ≡ lines_in self.old }
    {
        let next = seed(
            self.width,
            &self.listing,
            self.top,
            self.levels.as_mut_slice(),
        )?;
        self.top = next;
        Some(next)
    }
}

// What is decided of a seed: the requests below the next. It has those of them that are kept; an
// unexplored set is known that has the same of them; and the others, from the next on, are free.
#[derive(Clone, Copy)]
struct Decided {
    next: u32,
    kept: Set,
    free: Set,
    best: Set,
}

// The seed is top, while no line explores it. Otherwise it is left at some request, and what
// follows is decided one by one.
fn seed(width: u32, listing: &Listing, top: Set, levels: &mut [Sets]) -> Option<Set>
    requires narrow { width ≤ widest }
    requires room { MOST_LEVELS ≤ length levels.old }
    requires inside { Within width (bits_of top) }
    requires led { NothingBefore (keeps_more width) width (lines_of listing.now) (bits_of top) }
    ensures { result ≡ seed_set width (lines_of listing.now) }
{
    let lines = listing.lines();
    if !is_explored(lines, top) {
        return Some(top);
    }
    let decided = leave(width, lines, top, levels)?;
    Some(decide(width, lines, decided, levels))
}

// Goes back from the last request: where top has one, whether some unexplored set has the same
// requests before it, but not that one. The first that is found leaves top last, and so keeps most.
fn leave(width: u32, lines: &[Line], top: Set, levels: &mut [Sets]) -> Option<Decided>
    requires narrow { width ≤ widest }
    requires few { length lines.now ≤ MOST_LINES }
    requires room { MOST_LEVELS ≤ length levels.old }
    requires inside { Within width (bits_of top) }
    requires led { NothingBefore (keeps_more width) width lines.now (bits_of top) }
    requires gone { explored lines.now (bits_of top) ≡ true }
    ensures { IsLeft width lines.now result }
{
    let mut kept = top;
    let mut free = Set::empty();
    for after in 0..width {
        let request = width - after;
        if top.contains(request) {
            kept = kept.minus(Set::empty().with(request));
            if let Some(best) = find(lines, kept, free, levels) {
                return Some(Decided {
                    next: request + 1,
                    kept,
                    free,
                    best,
                });
            }
        }
        free = free.with(request);
    }
    None
}

// Each request in turn is kept where some unexplored set has it and all those that were kept
// before. (`..=` would give the last request a proof of its own.)
fn decide(width: u32, lines: &[Line], decided: Decided, levels: &mut [Sets]) -> Set
    requires narrow { width ≤ widest }
    requires few { length lines.now ≤ MOST_LINES }
    requires room { MOST_LEVELS ≤ length levels.old }
    requires decided { AreDecided width lines.now decided }
    ensures { Some result ≡ seed_set width lines.now }
{
    let mut free = decided.free;
    let mut kept = decided.kept;
    let mut best = decided.best;
    for request in decided.next..width + 1 {
        let one = Set::empty().with(request);
        let more = kept.union(one);
        free = free.minus(one);
        if let Some(next) = reach(lines, best, request, more, free, levels) {
            kept = more;
            best = next;
        }
    }
    best
}
