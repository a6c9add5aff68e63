// How far a listing has come: what an explainer holds besides its oracle. It makes no check itself:
// it says which is due, and takes the answer.
ghost use Rattle.std.specs.Prelude.{◌≡◌, ◌≤◌, min};
ghost use Rattle.std.proofs.Props.{props};
ghost use Rattle.sets.specs.Requests.{widest};
ghost use Rattle.sets.specs.Sets.{bits_of};
ghost use Rattle.listing.specs.Sound.{IsSound};
ghost use Rattle.listing.specs.Steps.{start, check, lists, with_line};
ghost use Rattle.listing.specs.Listed.{lines_of};
ghost use Rattle.listing.specs.Searches.{lines_in};
ghost use Rattle.explainer.specs.Opened.{most_halved, state_from};
ghost use Rattle.explainer.specs.Preferring.{preferring};

use crate::moments::Counts;
use crate::tallies::{bound, conflicts, relaxations, sizes};
use arrayvec::ArrayVec;
use listing::{Line, Listing, MOST_LINES, Outcome, Room, Search, halving};
use oracle::WIDEST;
use sets::Set;

// The most answers of a halving: two less than twice the requests of its seed.
const MOST_HALVED: usize = 2 * WIDEST as usize - 2;

// A halving that has no result yet: its seed, and the answers so far. An array, so that no answer
// fails for want of memory.
#[derive(Drop)]
pub(crate) struct OpenHalving {
    seed: Set,
    answers: ArrayVec<bool, MOST_HALVED>,
}

// What NEXT is to do.
#[derive(Clone, Copy, PartialEq, Eq, Debug)]
pub(crate) enum Due {
    // To check a set.
    Check(Set),
    // To list a line.
    List(Line),
    // To answer that all is listed.
    All,
    // To answer that there is no room.
    Full,
}

/// The width and the lines, which are those of the search; how many checks were answered; and an
/// open halving or none.
#[derive(Drop)]
pub struct Progress {
    search: Search,
    checks: usize,
    halving: Option<OpenHalving>,
    ghost sound: { IsSound search.width (state_from (lines_in search) checks halving) } by { Prim.hlevel props },
}

impl Progress {
    ghost use Rattle.explainer.specs.Holding.{state_of, move_of, answered_by, Same};
    ghost use Rattle.explainer.specs.Dues.{due_of};
    ghost use Rattle.explainer.specs.Tallies.{tally_of};

    // Nothing is listed at first. The width is cut at 32.
    pub(crate) fn new(room: Room, width: u32) -> Progress
        ensures width { result.search.width ≡ min width widest }
        ensures state { state_of result ≡ start }
    {
        Progress {
            search: Search::new(room, width),
            checks: 0,
            halving: None,
        }
    }

    // The lines, in the order in which they were listed.
    pub(crate) fn lines(&self) -> &[Line]
        ensures { result.now ≡ (state_of self.now).lines }
    {
        self.search.lines()
    }

    // What is listed, when nothing more is to be.
    pub(crate) fn into_listing(self) -> Listing
        ensures { lines_of result ≡ (state_of self).lines }
    {
        self.search.into_listing()
    }

    // What NEXT is to do: first of all it checks the empty set; it goes on with an open halving;
    // otherwise it checks the seed of the next line.
    pub(crate) fn due(&mut self) -> Due
        ensures due { result ≡ due_of (move_of preferring self.old) }
        ensures same { Same self.old self.new }
    {
        if self.checks == 0 {
            return Due::Check(Set::empty());
        }
        if let Some(open) = &self.halving {
            return match halving(open.seed, open.answers.as_slice()) {
                Outcome::Ask(set) => Due::Check(set),
                Outcome::Done(set) => Due::List(Line::Conflict(set)),
            };
        }
        match self.search.seed() {
            None => Due::All,
            Some(_) if self.search.lines().len() >= MOST_LINES => Due::Full,
            Some(seed) => Due::Check(seed),
        }
    }

    // Lists the line that is due.
    pub(crate) fn list(&mut self, line: Line)
        requires { move_of preferring self.old ≡ lists line }
        ensures width { self.new.search.width ≡ self.old.search.width }
        ensures state { state_of self.new ≡ with_line (state_of self.old) line }
    {
        self.halving = None;
        if self.search.list(line).is_err() {
            unreachable!()
        }
    }

    // Takes the answer to the check that is due: the line that it leads to, if any, is listed.
    pub(crate) fn answered(&mut self, set: Set, fit: bool) -> Option<Line>
        requires { move_of preferring self.old ≡ check (bits_of set) }
        ensures width { self.new.search.width ≡ self.old.search.width }
        ensures state { state_of self.new ≡ (answered_by preferring self.old fit).state }
        ensures line { result ≡ (answered_by preferring self.old fit).line }
    {
        let is_first = self.checks == 0;
        self.checks += 1;
        if let Some(open) = &mut self.halving {
            open.answers.push(fit);
            return None;
        }
        let line = match (is_first, fit) {
            (true, true) => return None,
            (false, false) => {
                self.halving = Some(OpenHalving {
                    seed: set,
                    answers: ArrayVec::new(),
                });
                return None;
            }
            (true, false) => Line::Conflict(set),
            (false, true) => Line::Relaxation(set),
        };
        if self.search.list(line).is_err() {
            unreachable!()
        }
        Some(line)
    }

    // The five numbers.
    pub(crate) fn tally(&self) -> Counts
        ensures { result ≡ tally_of self.now.search.width
            (state_of self.now).lines (state_of self.now).checks }
    {
        let lines = self.search.lines();
        (
            conflicts(lines),
            relaxations(lines),
            sizes(lines),
            self.checks,
            bound(self.search.width(), lines),
        )
    }
}
