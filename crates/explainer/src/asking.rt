// The explainer over one oracle, and its calls.
ghost use Rattle.std.specs.Prelude.{◌≡◌};
ghost use Rattle.sets.specs.Sets.{bits_of};
ghost use Rattle.listing.specs.Listed.{lines_of};
ghost use Rattle.explainer.specs.Moments.{call_of};
ghost use Rattle.explainer.specs.Preferring.{preferring};
ghost use Rattle.explainer.specs.Tallies.{tally_of};

use crate::moments::{Call, Counts, Made, Moment, NextAnswer, NextRefusal};
use crate::progress::{Due, Progress};
use crate::workspace::Workspace;
use listing::{Line, Listing, Room};
use oracle::{CheckRefusal, GrantRefusal, Oracle, Verdict};
use sets::Set;

/// An oracle, and how far its listing has come.
#[derive(Drop)]
pub struct Explainer<O> {
    oracle: O,
    progress: Progress,
}

impl<O: Oracle> Explainer<O> {
    ghost use Rattle.explainer.specs.Calls.{width_of, listing_in, IsNew, NextDone, Does, moment_of};

    /// A new one over an oracle: it has its width, and nothing is listed. All memory that any call
    /// needs is in the workspace.
    pub fn new(workspace: Workspace, oracle: O) -> Explainer<O>
        ensures { IsNew O.meaning oracle result }
    {
        Explainer::over(workspace.room, oracle)
    }

    // The same, of the part of a workspace that it needs.
    pub(crate) fn over(room: Room, oracle: O) -> Explainer<O>
        ensures { IsNew O.meaning oracle result }
    {
        let width = oracle.width();
        Explainer {
            oracle,
            progress: Progress::new(room, width),
        }
    }

    /// The lines, in the order in which they were listed.
    pub fn lines(&self) -> &[Line]
        ensures { result.now ≡ (listing_in self.now).lines }
    {
        self.progress.lines()
    }

    /// The oracle and what is listed, when no further call is to be made.
    pub fn into_parts(self) -> (O, Listing)
        ensures oracle { result.0 ≡ self.oracle }
        ensures listing { lines_of result.1 ≡ (listing_in self).lines }
    {
        (self.oracle, self.progress.into_listing())
    }

    /// How many checks are left; none where they are endless.
    pub fn left(&self) -> Option<u32>
        ensures { result ≡ (O.meaning self.now.oracle).allowance }
    {
        self.oracle.left()
    }

    /// The next line, or that all is listed.
    pub fn next(&mut self) -> Result<NextAnswer, NextRefusal>
        ensures { NextDone preferring O.check_leads self.old result self.new }
    {
        loop {
            match self.progress.due() {
                Due::All => return Ok(NextAnswer::End),
                Due::Full => return Err(NextRefusal::Full),
                Due::List(line) => {
                    self.progress.list(line);
                    return Ok(NextAnswer::Line(line));
                }
                Due::Check(set) => {
                    let verdict = self.oracle.check(set)?;
                    if let Some(line) = self.progress.answered(set, verdict.fit) {
                        return Ok(NextAnswer::Line(line));
                    }
                }
            }
        }
    }

    /// So many checks more.
    pub fn grant(&mut self, checks: u32) -> Result<(), GrantRefusal>
        ensures oracle { O.grant_leads self.old.oracle checks result self.new.oracle }
        ensures listing { self.new.progress ≡ self.old.progress }
    {
        self.oracle.grant(checks)
    }

    /// Whether the requests of a set can be met together. It is not counted, and touches no line.
    pub fn try_set(&mut self, set: Set) -> Result<Verdict, CheckRefusal>
        ensures oracle { O.check_leads self.old.oracle (bits_of set) result self.new.oracle }
        ensures listing { self.new.progress ≡ self.old.progress }
    {
        self.oracle.check(set)
    }

    /// The five numbers.
    pub fn tally(&self) -> Counts
        ensures { result ≡ tally_of (width_of self.now)
            (listing_in self.now).lines (listing_in self.now).checks }
    {
        self.progress.tally()
    }

    /// Any of the calls, and what is recorded of it.
    pub fn make(&mut self, call: Call) -> Moment
        ensures call { call_of result.made ≡ call }
        ensures does { Does preferring O.check_leads O.grant_leads self.old result.made self.new }
        ensures recorded { result ≡ moment_of O.meaning self.old result.made self.new }
    {
        let found = self.left();
        let made = match call {
            Call::Next => Made::Next(self.next()),
            Call::Grant { checks } => Made::Grant {
                checks,
                answer: self.grant(checks),
            },
            Call::Try { set } => Made::Try {
                set,
                answer: self.try_set(set),
            },
            Call::Tally => Made::Tally(self.tally()),
        };
        Moment {
            found,
            made,
            lines: self.lines().len(),
        }
    }
}
