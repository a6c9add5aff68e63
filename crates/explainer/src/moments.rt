// The calls, what they answer, and what is recorded of each.
ghost use Rattle.std.specs.Prelude.{◌≡◌, Some};
ghost use Rattle.oracle.specs.Refused.{check_tells, at_most_one};
ghost use Rattle.explainer.specs.Refused.{next_tells};
ghost use Rattle.explainer.specs.Words.{next_words};

use listing::Line;
use oracle::{CheckRefusal, GrantRefusal, Verdict};
use sets::Set;
use std::error::Error;
use std::fmt;

/// What a NEXT answers that is not refused.
#[derive(Clone, Copy, PartialEq, Eq, Debug)]
pub enum NextAnswer {
    // A further line, which is listed now.
    Line(Line),
    // Every minimal conflict and every maximal relaxation is listed.
    End,
}

/// Why a NEXT is refused.
#[derive(Clone, Copy, PartialEq, Eq, Debug)]
pub enum NextRefusal {
    // A set that is due has a request above the width of the oracle. No NEXT of a run answers this.
    Outside,
    // There is no room for a further line.
    Full,
    // No check is left; the label is that of whoever counts them.
    Spent { label: u8 },
}

impl NextRefusal {
    /// A case that holds a value can have no discriminant, so the numbers stand here.
    pub fn number(self) -> u32
        ensures { result ≡ (next_tells self).0 }
    {
        match self {
            NextRefusal::Outside => 10,
            NextRefusal::Full => 12,
            NextRefusal::Spent { label: _ } => 13,
        }
    }

    /// The label that is told, if any.
    pub fn value(self) -> Option<u8>
        ensures { at_most_one result ≡ (next_tells self).1 }
    {
        match self {
            NextRefusal::Outside => None,
            NextRefusal::Full => None,
            NextRefusal::Spent { label } => Some(label),
        }
    }
}

// A NEXT passes on what an oracle refuses, with its number and values.
impl From<CheckRefusal> for NextRefusal {
    ghost from_gives = { λ e r. next_tells r ≡ check_tells e };

    fn from(refusal: CheckRefusal) -> NextRefusal {
        match refusal {
            CheckRefusal::Outside => NextRefusal::Outside,
            CheckRefusal::Spent { label } => NextRefusal::Spent { label },
        }
    }
}

// In words, why a NEXT is refused: what a check was refused with has the words that it has there.
impl fmt::Display for NextRefusal {
    ghost output = { λ e. Some (next_words e) };

    fn fmt<W: fmt::Write>(&self, f: &mut fmt::Formatter<W>) -> fmt::Result {
        match *self {
            NextRefusal::Outside => write!(f, "{}", CheckRefusal::Outside),
            NextRefusal::Full => write!(f, "there is no room for a further line (FULL)"),
            NextRefusal::Spent { label } => write!(f, "{}", CheckRefusal::Spent { label }),
        }
    }
}

impl Error for NextRefusal {}

/// How many conflicts are listed, how many relaxations, the sizes of the listed conflicts added up,
/// how many checks were answered to NEXT, and the bound on them.
pub type Counts = (usize, usize, usize, usize, usize);

/// A call of an explainer.
#[derive(Clone, Copy, PartialEq, Eq, Debug)]
pub enum Call {
    Next,
    Grant { checks: u32 },
    Try { set: Set },
    Tally,
}

/// A call that was made, with its answer.
#[derive(Clone, Copy, PartialEq, Eq, Debug)]
pub enum Made {
    Next(Result<NextAnswer, NextRefusal>),
    Grant {
        checks: u32,
        answer: Result<(), GrantRefusal>,
    },
    Try {
        set: Set,
        answer: Result<Verdict, CheckRefusal>,
    },
    Tally(Counts),
}

impl Made {
    ghost use Rattle.explainer.specs.Moments.{next_of};

    /// The answer of the NEXT that this call was, if it was one.
    pub fn next_answer(self) -> Option<Result<NextAnswer, NextRefusal>>
        ensures { result ≡ next_of self }
    {
        match self {
            Made::Next(answer) => Some(answer),
            Made::Grant { .. } => None,
            Made::Try { .. } => None,
            Made::Tally(_) => None,
        }
    }
}

/// What is recorded of a call: the allowance that it found, the call with its answer, and how many
/// lines were listed after it.
#[derive(Clone, Copy, PartialEq, Eq, Debug)]
pub struct Moment {
    pub found: Option<u32>,
    pub made: Made,
    pub lines: usize,
}
