// An oracle answers whether a set of requests can be met, while its allowance lasts.
#![tactic(auto)]

ghost use Rattle.std.specs.Prelude.{◌≡◌, [], Some};
ghost use Rattle.sets.specs.Sets.{bits_of};
ghost use Rattle.oracle.specs.Asking.{AnswersWidth, AnswersGrant};
ghost use Rattle.oracle.specs.Calls.{Checks, Grants, ChecksMean, GrantsMean};
ghost use Rattle.oracle.specs.Meaning.{Meaning, Lawful};
ghost use Rattle.oracle.specs.Refused.{check_tells, grant_tells, at_most_one};
ghost use Rattle.oracle.specs.Words.{check_words, grant_words};

use sets::Set;
use std::error::Error;
use std::fmt;

/// What a check tells of a set: whether all of its requests can be met together. A struct, so that
/// it can tell more one day.
#[derive(Clone, Copy, PartialEq, Eq, Debug)]
pub struct Verdict {
    pub fit: bool,
}

/// Why a check is refused.
#[derive(Clone, Copy, PartialEq, Eq, Debug)]
pub enum CheckRefusal {
    // The set has a request above the width.
    Outside,
    // No check is left; the label is that of whoever counts them.
    Spent { label: u8 },
}

/// Why a grant is refused.
#[derive(Clone, Copy, PartialEq, Eq, Debug)]
pub enum GrantRefusal {
    // More than 1,000,000 checks at once.
    Over = 11,
}

impl CheckRefusal {
    /// A case that holds a value can have no discriminant, so the numbers stand here.
    pub fn number(self) -> u32
        ensures { result ≡ (check_tells self).0 }
    {
        match self {
            CheckRefusal::Outside => 10,
            CheckRefusal::Spent { label: _ } => 13,
        }
    }

    /// The label that is told, if any: a part of the refusal and not the whole, so no conversion.
    pub fn value(self) -> Option<u8>
        ensures { at_most_one result ≡ (check_tells self).1 }
    {
        match self {
            CheckRefusal::Outside => None,
            CheckRefusal::Spent { label } => Some(label),
        }
    }
}

impl GrantRefusal {
    pub fn number(self) -> u32
        ensures { grant_tells self ≡ (result, []) }
    {
        self as u32
    }
}

// In words, why a check is refused.
impl fmt::Display for CheckRefusal {
    ghost output = { λ e. Some (check_words e) };

    fn fmt<W: fmt::Write>(&self, f: &mut fmt::Formatter<W>) -> fmt::Result {
        match *self {
            CheckRefusal::Outside => write!(f, "the set has a request above the width (OUTSIDE)"),
            CheckRefusal::Spent { label } => write!(f, "no check is left at label {label} (SPENT)"),
        }
    }
}

// The same of a grant.
impl fmt::Display for GrantRefusal {
    ghost output = { λ e. Some (grant_words e) };

    fn fmt<W: fmt::Write>(&self, f: &mut fmt::Formatter<W>) -> fmt::Result {
        match *self {
            GrantRefusal::Over => {
                write!(
                    f,
                    "more than 1,000,000 checks cannot be granted at once (OVER)"
                )
            }
        }
    }
}

impl Error for CheckRefusal {}

impl Error for GrantRefusal {}

/// The most checks that can be counted, and that can be granted at once.
pub const LIMIT: u32 = 1_000_000;

/// The most requests.
pub const WIDEST: u32 = 32;

/// Every oracle refuses a set with a request above its width, before it looks at anything else.
pub fn refuse_outside(set: Set, width: u32) -> Result<(), CheckRefusal>
    ensures { AnswersWidth width (bits_of set) result }
{
    if !set.is_within(width) {
        return Err(CheckRefusal::Outside);
    }
    Ok(())
}

/// What every oracle answers to a grant, whatever it counts.
pub fn granted(checks: u32) -> Result<(), GrantRefusal>
    ensures { AnswersGrant checks result }
{
    if checks > LIMIT {
        return Err(GrantRefusal::Over);
    }
    Ok(())
}

/// What an oracle means, its calls, and the laws of both. A call is a relation between the oracle
/// before it and the oracle after it, which each `impl` defines: a meaning can be restored, and
/// says nothing of calls that were paid back.
pub trait Oracle {
    ghost meaning: { Self → Meaning };

    // Which answer one CHECK of a set gives, and which oracle it leaves.
    ghost check_leads: { Checks Self };

    // The same of one GRANT.
    ghost grant_leads: { Grants Self };

    /// How many requests there are.
    fn width(&self) -> u32
        ensures { result ≡ (meaning self.now).width };

    /// How many checks are left; none where they are endless.
    fn left(&self) -> Option<u32>
        ensures { result ≡ (meaning self.now).allowance };

    /// Whether the requests of a set can be met together.
    fn check(&mut self, set: Set) -> Result<Verdict, CheckRefusal>
        ensures { check_leads self.old (bits_of set) result self.new };

    /// So many checks more.
    fn grant(&mut self, checks: u32) -> Result<(), GrantRefusal>
        ensures { grant_leads self.old checks result self.new };

    // Each `impl` proves these, of what it means and of its calls.
    ghost lawful: { (o : Self) → Lawful (meaning o) };

    ghost check_means: { ChecksMean meaning check_leads };

    ghost grant_means: { GrantsMean meaning grant_leads };
}
