// The oracles that the program asks, one above the other.
ghost use Rattle.std.specs.Prelude.{◌≡◌};
ghost use Rattle.report.specs.PileRuns.{IsQuotaOf};
ghost use Rattle.report.specs.Piles.{below_meaning, covered, pile_meaning, piled, BelowOf, IsFresh, PileOf};

use faces::Faces;
use gaps::Gaps;
use layers::{Both, Cover, Quota};
use options::Options;
use oracle::Oracle;
use rules::Rule;

// The label of a ticket's own checks.
const LABEL: u8 = 1;

/// The oracles over the rules of a ticket, under a cover that keeps their answers.
pub type Below<'a> = Cover<Both<Options<'a>, Both<Gaps<'a>, Faces<'a>>>>;

/// A quota of them.
pub type Pile<'a> = Quota<Below<'a>>;

// Those of a ticket with so many requests: no answer is kept yet.
pub(crate) fn below<'a>(rules: &'a [Rule], width: u32) -> Below<'a>
    ensures meant { below_meaning result ≡ covered rules.now width }
    ensures exact { BelowOf rules.now width (below_meaning result) }
    ensures fresh { IsFresh result }
{
    let gaps_and_faces = Both::new(Gaps::new(rules, width), Faces::new(rules, width));
    Cover::new(Both::new(Options::new(rules, width), gaps_and_faces))
}

// A quota of so many checks, with the label of a ticket.
pub(crate) fn with_checks<B: Oracle>(below: B, checks: u32) -> Quota<B>
    ensures { IsQuotaOf below checks result }
{
    Quota::new(LABEL, checks, below)
}

/// The whole pile of a ticket, put together as the program does it. Rules, width and checks come
/// one by one, as a ticket is read; each oracle makes its `RuleList` of them.
pub fn pile<'a>(rules: &'a [Rule], width: u32, checks: u32) -> Pile<'a>
    ensures meant { pile_meaning result ≡ piled rules.now width checks }
    ensures exact { PileOf rules.now width checks (pile_meaning result) }
{
    with_checks(below(rules, width), checks)
}
