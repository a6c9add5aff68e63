// From the bytes of a ticket to its report.
ghost use Rattle.std.specs.Prelude.{◌≡◌, ◌≤◌, Some, None, IfOk};
ghost use Rattle.sets.specs.Requests.{widest};
ghost use Rattle.oracle.specs.Meaning.{limit};
ghost use Rattle.explainer.specs.Moments.{last_made};
ghost use Rattle.report.specs.Answered.{text_told, answer_text, IsAnswered};
ghost use Rattle.report.specs.Explained.{accepted_text, explained};
ghost use Rattle.report.specs.LastCall.{ended_next as defined_ended_next, ended_made};
ghost use Rattle.report.specs.PileRuns.{IsPileRun, EndsAsSteps};

use crate::piles::{below, with_checks};
use crate::texts::{Ended, Report};
use explainer::{Moment, NextAnswer, NextRefusal, Ran, UntilEnd, Workspace, run};
use layers::Quota;
use listing::MOST_LINES;
use oracle::Oracle;
use rules::Rule;
use std::alloc::{AllocError, Global};
use std::fmt;
use ticket::{Header, MOST_RULES, TicketFault, read};

const ROOM: usize = MOST_RULES as usize;

// So many NEXTs are enough: one for each line that there is room for, and one that answers none.
const TURNS: usize = MOST_LINES + 1;

// How a listing ended, by the answer of a NEXT; none where it is a line, or there was no NEXT.
fn ended_next(answer: Option<Result<NextAnswer, NextRefusal>>) -> Option<Ended>
    ensures { result ≡ defined_ended_next answer }
{
    match answer? {
        Ok(NextAnswer::Line(_)) => None,
        Ok(NextAnswer::End) => Some(Ended::All),
        Err(NextRefusal::Outside) => None,
        Err(NextRefusal::Full) => Some(Ended::Full),
        Err(NextRefusal::Spent { label }) => Some(Ended::Spent { label }),
    }
}

// The same by the last call.
fn ended(moments: &[Moment]) -> Option<Ended>
    ensures { result ≡ ended_made (last_made moments.now) }
{
    ended_next(moments.last()?.made.next_answer())
}

// NEXT until one answers no line, over a quota of an endless oracle. Generic, since only an oracle
// of which nothing but the trait is known is bound by its relations: so no call is made but those
// of the run.
fn list_all<B: Oracle>(workspace: Workspace, below: B, checks: u32) -> Ran<Quota<B>>
    requires turns { workspace.turns ≡ TURNS }
    requires endless { (B.meaning below).allowance ≡ None }
    ensures run { IsPileRun B.meaning B.check_leads B.grant_leads below checks TURNS
        result.moments.items result.explainer }
    ensures ended { EndsAsSteps B.meaning below checks result.moments.items result.explainer }
{
    run(workspace, with_checks(below, checks), &UntilEnd)
}

// The report of an accepted ticket. All memory that it takes is in the workspace.
fn accepted(workspace: Workspace, header: Header, rules: &[Rule]) -> Report
    requires turns { workspace.turns ≡ TURNS }
    requires requests { header.requests ≤ widest }
    requires checks { header.checks ≤ limit }
    ensures { text_told result ≡ accepted_text header rules.now }
{
    let Ran { explainer, moments } = list_all(
        workspace,
        below(rules, header.requests),
        header.checks,
    );
    let Some(ended) = ended(moments.as_slice()) else {
        unreachable!()
    };
    let tally = explainer.tally();
    let (_, listing) = explainer.into_parts();
    Report {
        requests: header.requests,
        listing,
        checks: tally.3,
        bound: tally.4,
        ended,
    }
}

/// What a ticket is answered with. Printed it is the report, or the line of the refusal.
#[derive(Drop)]
pub enum Answer {
    // The report of an accepted ticket.
    Report(Report),
    // The fault of a refused one, as it was read.
    Refused(TicketFault),
}

impl fmt::Display for Answer {
    ghost output = { λ a. Some (answer_text a) };

    fn fmt<W: fmt::Write>(&self, f: &mut fmt::Formatter<W>) -> fmt::Result {
        match self {
            Answer::Report(report) => write!(f, "{report}"),
            Answer::Refused(fault) => {
                let (number, line, field) = fault.told();
                write!(f, "refused={number},{line},{field}\n")
            }
        }
    }
}

/// Answers a ticket: an accepted one with the report of its listing, for which it may want for
/// memory, and a refused one with its fault, for which it may not.
pub fn explain(heap: Global, text: &[u8]) -> Result<Answer, AllocError>
    ensures answered { IsAnswered text.now result }
    ensures text { IfOk result (λ a. answer_text a ≡ explained text.now) }
{
    // A table, since `read` fills a list that is lent to it.
    let mut rules = [Rule::blank(); ROOM];
    // Both are answers, so neither leaves by `?`. Of the table only the rules that were read are
    // handed on.
    let header = match read(text, &mut rules) {
        Ok(header) => header,
        Err(fault) => return Ok(Answer::Refused(fault)),
    };
    // All memory is taken here.
    let workspace = Workspace::new(heap, TURNS)?;
    let report = accepted(workspace, header, &rules[..header.rules as usize]);
    Ok(Answer::Report(report))
}
