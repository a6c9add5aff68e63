// A run: an explainer over an oracle, and the calls that a caller chooses.
ghost use Rattle.std.specs.Prelude.{◌≡◌, List, Option};
ghost use Rattle.explainer.specs.Choosing.{listed_call, after_line as call_after_line, until_end};
ghost use Rattle.explainer.specs.declared.moments.Call.{Call};
ghost use Rattle.explainer.specs.declared.moments.Moment.{Moment};

use crate::asking::Explainer;
use crate::moments::{Call, Moment, NextAnswer, NextRefusal};
use crate::workspace::Workspace;
use oracle::Oracle;

/// Who chooses the calls, each by what was answered before it.
pub trait Caller {
    ghost choice: { Self → List Moment → Option Call };

    // The next call, or none where the caller stops.
    fn choose(&self, moments: &[Moment]) -> Option<Call>
        ensures { result ≡ choice self.now moments.now };
}

/// The calls of a list, one after the other.
#[derive(Clone, Copy, Debug)]
pub struct Calls<'a> {
    pub list: &'a [Call],
}

impl<'a> Caller for Calls<'a> {
    ghost choice = { λ c moments. listed_call c.list.now moments };

    fn choose(&self, moments: &[Moment]) -> Option<Call> {
        self.list.get(moments.len()).copied()
    }
}

/// NEXT until one answers no line.
#[derive(Clone, Copy, Debug)]
pub struct UntilEnd;

// What follows on the answer of a NEXT, or on another call: NEXT, if a line was answered.
fn after_line(answer: Option<Result<NextAnswer, NextRefusal>>) -> Option<Call>
    ensures { result ≡ call_after_line answer }
{
    match answer? {
        Ok(NextAnswer::Line(_)) => Some(Call::Next),
        Ok(NextAnswer::End) => None,
        Err(_) => None,
    }
}

impl Caller for UntilEnd {
    ghost choice = { λ c moments. until_end moments };

    fn choose(&self, moments: &[Moment]) -> Option<Call> {
        match moments.last() {
            None => Some(Call::Next),
            Some(moment) => after_line(moment.made.next_answer()),
        }
    }
}

/// What a run leaves: the explainer, and what is recorded of each call.
#[derive(Drop)]
pub struct Ran<O> {
    pub explainer: Explainer<O>,
    pub moments: Vec<Moment>,
}

ghost use Rattle.explainer.specs.Preferring.{preferring};
ghost use Rattle.explainer.specs.Runs.{IsRun};

/// Makes an explainer over an oracle, and the calls that a caller chooses, as many at most as the
/// workspace has turns.
pub fn run<O: Oracle, C: Caller>(workspace: Workspace, oracle: O, caller: &C) -> Ran<O>
    ensures { IsRun preferring O.meaning O.check_leads O.grant_leads (C.choice caller.now)
        workspace.turns oracle result.moments.items result.explainer }
{
    let Workspace {
        room,
        mut moments,
        turns,
    } = workspace;
    let mut explainer = Explainer::over(room, oracle);
    for _turn in 0..turns {
        let Some(call) = caller.choose(moments.as_slice()) else {
            break;
        };
        let moment = explainer.make(call);
        if moments.push(moment).is_err() {
            unreachable!()
        }
    }
    Ran { explainer, moments }
}
