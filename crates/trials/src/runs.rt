// Runs with their records written out: a list of calls, callers that stop and one that does not, and a listing that is full.
ghost use Rattle.std.specs.Prelude.{◌≡◌, cond, nat_lt, length, Some, None};
ghost use Rattle.explainer.specs.declared.moments.Call.TheVariants.{Next};

use crate::made::options;
use crate::wild::Plan;
use explainer::{
    Call, Caller, Calls, Counts, Made, Moment, NextAnswer, NextRefusal, Ran, UntilEnd, Workspace,
    run,
};
use listing::Line;
use oracle::{CheckRefusal, GrantRefusal, Oracle, Verdict};
use report::pile;
use rules::Rule;
use sets::Set;
use std::alloc::{AllocError, Global};
use std::array;
use std::process::Abort;
use std::test::Fail;

// The worked example over an oracle with two checks: 1 excludes 2 and 3. Each answer adds one to the label.
const WORKED: Plan<'static> = Plan {
    width: 3,
    wholes: &[1, 6],
    allowance: Some(2),
    label: 250,
    spares: 0,
    lot: 0,
};

fn next(found: u32, answer: Result<NextAnswer, NextRefusal>, lines: usize) -> Moment {
    Moment {
        found: Some(found),
        made: Made::Next(answer),
        lines,
    }
}

fn grant(found: u32, checks: u32, answer: Result<(), GrantRefusal>, lines: usize) -> Moment {
    Moment {
        found: Some(found),
        made: Made::Grant { checks, answer },
        lines,
    }
}

fn tried(found: u32, bits: u32, answer: Result<Verdict, CheckRefusal>, lines: usize) -> Moment {
    Moment {
        found: Some(found),
        made: Made::Try {
            set: Set::new(bits),
            answer,
        },
        lines,
    }
}

fn tally(found: u32, counts: Counts, lines: usize) -> Moment {
    Moment {
        found: Some(found),
        made: Made::Tally(counts),
        lines,
    }
}

fn conflict(bits: u32) -> Result<NextAnswer, NextRefusal> {
    Ok(NextAnswer::Line(Line::Conflict(Set::new(bits))))
}

fn relaxation(bits: u32) -> Result<NextAnswer, NextRefusal> {
    Ok(NextAnswer::Line(Line::Relaxation(Set::new(bits))))
}

// The first check is of the empty set, and the second of all requests; the third, refused at first, of request 1.
fn first_calls() -> [Moment; 10] {
    [
        tally(2, (0, 0, 0, 0, 1), 0),
        next(2, Err(NextRefusal::Spent { label: 252 }), 0),
        next(0, Err(NextRefusal::Spent { label: 252 }), 0),
        tally(0, (0, 0, 0, 2, 1), 0),
        tried(0, 7, Err(CheckRefusal::Spent { label: 252 }), 0),
        tried(0, 8, Err(CheckRefusal::Outside), 0),
        grant(0, 1_000_001, Err(GrantRefusal::Over), 0),
        grant(0, 0, Ok(()), 0),
        next(0, Err(NextRefusal::Spent { label: 253 }), 0),
        grant(0, 4, Ok(()), 0),
    ]
}

// The fifth check ends the halving of all requests, the eighth that of 1 and 3; then come the relaxations, a check for each.
fn other_calls() -> [Moment; 14] {
    [
        tried(4, 3, Ok(Verdict { fit: false }), 0),
        next(3, conflict(3), 1),
        next(0, Err(NextRefusal::Spent { label: 2 }), 1),
        grant(0, 1_000_000, Ok(()), 1),
        next(1_000_000, conflict(5), 2),
        tally(999_997, (2, 0, 4, 8, 19), 2),
        tried(999_997, 6, Ok(Verdict { fit: true }), 2),
        tried(999_996, 16, Err(CheckRefusal::Outside), 2),
        next(999_996, relaxation(1), 3),
        next(999_995, relaxation(6), 4),
        next(999_994, Ok(NextAnswer::End), 4),
        next(999_994, Ok(NextAnswer::End), 4),
        grant(999_994, 10, Ok(()), 4),
        tally(1_000_000, (2, 2, 4, 10, 21), 4),
    ]
}

// The call of a record.
fn call_of(moment: &Moment) -> Call {
    match moment.made {
        Made::Next(_) => Call::Next,
        Made::Grant { checks, answer: _ } => Call::Grant { checks },
        Made::Try { set, answer: _ } => Call::Try { set },
        Made::Tally(_) => Call::Tally,
    }
}

// All of them.
fn worked_calls(heap: Global) -> Result<Vec<Moment>, AllocError> {
    first_calls().into_iter().chain(other_calls()).collect(heap)
}

// A run of so many turns at most.
fn ran<O: Oracle + Drop, C: Caller>(
    heap: Global,
    oracle: O,
    caller: &C,
    turns: usize,
) -> Result<Ran<O>, AllocError> {
    Ok(run(Workspace::new(heap, turns)?, oracle, caller))
}

// Fewer turns than calls, none, as many, and more.
#[test]
fn records_of_a_list(rt: HostRuntime) -> Result<(), Fail> {
    let moments = worked_calls(rt.alloc())?;
    let calls: Vec<Call> = moments.iter().map(call_of).collect(rt.alloc())?;
    let caller = Calls {
        list: calls.as_slice(),
    };
    for (turns, made) in [
        (0, 0),
        (1, 1),
        (5, 5),
        (23, 23),
        (24, 24),
        (25, 24),
        (100, 24),
    ] {
        let ran = ran(rt.alloc(), WORKED.made(), &caller, turns)?;
        assert_eq!(rt;
            ran.moments.as_slice(),
            moments.as_slice().get(..made).unwrap_or(&[])
        );
    }
    Ok(())
}

// What stands after a run in which no call was made.
fn nothing<C: Caller>(rt: &impl Abort, heap: Global, caller: &C, turns: usize) -> Result<(), Fail> {
    let mut ran = ran(heap, WORKED.made(), caller, turns)?;
    assert_eq!(rt; ran.moments.len(), 0);
    assert_eq!(rt; ran.explainer.lines().len(), 0);
    assert_eq!(rt;
        (ran.explainer.left(), ran.explainer.tally()),
        (Some(2), (0, 0, 0, 0, 1))
    );
    assert_eq!(rt;
        ran.explainer.next(),
        Err(NextRefusal::Spent { label: 252 })
    );
    Ok(())
}

// So many NEXTs, and then no call any more.
#[derive(Clone, Copy)]
struct Few {
    most: usize,
}

impl Caller for Few {
    ghost choice = { λ c moments. cond (nat_lt (length moments) c.most) (Some Next) None };

    fn choose(&self, moments: &[Moment]) -> Option<Call> {
        if moments.len() < self.most {
            Some(Call::Next)
        } else {
            None
        }
    }
}

#[test]
fn runs_without_a_call(rt: HostRuntime) -> Result<(), Fail> {
    nothing(&rt, rt.alloc(), &UntilEnd, 0)?;
    nothing(&rt, rt.alloc(), &Few { most: 9 }, 0)?;
    nothing(&rt, rt.alloc(), &Few { most: 0 }, 9)?;
    nothing(&rt, rt.alloc(), &Calls { list: &[] }, 0)?;
    nothing(&rt, rt.alloc(), &Calls { list: &[] }, 9)?;
    nothing(
        &rt,
        rt.alloc(),
        &Calls {
            list: &[Call::Next, Call::Tally],
        },
        0,
    )
}

// NEXT without end of the worked example, with checks enough.
fn nexts() -> [Moment; 7] {
    [
        next(1_000, conflict(3), 1),
        next(995, conflict(5), 2),
        next(992, relaxation(1), 3),
        next(991, relaxation(6), 4),
        next(990, Ok(NextAnswer::End), 4),
        next(990, Ok(NextAnswer::End), 4),
        next(990, Ok(NextAnswer::End), 4),
    ]
}

fn made<C: Caller>(
    rt: &impl Abort,
    heap: Global,
    caller: &C,
    turns: usize,
    count: usize,
) -> Result<(), Fail> {
    let plan = Plan {
        allowance: Some(1_000),
        ..WORKED
    };
    let ran = ran(heap, plan.made(), caller, turns)?;
    let want = nexts();
    assert_eq!(rt; ran.moments.as_slice(), want.get(..count).unwrap_or(&[]));
    Ok(())
}

// A caller that stops by itself, and one that would not.
#[test]
fn callers_that_stop(rt: HostRuntime) -> Result<(), Fail> {
    made(&rt, rt.alloc(), &UntilEnd, 100, 5)?;
    made(&rt, rt.alloc(), &UntilEnd, 5, 5)?;
    made(&rt, rt.alloc(), &UntilEnd, 4, 4)?;
    made(&rt, rt.alloc(), &Few { most: 2 }, 100, 2)?;
    made(&rt, rt.alloc(), &Few { most: usize::MAX }, 7, 7)
}

// It stops at a refusal too.
#[test]
fn until_a_refusal(rt: HostRuntime) -> Result<(), Fail> {
    let ran = ran(rt.alloc(), WORKED.made(), &UntilEnd, 100)?;
    let want = [next(2, Err(NextRefusal::Spent { label: 252 }), 0)];
    assert_eq!(rt; ran.moments.as_slice(), want.as_slice());
    Ok(())
}

// Nine pairs that exclude each other: the house bars both options of a pair, and each of the 18 requests wants one.
fn nine_pairs() -> [Rule; 27] {
    array::from_fn(|i| {
        let place = u32::try_from(i % 27).unwrap_or(0);
        if place < 9 {
            options(0, None, 3 << (2 * place))
        } else {
            options(place - 8, Some(place - 9), 0)
        }
    })
}

// After 512 lines there is no room, however often NEXT is called; the other calls go on.
#[test]
fn full_listing(rt: HostRuntime) -> Result<(), Fail> {
    let rules = nine_pairs();
    let caller = Few { most: 514 };
    let ran = ran(rt.alloc(), pile(&rules, 18, 1_000), &caller, 514)?;
    let full = next(422, Err(NextRefusal::Full), 512);
    let Ran {
        mut explainer,
        moments,
    } = ran;
    assert_eq!(rt;
        moments.as_slice().get(512..),
        Some([full, full].as_slice())
    );
    assert_eq!(rt; explainer.make(Call::Next), full);
    let set = Set::new(3);
    let unfit = tried(422, 3, Ok(Verdict { fit: false }), 512);
    assert_eq!(rt; explainer.make(Call::Try { set }), unfit);
    assert_eq!(rt;
        explainer.make(Call::Grant { checks: 9 }),
        grant(421, 9, Ok(()), 512)
    );
    assert_eq!(rt;
        explainer.make(Call::Next),
        next(430, Err(NextRefusal::Full), 512)
    );
    let counts = tally(430, (9, 503, 18, 578, 693), 512);
    assert_eq!(rt; explainer.make(Call::Tally), counts);
    Ok(())
}

// The numbers of the refusals, and what they tell.
#[test]
fn refusals_of_next(rt: HostRuntime) {
    let spent = NextRefusal::Spent { label: 7 };
    assert_eq!(rt;
        (NextRefusal::Outside.number(), NextRefusal::Outside.value()),
        (10, None)
    );
    assert_eq!(rt;
        (NextRefusal::Full.number(), NextRefusal::Full.value()),
        (12, None)
    );
    assert_eq!(rt; (spent.number(), spent.value()), (13, Some(7)));
}
