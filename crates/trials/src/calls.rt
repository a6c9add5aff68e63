// Calls by lot, and want of checks at every place, over wild oracles.
use crate::search::Lot;
use crate::watched::{Watch, all_checks, table_of};
use crate::wild::Plan;
use explainer::{Call, Calls, Made, Moment, NextAnswer, NextRefusal, Workspace, run};
use listing::Line;
use sets::Set;
use std::alloc::{AllocError, Global};
use std::process::Abort;
use std::test::Fail;

const SEED: u32 = 40;

// How many plans there are of each width, and how many calls are made of each.
const PLANS: u32 = 60;

const CALLS: u32 = 60;

// The most requests.
const WIDEST: u32 = 5;

impl Lot {
    // Sets of so many requests, mostly large ones; there may be none.
    fn wholes(&mut self, heap: Global, width: u32) -> Result<Vec<u32>, AllocError> {
        let mut wholes = Vec::new(heap);
        for _ in 0..self.draw(6) {
            let bits = self.draw(31) | self.draw(31);
            wholes.push(bits % (1 << width.min(WIDEST)))?;
        }
        Ok(wholes)
    }

    fn plan<'a>(&mut self, width: u32, wholes: &'a [u32]) -> Plan<'a> {
        let left = self.draw(5);
        let spares = self.draw(2);
        Plan {
            width,
            wholes,
            allowance: (self.draw(7) != 0).then_some(left),
            label: u8::try_from(self.draw(255)).unwrap_or(0),
            spares: if spares == 2 { 3 } else { spares },
            lot: self.draw(65_535),
        }
    }

    // Of the sets that are tried half lie within the width. Now and then a grant is as large as may be, or larger.
    fn call(&mut self, width: u32) -> Call {
        match self.draw(255) {
            0..=127 => Call::Next,
            128..=167 => Call::Grant {
                checks: self.draw(3),
            },
            168 => Call::Grant { checks: 1_000_000 },
            169..=178 => Call::Grant { checks: 1_000_001 },
            179..=180 => Call::Grant { checks: u32::MAX },
            181..=210 => Call::Tally,
            _ => Call::Try {
                set: Set::new(self.draw(63) % (2 << width.min(WIDEST))),
            },
        }
    }

    fn calls(&mut self, heap: Global, width: u32) -> Result<Vec<Call>, AllocError> {
        let mut calls = Vec::new(heap);
        for _ in 0..CALLS {
            calls.push(self.call(width))?;
        }
        Ok(calls)
    }
}

// How often a NEXT was refused, and how often it said that all is listed.
fn told(moments: &[Moment]) -> (usize, usize) {
    let spent = moments
        .iter()
        .filter(|moment| matches!(moment.made, Made::Next(Err(_))))
        .count();
    let ends = moments
        .iter()
        .filter(|moment| moment.made == Made::Next(Ok(NextAnswer::End)))
        .count();
    (spent, ends)
}

// Calls by lot of one plan, by their own methods and as a run.
fn play(rt: &impl Abort, heap: Global, lot: &mut Lot, width: u32) -> Result<(usize, usize), Fail> {
    let wholes = lot.wholes(heap, width)?;
    let plan = lot.plan(width, wholes.as_slice());
    let lines = table_of(plan).listed(heap)?;
    let calls = lot.calls(heap, width)?;
    let mut watch = Watch::new(heap, plan, lines.as_slice())?;
    let moments = watch.make_all(rt, heap, calls.as_slice())?;
    let caller = Calls {
        list: calls.as_slice(),
    };
    let ran = run(Workspace::new(heap, calls.len())?, plan.made(), &caller);
    assert_eq!(rt; ran.moments.as_slice(), moments.as_slice());
    watch.finish(rt, all_checks(heap, plan)?);
    Ok(told(moments.as_slice()))
}

fn play_all(rt: &impl Abort, heap: Global, width: u32) -> Result<(usize, usize), Fail> {
    let mut lot = Lot {
        state: SEED.wrapping_add(width),
    };
    let mut spent: usize = 0;
    let mut ends: usize = 0;
    for _ in 0..PLANS {
        let (refused, all) = play(rt, heap, &mut lot, width)?;
        spent = spent.saturating_add(refused);
        ends = ends.saturating_add(all);
    }
    Ok((spent, ends))
}

#[test]
fn calls_by_lot(rt: HostRuntime) -> Result<(), Fail> {
    let mut spent: usize = 0;
    let mut ends: usize = 0;
    for width in 0..=WIDEST {
        let (refused, all) = play_all(&rt, rt.alloc(), width)?;
        spent = spent.saturating_add(refused);
        ends = ends.saturating_add(all);
    }
    assert_eq!(rt; (spent, 500 < spent), (spent, true));
    assert_eq!(rt; (ends, 500 < ends), (ends, true));
    Ok(())
}

// A plan that takes one of its allowance for each answer.
fn strict(width: u32, wholes: &[u32], allowance: u32) -> Plan<'_> {
    Plan {
        width,
        wholes,
        allowance: Some(allowance),
        label: 200,
        spares: 0,
        lot: 0,
    }
}

// So many checks, NEXT until one answers no line, and then enough: the listing is as it would have been.
fn stopped_at(
    rt: &impl Abort,
    heap: Global,
    plan: Plan<'_>,
    lines: &[Line],
    full: usize,
) -> Result<(), Fail> {
    let given = plan.allowance.unwrap_or(0) as usize;
    let mut watch = Watch::new(heap, plan, lines)?;
    let mut last = Made::Next(Ok(NextAnswer::End));
    for _ in 0..=lines.len() {
        last = watch.make(rt, Call::Next).made;
        if !matches!(last, Made::Next(Ok(NextAnswer::Line(_)))) {
            break;
        }
    }
    let label = u8::try_from(given.saturating_add(200) % 256).unwrap_or(0);
    let due = if given < full {
        Made::Next(Err(NextRefusal::Spent { label }))
    } else {
        Made::Next(Ok(NextAnswer::End))
    };
    assert_eq!(rt; (given, last), (given, due));
    watch.finish(rt, full);
    Ok(())
}

// One check at a time: a line comes with one, or else the next NEXT is refused.
fn one_by_one(
    rt: &impl Abort,
    heap: Global,
    plan: Plan<'_>,
    lines: &[Line],
    full: usize,
) -> Result<(), Fail> {
    let mut watch = Watch::new(heap, plan, lines)?;
    for _ in 1..full {
        watch.make(rt, Call::Grant { checks: 1 });
        watch.make(rt, Call::Next);
        let last = watch.make(rt, Call::Next);
        assert!(rt; matches!(last.made, Made::Next(Err(_))));
    }
    watch.make(rt, Call::Grant { checks: 1 });
    watch.make(rt, Call::Next);
    let last = watch.make(rt, Call::Next);
    assert_eq!(rt; last.made, Made::Next(Ok(NextAnswer::End)));
    watch.finish(rt, full);
    Ok(())
}

fn at_each(rt: &impl Abort, heap: Global, width: u32, wholes: &[u32]) -> Result<(), Fail> {
    let plan = strict(width, wholes, 0);
    let lines = table_of(plan).listed(heap)?;
    let full = all_checks(heap, plan)?;
    for given in 0..=full.saturating_add(1) {
        let allowance = u32::try_from(given).unwrap_or(0);
        let plan = strict(width, wholes, allowance);
        stopped_at(rt, heap, plan, lines.as_slice(), full)?;
    }
    one_by_one(rt, heap, plan, lines.as_slice(), full)
}

// Widths, and the sets of which the parts are fit: the worked example, the ends, and others by lot.
const STOPPED: [(u32, &[u32]); 9] = [
    (0, &[]),
    (0, &[0]),
    (1, &[0]),
    (5, &[]),
    (5, &[31]),
    (3, &[1, 6]),
    (4, &[3, 5, 6, 9, 10, 12]),
    (5, &[7, 25, 30, 11]),
    (5, &[1, 2, 4, 8, 16]),
];

#[test]
fn spent_at_every_place(rt: HostRuntime) -> Result<(), Fail> {
    for (width, wholes) in STOPPED {
        at_each(&rt, rt.alloc(), width, wholes)?;
    }
    Ok(())
}
