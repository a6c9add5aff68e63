// An explainer over a wild oracle, of which each call is held against the listing by trying every set.
use crate::tables::{Table, bound, is_conflict, sizes};
use crate::wild::{Plan, Wild};
use explainer::{
    Call, Counts, Explainer, Made, Moment, NextAnswer, NextRefusal, UntilEnd, Workspace, run,
};
use listing::Line;
use oracle::{CheckRefusal, GrantRefusal, Verdict};
use sets::Set;
use std::alloc::{AllocError, Global};
use std::process::Abort;

// The verdicts of a plan, by trying each set within each of those given.
pub fn table_of(plan: Plan<'_>) -> Table {
    let mut table = Table::new(plan.width);
    for bits in table.sets() {
        let fit = plan.wholes.iter().any(|whole| bits & *whole == bits);
        table.put(bits, fit);
    }
    table
}

// More turns than any listing of a few requests takes.
const TURNS: usize = 600;

// How many checks the whole listing takes, where they are endless.
pub fn all_checks(heap: Global, plan: Plan<'_>) -> Result<usize, AllocError> {
    let endless = Plan {
        allowance: None,
        ..plan
    };
    let ran = run(Workspace::new(heap, TURNS)?, endless.made(), &UntilEnd);
    Ok(ran.explainer.tally().3)
}

#[derive(Drop)]
pub struct Watch<'a> {
    explainer: Explainer<Wild<'a>>,
    plan: Plan<'a>,
    table: Table,
    // All lines that are to come.
    lines: &'a [Line],
    // How many of them have come.
    come: usize,
    // How often the oracle has answered other calls than NEXT.
    others: usize,
}

impl<'a> Watch<'a> {
    pub fn new(heap: Global, plan: Plan<'a>, lines: &'a [Line]) -> Result<Watch<'a>, AllocError> {
        Ok(Watch {
            explainer: Explainer::new(Workspace::new(heap, 0)?, plan.made()),
            plan,
            table: table_of(plan),
            lines,
            come: 0,
            others: 0,
        })
    }

    // The label of the oracle by now: its first, and one more for each answer.
    fn label(&self) -> u8 {
        let answers = self.others.saturating_add(self.explainer.tally().3);
        let label = usize::from(self.plan.label).saturating_add(answers) % 256;
        u8::try_from(label).unwrap_or(0)
    }

    // The next line comes, or all have come, or no check is left.
    fn next(&mut self, rt: &impl Abort) -> Made {
        let answer = self.explainer.next();
        match answer {
            Ok(NextAnswer::Line(line)) => {
                assert_eq!(rt; Some(line), self.lines.get(self.come).copied());
                self.come = self.come.saturating_add(1);
            }
            Ok(NextAnswer::End) => assert_eq!(rt; self.come, self.lines.len()),
            Err(refusal) => {
                let label = self.label();
                assert_eq!(rt;
                    (refusal, self.explainer.left()),
                    (NextRefusal::Spent { label }, Some(0))
                );
            }
        }
        Made::Next(answer)
    }

    fn grant(&mut self, rt: &impl Abort, checks: u32) -> Made {
        let found = self.explainer.left();
        let answer = self.explainer.grant(checks);
        if 1_000_000 < checks {
            assert_eq!(rt;
                (answer, self.explainer.left()),
                (Err(GrantRefusal::Over), found)
            );
        } else {
            let grown = found.map(|left| left.saturating_add(checks).min(1_000_000));
            assert_eq!(rt; (answer, self.explainer.left()), (Ok(()), grown));
            self.others = self.others.saturating_add(1);
        }
        Made::Grant { checks, answer }
    }

    // What TRY has to answer.
    fn due(&self, set: Set) -> Result<Verdict, CheckRefusal> {
        if !self.table.sets().contains(&set.bits()) {
            return Err(CheckRefusal::Outside);
        }
        if self.explainer.left() == Some(0) {
            return Err(CheckRefusal::Spent {
                label: self.label(),
            });
        }
        Ok(Verdict {
            fit: self.table.is_fit(set.bits()),
        })
    }

    fn try_set(&mut self, rt: &impl Abort, set: Set) -> Made {
        let due = self.due(set);
        let answer = self.explainer.try_set(set);
        assert_eq!(rt; (set, answer), (set, due));
        if answer.is_ok() {
            self.others = self.others.saturating_add(1);
        }
        Made::Try { set, answer }
    }

    // What stands after a call: the lines that have come, and the numbers of them. A call other than NEXT leaves all five numbers.
    fn stands(&self, rt: &impl Abort, before: Counts, made: Made) {
        let come = self.lines.get(..self.come).unwrap_or(&[]);
        assert_eq!(rt; self.explainer.lines(), come);
        let after = self.explainer.tally();
        let conflicts = come.iter().filter(|line| is_conflict(line)).count();
        let relaxations = come.len().saturating_sub(conflicts);
        let bound = bound(self.plan.width, come);
        assert_eq!(rt;
            after,
            (conflicts, relaxations, sizes(come), after.3, bound)
        );
        match made {
            Made::Next(Ok(_)) => assert!(rt; before.3 <= after.3 && after.3 <= bound),
            Made::Next(Err(_)) => assert!(rt; before.3 <= after.3),
            Made::Tally(told) => assert_eq!(rt; (told, after), (before, before)),
            Made::Grant { .. } | Made::Try { .. } => assert_eq!(rt; after, before),
        }
    }

    // Of its allowance each answered check has taken one or none; a plan with no spares always one.
    fn has_taken(&self, rt: &impl Abort, found: Option<u32>, before: Counts, others: usize) {
        let Some(found) = found else {
            assert_eq!(rt; self.explainer.left(), None);
            return;
        };
        let taken = found.saturating_sub(self.explainer.left().unwrap_or(0)) as usize;
        let answers = self
            .explainer
            .tally()
            .3
            .saturating_sub(before.3)
            .saturating_add(self.others.saturating_sub(others));
        assert!(rt; taken <= answers);
        if self.plan.spares == 0 {
            assert_eq!(rt; taken, answers);
        }
    }

    // Makes a call by its own method, and records it.
    pub fn make(&mut self, rt: &impl Abort, call: Call) -> Moment {
        let found = self.explainer.left();
        let before = self.explainer.tally();
        let others = self.others;
        let made = match call {
            Call::Next => self.next(rt),
            Call::Grant { checks } => self.grant(rt, checks),
            Call::Try { set } => self.try_set(rt, set),
            Call::Tally => Made::Tally(self.explainer.tally()),
        };
        self.stands(rt, before, made);
        if !matches!(call, Call::Grant { .. }) {
            self.has_taken(rt, found, before, others);
        }
        Moment {
            found,
            made,
            lines: self.come,
        }
    }

    pub fn make_all(
        &mut self,
        rt: &impl Abort,
        heap: Global,
        calls: &[Call],
    ) -> Result<Vec<Moment>, AllocError> {
        let mut moments = Vec::new(heap);
        for call in calls {
            moments.push(self.make(rt, *call))?;
        }
        Ok(moments)
    }

    // With enough checks the rest comes, and the answers to NEXT are as many as where none was refused.
    pub fn finish(&mut self, rt: &impl Abort, checks: usize) {
        self.make(rt, Call::Grant { checks: 1_000_000 });
        for _ in self.come..self.lines.len() {
            self.make(rt, Call::Next);
        }
        let last = self.make(rt, Call::Next);
        assert_eq!(rt; last.made, Made::Next(Ok(NextAnswer::End)));
        assert_eq!(rt;
            (self.come, self.explainer.tally().3),
            (self.lines.len(), checks)
        );
    }
}
