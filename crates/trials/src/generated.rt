// The reports of tickets by lot, of all three letters, against trying every set and every choice.
use crate::made::options;
use crate::search::{Heeded, Lot};
use crate::tables::{MOST, Table, bound, falls, is_conflict};
use crate::texts::{Tail, number, printed, report, ticket};
use listing::Line;
use rules::{Kind, Rule};
use sets::Set;
use std::alloc::{AllocError, Global};
use std::process::Abort;
use std::test::Fail;

const SEED: u32 = 20;

const TICKETS: u32 = 360;

// More checks than any of these tickets takes.
const PLENTY: usize = 1_000_000;

// The most rules of a ticket by lot above one for each request.
const MORE: u32 = 12;

impl Lot {
    // A gap between two marks of three.
    fn wide_gap(&mut self, owner: u32) -> Rule {
        let a = self.draw(2);
        let b = a.wrapping_add(1).wrapping_add(self.draw(1)) % 3;
        Rule::gap(owner, a, b, self.draw(4).cast_signed().wrapping_sub(2))
    }

    // The house, now and then, or one of so many requests.
    fn owner(&mut self, width: u32, kind: u32) -> u32 {
        if kind < 2 || width == 0 {
            return self.draw(width);
        }
        self.draw(width.saturating_sub(1)).saturating_add(1)
    }

    // Now and then a rule of any form, and mostly one that is met alone.
    fn ticket_rule(&mut self, width: u32) -> Rule {
        let kind = self.draw(23);
        let owner = self.owner(width, kind);
        match kind {
            0 => self.options(owner),
            1 => self.gap(owner),
            2..=7 => options(owner, Some(self.draw(3)), 0),
            8..=9 => options(0, None, self.draw(15) | self.draw(15)),
            10..=13 => self.wide_gap(owner),
            _ => self.faces(owner),
        }
    }

    fn ticket_rules(&mut self, heap: Global, width: u32) -> Result<Vec<Rule>, AllocError> {
        let mut rules = Vec::new(heap);
        for _ in 0..self.draw(MORE).saturating_add(width) {
            rules.push(self.ticket_rule(width))?;
        }
        Ok(rules)
    }
}

// A set is fit if each letter's rules in force can be met.
fn is_met(width: u32, rules: &[Rule], bits: u32) -> bool {
    [Kind::Options, Kind::Gaps, Kind::Faces]
        .into_iter()
        .all(|kind| Heeded::new(kind, rules, width).some_serves(bits))
}

fn table_of(width: u32, rules: &[Rule]) -> Table {
    let mut table = Table::new(width);
    for bits in table.sets() {
        table.put(bits, is_met(width, rules, bits));
    }
    table
}

// What listings have to be: whole, with the preferred conflict of all in front of the others, and with falling relaxations.
fn are_due(rt: &impl Abort, number: u32, width: u32, table: &Table, lines: &[Line]) {
    let first = lines.iter().find(|line| is_conflict(line)).copied();
    let least = table
        .least_unfit()
        .map(|bits| Line::Conflict(Set::new(bits)));
    assert_eq!(rt;
        (number, table.is_whole(lines), falls(width, lines), first),
        (number, true, true, least)
    );
}

// The report of one ticket; the lines that it has to list are told.
fn agrees(
    rt: &impl Abort,
    heap: Global,
    number_of: u32,
    width: u32,
    rules: &[Rule],
) -> Result<Vec<Line>, Fail> {
    let table = table_of(width, rules);
    let lines = table.listed(heap)?;
    are_due(rt, number_of, width, &table, lines.as_slice());
    let text = ticket(heap, width, PLENTY, rules)?;
    let told = printed(heap, text.as_bytes())?;
    let checks = number(told.as_str(), "checks=").unwrap_or(0);
    let tail = Tail {
        checks,
        bound: bound(width, lines.as_slice()),
        ended: "all",
    };
    let want = report(heap, width, lines.as_slice(), tail)?;
    assert_eq!(rt; told.as_str(), want.as_str(), "ticket {number_of}");
    assert_eq!(rt;
        (number_of, lines.len() <= checks, checks <= tail.bound),
        (number_of, true, true)
    );
    Ok(lines)
}

// How many conflicts of so many requests or more there are.
fn of_size(lines: &[Line], least: u32) -> usize {
    lines
        .iter()
        .filter(|line| match line {
            Line::Conflict(set) => least <= set.bits().count_ones(),
            Line::Relaxation(_) => false,
        })
        .count()
}

// Of all lines of tickets with so many requests, how many there are, and how many are conflicts of three requests and more.
fn width_agrees(rt: &impl Abort, heap: Global, width: u32) -> Result<(usize, usize), Fail> {
    let mut lot = Lot {
        state: SEED.wrapping_add(width),
    };
    let mut count: usize = 0;
    let mut large: usize = 0;
    for number_of in 0..TICKETS / 9 {
        let rules = lot.ticket_rules(heap, width)?;
        let lines = agrees(rt, heap, number_of, width, rules.as_slice())?;
        count = count.saturating_add(lines.len());
        large = large.saturating_add(of_size(lines.as_slice(), 3));
    }
    Ok((count, large))
}

// Of 0 to 8 requests, forty tickets each.
#[test]
fn tickets_by_lot(rt: HostRuntime) -> Result<(), Fail> {
    let mut count: usize = 0;
    let mut large: usize = 0;
    for width in 0..=MOST {
        let (lines, few) = width_agrees(&rt, rt.alloc(), width)?;
        count = count.saturating_add(lines);
        large = large.saturating_add(few);
    }
    assert_eq!(rt; (count, 750 < count), (count, true));
    assert_eq!(rt; (large, 30 < large), (large, true));
    Ok(())
}

// With so many checks the report has so many of the lines, all of which take a number of checks; how many lines it has is told.
fn stops(
    rt: &impl Abort,
    heap: Global,
    given: usize,
    full: usize,
    width: u32,
    rules: &[Rule],
    lines: &[Line],
) -> Result<usize, Fail> {
    let text = ticket(heap, width, given, rules)?;
    let told = printed(heap, text.as_bytes())?;
    let count = told.lines().count().saturating_sub(4);
    let come = lines.get(..count).unwrap_or(&[]);
    let tail = Tail {
        checks: given.min(full),
        bound: bound(width, come),
        ended: if given < full { "spent,1" } else { "all" },
    };
    let want = report(heap, width, come, tail)?;
    assert_eq!(rt; told.as_str(), want.as_str(), "{given} of {full} checks");
    Ok(count)
}

// A check brings one line at most.
fn stops_at_each(rt: &impl Abort, heap: Global, width: u32, rules: &[Rule]) -> Result<(), Fail> {
    let lines = table_of(width, rules).listed(heap)?;
    let text = ticket(heap, width, PLENTY, rules)?;
    let told = printed(heap, text.as_bytes())?;
    let full = number(told.as_str(), "checks=").unwrap_or(0);
    let mut last: usize = 0;
    for given in 0..=full {
        let count = stops(rt, heap, given, full, width, rules, lines.as_slice())?;
        assert_eq!(rt;
            (given, count, last <= count, count <= last.saturating_add(1)),
            (given, count, true, true)
        );
        last = count;
    }
    assert_eq!(rt; last, lines.len());
    stops(
        rt,
        heap,
        full.saturating_add(1),
        full,
        width,
        rules,
        lines.as_slice(),
    )?;
    Ok(())
}

// Tickets that may have any number of checks up to the full one.
const STOPPED: u32 = 45;

#[test]
fn tickets_with_few_checks(rt: HostRuntime) -> Result<(), Fail> {
    let mut lot = Lot { state: SEED };
    for number_of in 0..STOPPED {
        let width = number_of % (MOST + 1);
        let rules = lot.ticket_rules(rt.alloc(), width)?;
        stops_at_each(&rt, rt.alloc(), width, rules.as_slice())?;
    }
    Ok(())
}
