// Tickets and reports as text, written from docs/TICKET.md and from what a report is to say. They share no step with the reader and with the report.
use listing::Line;
use report::explain;
use rules::{Body, Rule};
use sets::{Mask, Set};
use std::alloc::{AllocError, Global};

fn push_members(text: &mut String, members: Mask) -> Result<(), AllocError> {
    for i in 0..32_u32 {
        if members.contains(i) {
            write!(text, ",{i}")?;
        }
    }
    Ok(())
}

// A rule line; a blank rule has none.
fn push_rule(text: &mut String, rule: &Rule) -> Result<(), AllocError> {
    let owner = rule.owner;
    match rule.body {
        None => return Ok(()),
        Some(Body::Options { head, options }) => {
            match head {
                None => write!(text, "h={owner},-")?,
                Some(head) => write!(text, "h={owner},{head}")?,
            }
            push_members(text, options.members)?;
        }
        Some(Body::Gap { a, b, w }) => write!(text, "g={owner},{a},{b},{w}")?,
        Some(Body::Faces { odd, faces }) => {
            let bit = u32::from(odd);
            write!(text, "f={owner},{bit}")?;
            push_members(text, faces.members)?;
        }
    }
    text.push('\n')
}

// The ticket of so many requests and checks with these rules, of which none is blank.
pub fn ticket(
    heap: Global,
    requests: u32,
    checks: usize,
    rules: &[Rule],
) -> Result<String, AllocError> {
    let count = rules.len();
    let mut text = format!(in heap;
        "ticket=1\nrequests={requests}\nchecks={checks}\nrules={count}\n"
    )?;
    for rule in rules {
        push_rule(&mut text, rule)?;
    }
    text.push_str("end=ticket\n")?;
    Ok(text)
}

fn push_numbers(text: &mut String, set: Set) -> Result<(), AllocError> {
    let mut before = "=";
    for i in 0..32_u32 {
        if (set.bits() >> i) % 2 == 1 {
            let request = i + 1;
            write!(text, "{before}{request}")?;
            before = ",";
        }
    }
    text.push_str(if set.bits() == 0 { "=-\n" } else { "\n" })
}

fn push_line(text: &mut String, line: &Line) -> Result<(), AllocError> {
    match line {
        Line::Conflict(set) => {
            text.push_str("conflict")?;
            push_numbers(text, *set)
        }
        Line::Relaxation(set) => {
            text.push_str("relaxation")?;
            push_numbers(text, *set)
        }
    }
}

// What a report says after its lines: how many checks, the bound, and how it ended.
#[derive(Clone, Copy)]
pub struct Tail {
    pub checks: usize,
    pub bound: usize,
    pub ended: &'static str,
}

// The report of so many requests, with these lines.
pub fn report(
    heap: Global,
    requests: u32,
    lines: &[Line],
    tail: Tail,
) -> Result<String, AllocError> {
    let mut text = format!(in heap; "requests={requests}\n")?;
    for line in lines {
        push_line(&mut text, line)?;
    }
    let Tail {
        checks,
        bound,
        ended,
    } = tail;
    write!(text, "checks={checks}\nbound={bound}\nended={ended}\n")?;
    Ok(text)
}

// The number behind a key of a report; none where no line has it.
pub fn number(told: &str, key: &str) -> Option<usize> {
    told.lines()
        .find_map(|line| line.strip_prefix(key))?
        .parse()
        .ok()
}

// What is printed of the answer to a ticket.
pub fn printed(heap: Global, text: &[u8]) -> Result<String, AllocError> {
    let answer = explain(heap, text)?;
    format!(in heap; "{answer}")
}
