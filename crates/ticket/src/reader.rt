// A whole ticket: its header lines, its rule lines and its end.
ghost use Rattle.std.specs.Prelude.{◌≡◌, ◌+◌, ◌≤◌, List, [], ◌++◌, length, drop, IfOk, Ok, Err, MatchResult};
ghost use Rattle.std.specs.Result.{result_map_both};
ghost use Rattle.rules.specs.declared.Rule.{Rule as RuleRecord};
ghost use Rattle.ticket.specs.Refuses.{RefusesByFirst};
ghost use Rattle.ticket.specs.Tickets.{Exact};
ghost use Rattle.fields.specs.Formed.{in_line};
ghost use Rattle.ticket.specs.Lines.{rule_lines as rule_lines_of};
ghost use Rattle.ticket.specs.Reading.{has_room, headers as headers_of, lines as lines_of, reading, answer, rules_read, padded};

use crate::fault::TicketFault;
use crate::lines::Rest;
use fields::{FieldFault, Flaw, Heading, LineFault};
use rules::Rule;

// The numbers of a ticket: its requests, the checks allowed, and its rules.
#[derive(Clone, Copy, PartialEq, Eq, Debug)]
pub struct Header {
    pub requests: u32,
    pub checks: u32,
    pub rules: u32,
}

// The most bytes of a ticket.
pub const LONGEST: usize = 16_384;

// TABLE, of line 4: the list handed over has room for so many rules.
fn check_room(rules: u32, room: usize) -> Result<(), FieldFault>
    ensures { in_line result ≡ has_room rules room }
{
    if rules as usize <= room {
        return Ok(());
    }
    Err(FieldFault {
        flaw: Flaw::Table,
        line: 4,
        field: 1,
    })
}

// The four header lines, and what is left of the text.
fn headers(text: &[u8], room: usize) -> Result<(Header, Rest<'_>), LineFault>
    ensures value { result_map_both (λ p. (p.0, p.1.text.now)) (λ e. e) result ≡ headers_of room text.now }
    ensures next { IfOk result (λ p. p.1.line ≡ 5) }
    ensures few { IfOk result (λ p. p.0.rules ≤ room) }
{
    let mut rest = Rest { line: 1, text };
    rest.header(Heading::Ticket)?;
    let requests = rest.header(Heading::Requests)?;
    let checks = rest.header(Heading::Checks)?;
    let rules = rest.header(Heading::Rules)?;
    check_room(rules, room)?;
    let header = Header {
        requests,
        checks,
        rules,
    };
    Ok((header, rest))
}

// As many rule lines as there are places to fill.
fn rule_lines(requests: u32, rest: &mut Rest<'_>, rules: &mut [Rule]) -> Result<(), LineFault>
    ensures { MatchResult result (λ _. (rule_lines_of (length rules.old) requests rest.old.line rest.old.text.now ≡ Ok (rules.new, rest.new.text.now)) × (rest.new.line ≡ rest.old.line + length rules.old)) (λ e. rule_lines_of (length rules.old) requests rest.old.line rest.old.text.now ≡ Err e) }
{
    for place in rules.iter_mut() {
        *place = rest.rule(requests)?;
    }
    Ok(())
}

// Every line; gives what is left after the last, and writes the rules to the front of the list.
fn lines<'a>(text: &'a [u8], rules: &mut [Rule]) -> Result<(Header, Rest<'a>), LineFault>
    ensures { MatchResult result (λ p. (rs : List RuleRecord) × (lines_of (length rules.old) text.now ≡ Ok (p.0, rs, p.1.text.now)) × (p.1.line ≡ p.0.rules + 6) × (rules.new ≡ rs ++ drop (length rs) rules.old)) (λ e. lines_of (length rules.old) text.now ≡ Err e) }
{
    let (header, mut rest) = headers(text, rules.len())?;
    let n = header.rules as usize;
    rule_lines(header.requests, &mut rest, &mut rules[0..n])?;
    rest.end()?;
    Ok((header, rest))
}

// LONG, every line, and TAIL; what it leaves in the list at a fault is open. The list is the one that is lent to be filled, so it goes beside the text.
fn read_all(text: &[u8], rules: &mut [Rule]) -> Result<Header, TicketFault>
    ensures { MatchResult result (λ h. (rs : List RuleRecord) × (reading text.now (length rules.old) ≡ Ok (h, rs)) × (rules.new ≡ rs ++ drop (length rs) rules.old)) (λ e. reading text.now (length rules.old) ≡ Err e) }
{
    if text.len() > LONGEST {
        return Err(TicketFault::Long);
    }
    let (header, rest) = lines(text, rules)?;
    if !rest.text.is_empty() {
        return Err(TicketFault::Tail(rest.line));
    }
    Ok(header)
}

// The same from a blank list, so that the entries behind the rules are blank. Each of the three says of the same `reading` what it adds.
fn read_afresh(text: &[u8], rules: &mut [Rule]) -> Result<Header, TicketFault>
    ensures answer { result ≡ answer (reading text.now (length rules.old)) }
    ensures list { MatchResult result (λ _. rules.new ≡ padded (length rules.old) (rules_read (reading text.now (length rules.old)))) (λ _. rules_read (reading text.now (length rules.old)) ≡ []) }
    ensures exact { Exact text.now (length rules.old) }
    ensures first { RefusesByFirst text.now (length rules.old) result }
{
    rules.fill(Rule::blank());
    read_all(text, rules)
}

/// Reads a ticket: its numbers, and its rules into the list, whose other entries are then blank. A
/// refusal leaves every entry blank, and tells number, line and field of the first that applies: a
/// text is refused so exactly when that refusal is true of it.
pub fn read(text: &[u8], rules: &mut [Rule]) -> Result<Header, TicketFault>
    ensures answer { result ≡ answer (reading text.now (length rules.old)) }
    ensures list { rules.new ≡ padded (length rules.old) (rules_read (reading text.now (length rules.old))) }
    ensures exact { Exact text.now (length rules.old) }
    ensures first { RefusesByFirst text.now (length rules.old) result }
{
    let answer = read_afresh(text, rules);
    if answer.is_err() {
        rules.fill(Rule::blank());
    }
    answer
}
