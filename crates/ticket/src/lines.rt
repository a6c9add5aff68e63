// The lines of a ticket, one after another.
ghost use Rattle.std.specs.Prelude.{◌≡◌, ◌+◌, ◌^◌, ◌<◌, length, Ok, Err, MatchResult};
ghost use Rattle.fields.specs.Formed.{in_line};
ghost use Rattle.ticket.specs.Lines.{next_line, header_value, header_line, rule_value, rule_line, end_value, end_entry, end_line};

use crate::entry::{Entry, Line};
use crate::ruled::{at, rule_of};
use fields::{FieldFault, Flaw, Form, Heading, LineFault, Sort, Values, cut};
use rules::Rule;

fn end_value(line: usize, value: &[u8]) -> Result<(), FieldFault>
    ensures { in_line result ≡ end_value line value.now }
{
    if value == b"ticket".as_slice() {
        return Ok(());
    }
    Err(FieldFault {
        flaw: Flaw::Form,
        line,
        field: 1,
    })
}

impl Line<'_> {
    // The number of the header that is due.
    fn header(self, heading: Heading) -> Result<u32, LineFault>
        ensures { result ≡ header_value heading self.entry.number self.entry.text.now }
    {
        // A `match`, for the guard on the heading.
        match self.entry() {
            Some(
                Entry::Header {
                    heading: found,
                    line,
                    value,
                },
            ) if found == heading => {
                // The range of no header hangs on the requests, so 0 serves.
                let form = Form {
                    sort: Sort::Header(heading),
                    requests: 0,
                    line,
                };
                let mut values = Values::new();
                form.checked(value, &mut values)?;
                Ok(at(&values, 0).amount())
            }
            _ => Err(LineFault::Key(self.number)),
        }
    }

    // The rule, on a ticket of so many requests.
    fn rule(self, requests: u32) -> Result<Rule, LineFault>
        ensures { result ≡ rule_value requests self.entry.number self.entry.text.now }
    {
        let Some(Entry::Rule { kind, line, value }) = self.entry() else {
            return Err(LineFault::Key(self.number));
        };
        let form = Form {
            sort: Sort::Rule(kind),
            requests,
            line,
        };
        let mut values = Values::new();
        form.checked(value, &mut values)?;
        Ok(rule_of(kind, &values))
    }

    // Nothing, where the line is the end.
    fn end(self) -> Result<(), LineFault>
        ensures { result ≡ end_entry self.entry.number self.entry.text.now }
    {
        let Some(Entry::End { line, value }) = self.entry() else {
            return Err(LineFault::Key(self.number));
        };
        Ok(end_value(line, value)?)
    }
}

// What is left of a ticket, and the number of its next line.
#[derive(Drop)]
pub struct Rest<'a> {
    pub line: usize,
    pub text: &'a [u8],
    // Each line takes a byte, so the number stays in its range.
    ghost numbered: { line + length text.now < 2 ^ 64 },
}

// The readers below say each its own definition of what it reads; a common clause would have to take that as a parameter, and be no shorter.
impl<'a> Rest<'a> {
    // CUT: the line, up to the next byte 10; what stands after that byte is left.
    fn next_line(&mut self) -> Result<Line<'a>, LineFault>
        ensures { MatchResult result (λ l. (next_line self.old.line self.old.text.now ≡ Ok (l.text.now, self.new.text.now)) × (l.number ≡ self.old.line) × (self.new.line ≡ self.old.line + 1)) (λ e. next_line self.old.line self.old.text.now ≡ Err e) }
    {
        let number = self.line;
        let (text, rest) = cut(self.text, b'\n').ok_or(LineFault::Cut(number))?;
        self.line = number + 1;
        self.text = rest;
        Ok(Line { number, text })
    }

    // The next line, which is to be a header.
    pub fn header(&mut self, heading: Heading) -> Result<u32, LineFault>
        ensures { MatchResult result (λ n. (header_line heading self.old.line self.old.text.now ≡ Ok (n, self.new.text.now)) × (self.new.line ≡ self.old.line + 1)) (λ e. header_line heading self.old.line self.old.text.now ≡ Err e) }
    {
        self.next_line()?.header(heading)
    }

    // The next line, which is to be a rule.
    pub fn rule(&mut self, requests: u32) -> Result<Rule, LineFault>
        ensures { MatchResult result (λ r. (rule_line requests self.old.line self.old.text.now ≡ Ok (r, self.new.text.now)) × (self.new.line ≡ self.old.line + 1)) (λ e. rule_line requests self.old.line self.old.text.now ≡ Err e) }
    {
        self.next_line()?.rule(requests)
    }

    // The next line, which is to be the end.
    pub fn end(&mut self) -> Result<(), LineFault>
        ensures { MatchResult result (λ _. (end_line self.old.line self.old.text.now ≡ Ok self.new.text.now) × (self.new.line ≡ self.old.line + 1)) (λ e. end_line self.old.line self.old.text.now ≡ Err e) }
    {
        self.next_line()?.end()
    }
}
