// The fields of a line: how many they are, what they say, and the first that is at fault.
ghost use Rattle.std.specs.Prelude.{◌≡◌, ◌≤◌, length, IfErr, OnOk, Ok, Err, MatchResult};
ghost use Rattle.fields.specs.Cuts.{fields as fields_of};
ghost use Rattle.fields.specs.Faults.{at_field};
ghost use Rattle.fields.specs.Flaws.{TellsFirst, IsFaultless};
ghost use Rattle.fields.specs.Formed.{formed as forms, ranged as ranges, ordered as orders, values_of};
ghost use Rattle.fields.specs.Layout.{most};

use crate::fault::{FieldFault, Flaw, LineFault};
use crate::layout::Sort;
use crate::value::{Value, said};
use arrayvec::ArrayVec;
use memchr::memchr_iter;
use rules::MOST_MEMBERS;

// The most fields of any line.
pub const MOST: usize = 2 + MOST_MEMBERS as usize;

/// What the fields of one line say.
pub type Values = ArrayVec<Value, MOST>;

// A line whose fields are to be read: its sort, the requests of its ticket, and its number.
#[derive(Clone, Copy)]
pub struct Form {
    pub sort: Sort,
    pub requests: u32,
    pub line: usize,
}

// One more than the commas.
fn count(value: &[u8]) -> usize
    ensures { result ≡ length (fields_of value.now) }
{
    memchr_iter(b',', value).count() + 1
}

impl Form {
    // The fault of one field, counted from 1.
    fn fault(self, flaw: Flaw, field: usize) -> FieldFault
        ensures { result ≡ at_field flaw self.line field }
    {
        FieldFault {
            flaw,
            line: self.line,
            field,
        }
    }

    // FORM: what each field says, into a list that is lent, since one that is handed back is copied
    // twice. How a field is written does not hang on the requests, so 0 serves.
    fn formed(self, value: &[u8], values: &mut Values) -> Result<(), FieldFault>
        requires { length (fields_of value.now) ≤ most self.sort }
        ensures { MatchResult result
            (λ _. forms self.sort self.line 1 (fields_of value.now) ≡ Ok values.new.items)
            (λ e. forms self.sort self.line 1 (fields_of value.now) ≡ Err e) }
    {
        values.clear();
        for (i, text) in value.split(|b| *b == b',').enumerate() {
            let field = i + 1;
            let Some(said) = said(self.sort.column(0, field).style, text) else {
                return Err(self.fault(Flaw::Form, field));
            };
            values.push(said);
        }
        Ok(())
    }

    // RANGE. A `for` that leaves with the fault: of a `position` the fault would still have to be made.
    fn ranged(self, values: &[Value]) -> Result<(), FieldFault>
        ensures { result ≡ ranges self.sort self.requests self.line values.now }
    {
        for (i, value) in values.iter().enumerate() {
            let field = i + 1;
            if !value.is_inside(self.sort.column(self.requests, field)) {
                return Err(self.fault(Flaw::Range, field));
            }
        }
        Ok(())
    }

    // ORDER, of a line whose fields from the third on are a set. A `for`, since each number is held to the one before it.
    fn ordered(self, values: &[Value]) -> Result<(), FieldFault>
        ensures { result ≡ orders self.sort self.line values.now }
    {
        if !self.sort.ends_in_set() {
            return Ok(());
        }
        let mut before: Option<u32> = None;
        for (i, value) in values.iter().enumerate().skip(2) {
            let n = value.amount();
            if !before.is_none_or(|m| m < n) {
                return Err(self.fault(Flaw::Order, i + 1));
            }
            before = Some(n);
        }
        Ok(())
    }

    /// COUNT, FORM, RANGE and ORDER; writes what the fields say to the list, in place of what it
    /// held. The fault that it tells is the first that the value has, and what the list then holds
    /// is open; what it takes has none.
    pub fn checked(self, value: &[u8], values: &mut Values) -> Result<(), LineFault>
        ensures value { MatchResult result
            (λ _. values_of self.sort self.requests self.line value.now ≡ Ok values.new.items)
            (λ e. values_of self.sort self.requests self.line value.now ≡ Err e) }
        ensures first { IfErr result (TellsFirst self.sort self.requests self.line value.now) }
        ensures none { OnOk result
            (IsFaultless self.sort self.requests value.now values.new.items) }
    {
        if !(self.sort.fewest()..=self.sort.most()).contains(&count(value)) {
            return Err(LineFault::Count(self.line));
        }
        self.formed(value, values)?;
        self.ranged(values)?;
        self.ordered(values)?;
        Ok(())
    }
}
