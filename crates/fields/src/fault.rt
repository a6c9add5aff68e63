// Why a line is refused. A field's fault goes whole into its line's.
ghost use Rattle.std.specs.Prelude.{◌≡◌, Some};
ghost use Rattle.fields.specs.Faults.{told_field, told_line};
ghost use Rattle.fields.specs.Words.{flaw_words, field_words, line_words};
ghost use Rattle.fields.specs.declared.fault.LineFault.TheVariants.{Field};

use std::error::Error;
use std::fmt;

#[derive(Clone, Copy, PartialEq, Eq, Debug)]
pub enum Flaw {
    Form = 5,
    Range = 6,
    Order = 7,
    Table = 8,
}

#[derive(Clone, Copy, PartialEq, Eq, Debug)]
pub struct FieldFault {
    pub flaw: Flaw,
    pub line: usize,
    pub field: usize,
}

// Each of the first three has the number of the line.
#[derive(Clone, Copy, PartialEq, Eq, Debug)]
pub enum LineFault {
    Cut(usize),
    Key(usize),
    Count(usize),
    Field(FieldFault),
}

// Written out: std derives no `From`, and no contract says what one that `thiserror` derives makes.
impl From<FieldFault> for LineFault {
    ghost from_gives = { λ e r. r ≡ Field e };

    fn from(fault: FieldFault) -> LineFault {
        LineFault::Field(fault)
    }
}

impl FieldFault {
    // The number of the refusal, the line and the field.
    pub fn told(self) -> (u32, usize, usize)
        ensures { result ≡ told_field self }
    {
        (self.flaw as u32, self.line, self.field)
    }
}

impl LineFault {
    // A case that holds a value can have no discriminant, so the numbers stand here.
    pub fn told(self) -> (u32, usize, usize)
        ensures { result ≡ told_line self }
    {
        match self {
            LineFault::Cut(line) => (2, line, 0),
            LineFault::Key(line) => (3, line, 0),
            LineFault::Count(line) => (4, line, 0),
            LineFault::Field(fault) => fault.told(),
        }
    }
}

// In words, what is wrong with a field.
impl fmt::Display for Flaw {
    ghost output = { λ w. Some (flaw_words w) };

    fn fmt<W: fmt::Write>(&self, f: &mut fmt::Formatter<W>) -> fmt::Result {
        match *self {
            Flaw::Form => write!(f, "the field is not written as it must be (FORM)"),
            Flaw::Range => write!(f, "the number is outside its range (RANGE)"),
            Flaw::Order => write!(
                f,
                "an option or face must be above the one before it (ORDER)"
            ),
            Flaw::Table => write!(f, "there are more rules than the list has room for (TABLE)"),
        }
    }
}

// The place, and what is wrong there.
impl fmt::Display for FieldFault {
    ghost output = { λ e. Some (field_words e) };

    fn fmt<W: fmt::Write>(&self, f: &mut fmt::Formatter<W>) -> fmt::Result {
        let line = self.line;
        let field = self.field;
        let flaw = self.flaw;
        write!(f, "line {line}, field {field}: {flaw}")
    }
}

// The same of a line.
impl fmt::Display for LineFault {
    ghost output = { λ e. Some (line_words e) };

    fn fmt<W: fmt::Write>(&self, f: &mut fmt::Formatter<W>) -> fmt::Result {
        match *self {
            LineFault::Cut(line) => {
                write!(
                    f,
                    "line {line}: the ticket ends before this line does (CUT)"
                )
            }
            LineFault::Key(line) => {
                write!(
                    f,
                    "line {line}: it does not begin with the key that is due and `=` (KEY)"
                )
            }
            LineFault::Count(line) => {
                write!(
                    f,
                    "line {line}: it has more or fewer fields than it may have (COUNT)"
                )
            }
            LineFault::Field(fault) => write!(f, "{fault}"),
        }
    }
}

impl Error for FieldFault {}

impl Error for LineFault {}
