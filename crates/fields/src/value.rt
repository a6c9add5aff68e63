// What a field says.
ghost use Rattle.std.specs.Prelude.{◌≡◌};
ghost use Rattle.fields.specs.Formed.{amount};
ghost use Rattle.fields.specs.Layout.{inside};
ghost use Rattle.fields.specs.Numbers.{number as number_of, plain, head, unsigned, negative, width, said as says};

use crate::layout::{Column, Style};
use crate::number::number;

#[derive(Clone, Copy, Default)]
pub enum Value {
    // `-` where a head is due: there is none
    #[default]
    Dash,
    Plain(u32),
    // where a sign is allowed
    Signed(i32),
}

impl Value {
    // The number without its sign; 0 for `-`.
    pub fn amount(self) -> u32
        ensures { result ≡ amount self }
    {
        match self {
            Value::Dash => 0,
            Value::Plain(n) => n,
            Value::Signed(z) => z.unsigned_abs(),
        }
    }

    // Whether the number lies in the range of its column.
    pub fn is_inside(self, column: Column) -> bool
        ensures { result ≡ inside column self }
    {
        match self {
            Value::Dash => true,
            Value::Plain(n) => (column.low..=column.high).contains(&n),
            Value::Signed(z) => z.unsigned_abs() <= column.high,
        }
    }
}

fn plain(field: &[u8]) -> Option<Value>
    ensures { result ≡ plain (number_of field.now) }
{
    Some(Value::Plain(number(field)?))
}

fn head(field: &[u8]) -> Option<Value>
    ensures { result ≡ head field.now }
{
    match field {
        [b'-'] => Some(Value::Dash),
        _ => plain(field),
    }
}

fn unsigned(field: &[u8]) -> Option<Value>
    ensures { result ≡ unsigned (number_of field.now) }
{
    number(field).map(|n| Value::Signed(n.cast_signed()))
}

// The digits after a `-`; 0 has none before it.
fn negative(digits: &[u8]) -> Option<Value>
    ensures { result ≡ negative (number_of digits.now) }
{
    number(digits)
        .filter(|n| *n > 0)
        .map(|n| Value::Signed(-n.cast_signed()))
}

fn width(field: &[u8]) -> Option<Value>
    ensures { result ≡ width field.now }
{
    match field {
        [b'-', digits @ ..] => negative(digits),
        _ => unsigned(field),
    }
}

// What a field says that is to be written in the given style. Each arm is one style: a table of functions would hide that there are three.
pub fn said(style: Style, field: &[u8]) -> Option<Value>
    ensures { result ≡ says style field.now }
{
    match style {
        Style::Number => plain(field),
        Style::Head => head(field),
        Style::Width => width(field),
    }
}
