// The lines of a ticket that have fields, and what may stand in each field.
ghost use Rattle.std.specs.Prelude.{◌≡◌};
ghost use Rattle.fields.specs.Layout.{fewest, most, ends_in_set, numbers as plain_numbers, header_column, rule_column, column as column_of};

use oracle::{LIMIT, WIDEST};
use rules::{Kind, LAST_FACE, LAST_MARK, LAST_OPTION, MOST_MEMBERS, WIDEST_GAP};

// The most rules of a ticket; the most requests and checks are those of an oracle.
pub const MOST_RULES: u32 = 96;

#[derive(Clone, Copy, PartialEq, Eq)]
pub enum Heading {
    Ticket,
    Requests,
    Checks,
    Rules,
}

#[derive(Clone, Copy)]
pub enum Sort {
    Header(Heading),
    Rule(Kind),
}

// A number; a number or `-`; a number that may have `-` before it.
#[derive(Clone, Copy)]
pub enum Style {
    Number,
    Head,
    Width,
}

// How a field is written, and the range of its number; of a signed one, how far from nought it may be.
#[derive(Clone, Copy)]
pub struct Column {
    pub style: Style,
    pub low: u32,
    pub high: u32,
}

fn numbers(low: u32, high: u32) -> Column
    ensures { result ≡ plain_numbers low high }
{
    Column {
        style: Style::Number,
        low,
        high,
    }
}

impl Heading {
    fn column(self) -> Column
        ensures { result ≡ header_column self }
    {
        match self {
            Heading::Ticket => numbers(1, 1),
            Heading::Requests => numbers(0, WIDEST),
            Heading::Checks => numbers(0, LIMIT),
            Heading::Rules => numbers(0, MOST_RULES),
        }
    }
}

// A field of a rule, after the owner. The arms are the rows of a table, and so they stay a `match`.
fn rule_column(kind: Kind, field: usize) -> Column
    ensures { result ≡ rule_column kind field }
{
    match kind {
        Kind::Options if field == 2 => Column {
            style: Style::Head,
            low: 0,
            high: LAST_OPTION,
        },
        Kind::Gaps if field == 4 => Column {
            style: Style::Width,
            low: 0,
            high: WIDEST_GAP,
        },
        Kind::Gaps => numbers(0, LAST_MARK),
        Kind::Faces if field == 2 => numbers(0, 1),
        Kind::Options => numbers(0, LAST_OPTION),
        Kind::Faces => numbers(0, LAST_FACE),
    }
}

impl Sort {
    pub fn fewest(self) -> usize
        ensures { result ≡ fewest self }
    {
        match self {
            Sort::Header(_) => 1,
            Sort::Rule(Kind::Options) => 2,
            Sort::Rule(Kind::Gaps) => 4,
            Sort::Rule(Kind::Faces) => 3,
        }
    }

    pub fn most(self) -> usize
        ensures { result ≡ most self }
    {
        match self {
            Sort::Header(_) => 1,
            Sort::Rule(Kind::Gaps) => 4,
            Sort::Rule(Kind::Options | Kind::Faces) => 2 + MOST_MEMBERS as usize,
        }
    }

    // Whether the fields from the third on are a set, written in rising order.
    pub fn ends_in_set(self) -> bool
        ensures { result ≡ ends_in_set self }
    {
        match self {
            Sort::Header(_) | Sort::Rule(Kind::Gaps) => false,
            Sort::Rule(Kind::Options | Kind::Faces) => true,
        }
    }

    // What may stand in a field, counted from 1, on a ticket of so many requests.
    pub fn column(self, requests: u32, field: usize) -> Column
        ensures { result ≡ column_of self requests field }
    {
        match self {
            Sort::Header(heading) => heading.column(),
            Sort::Rule(_) if field == 1 => numbers(0, requests),
            Sort::Rule(kind) => rule_column(kind, field),
        }
    }
}
