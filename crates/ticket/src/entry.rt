// What a line of a ticket is, by the key with which it begins.
ghost use Rattle.std.specs.Prelude.{◌≡◌, None, codes, MatchOption};
ghost use Rattle.std.specs.Option.{option_map};
ghost use Rattle.ticket.specs.Entries.{key as key_of, kind_of, lettered};
ghost use Rattle.fields.specs.Cuts.{after as following};
ghost use Rattle.ticket.specs.Entry.{Says, Unknown};

use fields::Heading;
use rules::Kind;

// A line of a ticket: its number, and its text without the byte 10.
#[derive(Clone, Copy)]
pub struct Line<'a> {
    pub number: usize,
    pub text: &'a [u8],
}

// Each case has the number of its line, and the value as the part of the ticket that follows the `=`.
#[derive(Clone, Copy)]
pub enum Entry<'a> {
    Header {
        heading: Heading,
        line: usize,
        value: &'a [u8],
    },
    Rule {
        kind: Kind,
        line: usize,
        value: &'a [u8],
    },
    End {
        line: usize,
        value: &'a [u8],
    },
}

// A header's key, with the `=` after it.
fn key(heading: Heading) -> &'static [u8]
    ensures { result.now ≡ key_of heading }
{
    match heading {
        Heading::Ticket => b"ticket=",
        Heading::Requests => b"requests=",
        Heading::Checks => b"checks=",
        Heading::Rules => b"rules=",
    }
}

// Not a `TryFrom`: the project has the letters in a `match` on `char`s that answers the kind or none.
fn kind_of(letter: char) -> Option<Kind>
    ensures { result ≡ kind_of letter }
{
    match letter {
        'h' => Some(Kind::Options),
        'g' => Some(Kind::Gaps),
        'f' => Some(Kind::Faces),
        _ => None,
    }
}

const HEADINGS: [Heading; 4] = [
    Heading::Ticket,
    Heading::Requests,
    Heading::Checks,
    Heading::Rules,
];

// The clauses of the readers below differ in the key that each looks for; a common one would take it as a parameter, and be no shorter.
impl<'a> Line<'a> {
    // What follows the key, where the line begins with it.
    fn after(self, key: &[u8]) -> Option<&'a [u8]>
        ensures { option_map (λ x. x.now) result ≡ following key.now self.entry.text.now }
    {
        self.text.strip_prefix(key)
    }

    // A letter, the equals sign and the rest: the project has a slice pattern for it.
    fn as_rule(self) -> Option<Entry<'a>>
        ensures { MatchOption result (lettered self.entry.text.now ≡ None) (Says self.entry.number self.entry.text.now) }
    {
        let line = self.number;
        match self.text {
            [letter, b'=', value @ ..] => {
                kind_of(char::from(*letter)).map(|kind| Entry::Rule { kind, line, value })
            }
            _ => None,
        }
    }

    // The key of a header, and the rest.
    fn as_header(self) -> Option<Entry<'a>>
        ensures { MatchOption result ((h : Heading) → following (key_of h) self.entry.text.now ≡ None) (Says self.entry.number self.entry.text.now) }
    {
        let line = self.number;
        // Leaves with the first key that fits. Tried as a `find_map`: no shorter, and the check then does not find what it gives.
        for heading in HEADINGS {
            if let Some(value) = self.after(key(heading)) {
                return Some(Entry::Header {
                    heading,
                    line,
                    value,
                });
            }
        }
        None
    }

    // `end=` and the rest.
    fn as_end(self) -> Option<Entry<'a>>
        ensures { MatchOption result (following (codes "end=") self.entry.text.now ≡ None) (Says self.entry.number self.entry.text.now) }
    {
        let line = self.number;
        self.after(b"end=").map(|value| Entry::End { line, value })
    }

    // The entry that the line is; none where it begins with no key.
    pub fn entry(self) -> Option<Entry<'a>>
        ensures { MatchOption result (Unknown self.entry.text.now) (Says self.entry.number self.entry.text.now) }
    {
        // Leaves at the first key that fits. Not `or`, which looks for all keys of each line, nor
        // `or_else`: these say their answer by cases, and a closure passes on equations alone.
        if let Some(entry) = self.as_rule() {
            return Some(entry);
        }
        if let Some(entry) = self.as_header() {
            return Some(entry);
        }
        self.as_end()
    }
}
