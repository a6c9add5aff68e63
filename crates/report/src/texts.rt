// The report as text.
ghost use Rattle.std.specs.Prelude.{Some};
ghost use Rattle.sets.specs.Sets.{bits_of};
ghost use Rattle.report.specs.Answered.{text_told};
ghost use Rattle.report.specs.Texts.{set_text, line_text, ended_text};

use listing::{Line, Listing};
use oracle::WIDEST;
use sets::Set;
use std::fmt;

// The numbers of the requests of a set, rising, with commas between them; `-` where there is none.
#[derive(Clone, Copy)]
pub(crate) struct Numbers(Set);

impl fmt::Display for Numbers {
    ghost output = { λ n. Some (set_text (bits_of n.0)) };

    fn fmt<W: fmt::Write>(&self, f: &mut fmt::Formatter<W>) -> fmt::Result {
        if self.0.is_empty() {
            return write!(f, "-");
        }
        let mut comma = "";
        for request in 1..WIDEST + 1 {
            if self.0.contains(request) {
                write!(f, "{comma}{request}")?;
                comma = ",";
            }
        }
        Ok(())
    }
}

// A line of the report: its key, its set, and byte 10.
#[derive(Clone, Copy)]
pub(crate) struct KeyedLine(Line);

impl fmt::Display for KeyedLine {
    ghost output = { λ l. Some (line_text l.0) };

    fn fmt<W: fmt::Write>(&self, f: &mut fmt::Formatter<W>) -> fmt::Result {
        match self.0 {
            Line::Conflict(set) => write!(f, "conflict={}\n", Numbers(set)),
            Line::Relaxation(set) => write!(f, "relaxation={}\n", Numbers(set)),
        }
    }
}

// How a listing ended.
#[derive(Clone, Copy, PartialEq, Eq, Debug)]
pub(crate) enum Ended {
    // Every minimal conflict and every maximal relaxation is listed.
    All,
    // There was no room for a further line.
    Full,
    // No check was left; the label is that of whoever counts them.
    Spent { label: u8 },
}

impl fmt::Display for Ended {
    ghost output = { λ e. Some (ended_text e) };

    fn fmt<W: fmt::Write>(&self, f: &mut fmt::Formatter<W>) -> fmt::Result {
        match *self {
            Ended::All => write!(f, "all"),
            Ended::Full => write!(f, "full"),
            Ended::Spent { label } => write!(f, "spent,{label}"),
        }
    }
}

/// All that is told of an accepted ticket. It is printed without memory of its own.
#[derive(Drop)]
pub struct Report {
    pub(crate) requests: u32,
    pub(crate) listing: Listing,
    pub(crate) checks: usize,
    pub(crate) bound: usize,
    pub(crate) ended: Ended,
}

impl fmt::Display for Report {
    ghost output = { λ r. Some (text_told r) };

    fn fmt<W: fmt::Write>(&self, f: &mut fmt::Formatter<W>) -> fmt::Result {
        let requests = self.requests;
        write!(f, "requests={requests}\n")?;
        for line in self.listing.lines() {
            write!(f, "{}", KeyedLine(*line))?;
        }
        let checks = self.checks;
        let bound = self.bound;
        let ended = self.ended;
        write!(f, "checks={checks}\nbound={bound}\nended={ended}\n")
    }
}
