// Whether some choice of options 0 to 3, of marks 0 to 2 or of faces 0 to 3 meets the rules in force, by trying each; and lists of such rules, by lot.
// It is written from docs/RULES.md, and shares no step with the oracles.
use crate::made::{faces, options};
use rules::{Body, Kind, Rule};
use sets::Mask;
use std::array;

// How many options, and how many faces.
const FEW: u32 = 4;

// How many choices there are; each has a number. An option is on, or a face at the back, where the number has the bit 1 at its place.
// Mark 0 lies at 0, and the marks 1 and 2 lie each from -6 to 6. With w from -2 to 2 that is enough. For suppose that some places serve, and that two
// neighbours lie more than 2 apart. Draw the lower, with all below it, up until they lie 2 apart. Of a mark above that hole and one below it, the upper
// minus the lower becomes less, and the lower minus the upper is still -2 or less; so every gap is met still. When no two neighbours lie more than
// 2 apart, no two of three marks lie more than 4 apart, and since gaps ask only of differences, all can be moved until mark 0 lies at 0.
fn choices(kind: Kind) -> u32 {
    match kind {
        Kind::Options => 16,
        Kind::Gaps => 169,
        Kind::Faces => 16,
    }
}

fn is_on(choice: u32, i: u32) -> bool {
    i < 32 && (choice >> i) % 2 == 1
}

fn all_on(choice: u32, options: Mask) -> bool {
    (0..FEW)
        .filter(|i| options.contains(*i))
        .all(|i| is_on(choice, i))
}

fn adds_up_odd(choice: u32, faces: Mask) -> bool {
    let back = (0..FEW).filter(|i| faces.contains(*i) && is_on(choice, *i));
    back.count() % 2 == 1
}

fn place(choice: u32, mark: u32) -> i64 {
    match mark {
        0 => 0,
        1 => i64::from(choice % 13) - 6,
        _ => i64::from(choice / 13 % 13) - 6,
    }
}

// Whether a choice of that kind meets a rule; a rule of another kind speaks of other choices.
fn meets(kind: Kind, choice: u32, rule: &Rule) -> bool {
    match (kind, rule.body) {
        (Kind::Options, Some(Body::Options { head, options })) => {
            !all_on(choice, options.members) || head.is_some_and(|head| is_on(choice, head))
        }
        (Kind::Gaps, Some(Body::Gap { a, b, w })) => {
            place(choice, a).wrapping_sub(place(choice, b)) <= i64::from(w)
        }
        (Kind::Faces, Some(Body::Faces { odd, faces })) => {
            adds_up_odd(choice, faces.members) == odd
        }
        _ => true,
    }
}

// Whether a rule is in force for the set with this number, in which request r is worth 2^(r-1).
fn counts(rule: &Rule, bits: u32) -> bool {
    rule.owner == 0 || is_on(bits, rule.owner - 1)
}

// Rules of which those of one kind are heeded, on a ticket of so many requests.
#[derive(Clone, Copy)]
pub struct Heeded<'a> {
    pub kind: Kind,
    pub rules: &'a [Rule],
    pub width: u32,
}

impl<'a> Heeded<'a> {
    pub fn new(kind: Kind, rules: &'a [Rule], width: u32) -> Heeded<'a> {
        Heeded { kind, rules, width }
    }

    // Whether a choice meets what is in force for the set with this number.
    fn serves(self, choice: u32, bits: u32) -> bool {
        self.rules
            .iter()
            .filter(|rule| counts(rule, bits))
            .all(|rule| meets(self.kind, choice, rule))
    }

    // Whether some choice of that kind serves for the set with this number.
    pub fn some_serves(self, bits: u32) -> bool {
        (0..choices(self.kind)).any(|choice| self.serves(choice, bits))
    }
}

// The most rules of a list by lot.
const MOST: usize = 8;

// Numbers, rules and lists by lot: a linear congruential generator.
#[derive(Drop)]
pub struct Lot {
    pub state: u32,
}

impl Lot {
    // A number from 0 up to the last.
    pub fn draw(&mut self, last: u32) -> u32 {
        self.state = self
            .state
            .wrapping_mul(1_664_525)
            .wrapping_add(1_013_904_223);
        (self.state >> 16) % last.saturating_add(1)
    }

    // With a head or without one, and each option in one rule of four.
    pub fn options(&mut self, owner: u32) -> Rule {
        let bits = self.draw(15) & self.draw(15);
        let head = self.draw(7);
        options(owner, (head < FEW).then_some(head), bits)
    }

    pub fn gap(&mut self, owner: u32) -> Rule {
        let a = self.draw(2);
        let b = self.draw(2);
        Rule::gap(owner, a, b, self.draw(4).cast_signed().wrapping_sub(2))
    }

    pub fn faces(&mut self, owner: u32) -> Rule {
        let odd = self.draw(1) == 1;
        faces(owner, odd, self.draw(14).wrapping_add(1))
    }

    // A rule of that kind; one of four is blank, and now and then one is of another kind.
    fn rule(&mut self, kind: Kind) -> Rule {
        let owner = self.draw(3);
        match (self.draw(15), kind) {
            (0..=3, _) => Rule::blank(),
            (4, _) | (7.., Kind::Options) => self.options(owner),
            (5, _) | (7.., Kind::Gaps) => self.gap(owner),
            _ => self.faces(owner),
        }
    }

    pub fn list(&mut self, kind: Kind) -> [Rule; MOST] {
        array::from_fn(|_| self.rule(kind))
    }
}
