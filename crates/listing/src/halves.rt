// Halving, as a function of the seed and the answers so far.
ghost use Rattle.std.specs.Prelude.{◌≡◌};
ghost use Rattle.sets.specs.Members.{none};
ghost use Rattle.sets.specs.Sets.{bits_of};
ghost use Rattle.listing.specs.Halving.{halve as defined_halve, halving_of, outcome};
ghost use Rattle.listing.specs.CodeHalved.{halved};

use sets::Set;

// What comes next in a halving.
#[derive(Clone, Copy, PartialEq, Eq, Debug)]
pub enum Outcome {
    // The set to check.
    Ask(Set),
    // The result.
    Done(Set),
}

// What comes next in the halving of a part, with the answers that were not read.
#[derive(Clone, Copy)]
enum Halved<'a> {
    Asks(Set),
    Ends { result: Set, rest: &'a [bool] },
}

// How many times in a row a set of 32 requests is halved until each part has one.
const DEEPEST: u32 = 5;

// What comes next in the halving of a seed, after these answers.
pub fn halving(seed: Set, answers: &[bool]) -> Outcome
    ensures { result ≡ outcome (halving_of (bits_of seed) answers.now) }
{
    match halve(DEEPEST, Set::empty(), Set::empty(), seed, answers) {
        Halved::Asks(set) => Outcome::Ask(set),
        Halved::Ends { result, rest: _ } => Outcome::Done(result),
    }
}

// Where the part added last is not empty, the next answer is that on the held set, or it is asked for: if it is unfit, the result is empty. Otherwise the part is taken apart.
#[cycle(halving)]
fn halve(depth: u32, held: Set, added: Set, part: Set, answers: &[bool]) -> Halved<'_>
    ensures { halved result ≡ defined_halve depth (bits_of held) (bits_of added) (bits_of part) answers.now }
{
    if added.is_empty() {
        return take_apart(depth, held, part, answers);
    }
    match answers {
        [] => Halved::Asks(held),
        [fit, rest @ ..] => {
            if *fit {
                take_apart(depth, held, part, rest)
            } else {
                Halved::Ends {
                    result: Set::empty(),
                    rest,
                }
            }
        }
    }
}

// The same with no check of the held set. A set of more than one request is taken apart: first what is to blame in the upper half, then what is to blame in
// the lower.
#[cycle(halving)]
fn take_apart(depth: u32, held: Set, part: Set, answers: &[bool]) -> Halved<'_>
    ensures { halved result ≡ defined_halve depth (bits_of held) none (bits_of part) answers.now }
{
    if depth == 0 || part.len() <= 1 {
        return Halved::Ends {
            result: part,
            rest: answers,
        };
    }
    let first = part.lower_half();
    let second = part.minus(first);
    match halve(depth - 1, held.union(first), first, second, answers) {
        Halved::Asks(set) => Halved::Asks(set),
        Halved::Ends {
            result: upper,
            rest,
        } => match halve(depth - 1, held.union(upper), upper, first, rest) {
            Halved::Asks(set) => Halved::Asks(set),
            Halved::Ends {
                result: lower,
                rest,
            } => Halved::Ends {
                result: lower.union(upper),
                rest,
            },
        },
    }
}
