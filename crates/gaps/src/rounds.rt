// Rounds over the rules, each of which lifts the marks by the places that they had before it.
ghost use Rattle.std.specs.Prelude.{◌≡◌, true};
ghost use Rattle.gaps.specs.Verdict.{Found};
ghost use Rattle.rules.specs.Force.{said, body_valid};
ghost use Rattle.rules.specs.Rounds.{Between, raised, raised_all};
ghost use Rattle.sets.specs.Sets.{bits_of};

use rules::{Body, Kind, LAST_MARK, Rule};
use sets::Set;

// How many marks there are, and how many rounds at most: a round takes a mark up by 10,000 at most.
pub const MARKS: usize = LAST_MARK as usize + 1;

// Lifts the mark that this rule asks to lie higher by the old places; one that lies there already stays.
fn raise(body: Body, old: &[i32; MARKS], new: &mut [i32; MARKS])
    requires valid { body_valid body ≡ true }
    requires low { Between 150000 old.now }
    ensures { new.new ≡ raised body old.now new.old }
{
    if let Body::Gap { a, b, w } = body {
        let to = old[a as usize] - w;
        new[b as usize] = to.max(new[b as usize]);
    }
}

// Where the marks lie after a round: each where the rules ask it to be by the old places, or higher if it lay there.
fn lift(rules: &[Rule], set: Set, old: &[i32; MARKS]) -> [i32; MARKS]
    requires { Between 150000 old.now }
    ensures { result ≡ raised_all (said (bits_of set) rules.now) old.now old.now }
{
    let mut new = *old;
    for rule in rules {
        if !rule.is_of(Kind::Gaps) {
            continue;
        }
        let Some(body) = rule.in_force(set) else {
            continue;
        };
        raise(body, old, &mut new);
    }
    new
}

// Places that serve, found from nought upward, or none where no places do. Marks are a table, since a check asks for no memory.
// Until nothing changes, as `spread` of `options`: one loop over a closure for both would need what each keeps in its contract.
pub fn settle(rules: &[Rule], set: Set) -> Option<[i32; MARKS]>
    ensures { Found rules.now (bits_of set) result }
{
    let mut marks = [0; MARKS];
    for _ in 0..MARKS {
        let next = lift(rules, set, &marks);
        if next == marks {
            return Some(marks);
        }
        marks = next;
    }
    None
}
