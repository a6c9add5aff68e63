// The least options that serve: from none on, a rule whose options are all on turns its head on, until a sweep changes nothing.
ghost use Rattle.std.specs.Prelude.{◌≡◌};
ghost use Rattle.std.specs.Option.{option_map};
ghost use Rattle.sets.specs.Masks.{number_of};
ghost use Rattle.sets.specs.Members.{none};
ghost use Rattle.sets.specs.Sets.{bits_of};
ghost use Rattle.rules.specs.Propagation.{sweep as swept, spread as spread_by, most_sweeps, bars_if, barred, least as least_of};
ghost use Rattle.options.specs.Propagating.{head_turned_on as head_of, in_force_all};
ghost use Rattle.options.specs.Verdict.{options_of};

use rules::{Body, Kind, LAST_OPTION, OptionSet, Rule};
use sets::{Mask, Set};

// Each sweep but the last turns one of 32 options on.
const MOST_SWEEPS: u32 = LAST_OPTION + 2;

// The head that a rule with this body, if it is in force, turns on: it is off, and all of the options are on.
fn head_turned_on(body: Option<Body>, on: Mask) -> Option<u32>
    ensures { result ≡ head_of body (number_of on) }
{
    match body {
        Some(
            Body::Options {
                head: Some(head),
                options,
            },
        ) if options.members.is_part_of(on) && !on.contains(head) => Some(head),
        _ => None,
    }
}

// Whether a rule that says this is headless and has all of its options on.
fn forbids(body: Option<Body>, on: Mask) -> bool
    ensures { result ≡ bars_if body (number_of on) }
{
    match body {
        Some(
            Body::Options {
                head: None,
                options,
            },
        ) => options.members.is_part_of(on),
        _ => false,
    }
}

// The rules of a list, and the requests that ask for them.
#[derive(Drop)]
pub struct Propagation<'a> {
    pub rules: &'a [Rule],
    pub set: Set,
}

impl<'a> Propagation<'a> {
    // What is on when every rule has had its turn. Whether one is in force is looked at last, as in
    // `bars`: it takes longest, and most rules turn nothing more on.
    fn sweep(&self, on: Mask) -> Mask
        ensures { number_of result ≡ swept (in_force_all self.now) (number_of on) }
    {
        let mut next = on;
        for rule in self.rules {
            if !rule.is_of(Kind::Options) {
                continue;
            }
            let Some(head) = head_turned_on(rule.body, next) else {
                continue;
            };
            if rule.in_force(self.set).is_none() {
                continue;
            }
            next = next.with(head);
        }
        next
    }

    // What is on when no rule turns more on. Until nothing changes, as `settle` of `gaps`: one loop over a closure for both would need what each keeps in its contract.
    fn spread(&self) -> Mask
        ensures { number_of result ≡ spread_by most_sweeps (in_force_all self.now) none }
    {
        let mut on = Mask::empty();
        for _ in 0..MOST_SWEEPS {
            let next = self.sweep(on);
            if next == on {
                return on;
            }
            on = next;
        }
        on
    }

    // Whether some rule bars what is on. Most bar nothing.
    fn bars(&self, on: Mask) -> bool
        ensures { result ≡ barred (in_force_all self.now) (number_of on) }
    {
        for rule in self.rules {
            if !rule.is_of(Kind::Options) {
                continue;
            }
            if !forbids(rule.body, on) {
                continue;
            }
            if rule.in_force(self.set).is_none() {
                continue;
            }
            return true;
        }
        false
    }

    // The least options that serve, or none where no options serve.
    pub fn least(&self) -> Option<OptionSet>
        ensures { option_map options_of result ≡ least_of (in_force_all self.now) }
    {
        let on = self.spread();
        if self.bars(on) {
            None
        } else {
            Some(OptionSet { members: on })
        }
    }
}
