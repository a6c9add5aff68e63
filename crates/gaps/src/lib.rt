// Where the marks can lie, by the rules on gaps that are in force for a set of requests.
#![tactic(auto)]

mod rounds;

ghost use Rattle.std.specs.Prelude.{◌≡◌, min, is_some, refl};
ghost use Rattle.gaps.specs.Examples.{RingOfNought, RingOfLess};
ghost use Rattle.gaps.specs.Verdict.{fit as fit_gaps, Found};
ghost use Rattle.oracle.proofs.Still.{still_checks_mean, still_grants_mean};
ghost use Rattle.oracle.specs.Calls.{StillChecks, StillGrants};
ghost use Rattle.sets.specs.Requests.{widest};
ghost use Rattle.sets.specs.Sets.{bits_of};
ghost use Rattle.rules.proofs.Fewer.{rule_lawful};
ghost use Rattle.rules.proofs.GapsDecided.{gaps_decided};
ghost use Rattle.rules.specs.declared.Kind.TheVariants as kind;

use oracle::{CheckRefusal, GrantRefusal, Oracle, Verdict, granted, refuse_outside};
use rounds::{MARKS, settle};
use rules::{Rule, RuleList};
use sets::Set;

// The rules on gaps of a list; rules of other kinds are passed over.
#[derive(Drop)]
pub struct Gaps<'a> {
    list: RuleList<'a>,
}

impl<'a> Gaps<'a> {
    // The width is cut at 32. Like `new` of the other two kinds, as the block below.
    pub fn new(rules: &'a [Rule], width: u32) -> Gaps<'a>
        ensures { (result.list.rules.now ≡ rules.now) × (result.list.width ≡ min width widest) }
    {
        Gaps {
            list: RuleList::new(rules, width),
        }
    }

    // Places of the marks that serve for a set of requests, or none where no places do.
    fn find(&self, set: Set) -> Option<[i32; MARKS]>
        ensures found { Found self.now.list.rules.now (bits_of set) result }
        ensures verdict { is_some result ≡ fit_gaps self.now.list.rules.now (bits_of set) }
    {
        settle(self.list.rules(), set)
    }
}

// Like the block of `options` and of `faces`: the project has an oracle of its own for each kind of
// rule. What else they share is in `rules` and `oracle`.
impl<'a> Oracle for Gaps<'a> {
    ghost use Rattle.gaps.specs.Meant.{gaps_meaning};

    ghost meaning = { gaps_meaning };

    // No call changes the oracle itself.
    ghost check_leads = { StillChecks gaps_meaning };

    ghost grant_leads = { StillGrants };

    fn width(&self) -> u32 {
        self.list.width()
    }

    fn left(&self) -> Option<u32> {
        None
    }

    // A set with a request above the width is refused; of any other, whether the marks can lie as
    // the gaps in force ask. Nothing changes.
    fn check(&mut self, set: Set) -> Result<Verdict, CheckRefusal> {
        refuse_outside(set, self.list.width())?;
        Ok(Verdict {
            fit: self.find(set).is_some(),
        })
    }

    // There is nothing to count.
    fn grant(&mut self, checks: u32) -> Result<(), GrantRefusal> {
        granted(checks)
    }

    ghost lawful = { λ o. rule_lawful kind.Gaps gaps_decided
        o.list.rules.now o.list.width o.list.narrow };

    ghost check_means = { still_checks_mean gaps_meaning (λ o. refl) };

    ghost grant_means = { still_grants_mean gaps_meaning (λ o. refl) };
}

// A ring of gaps that adds up to nought is fit, and one that adds up to less is not.
pub fn gaps_examples()
    ensures { RingOfNought × RingOfLess }
{}
