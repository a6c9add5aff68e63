// Which sets of requests can be met, as far as the rules of letter h go.
#![tactic(auto)]

mod propagation;

ghost use Rattle.std.specs.Prelude.{◌≡◌, min, is_some, refl};
ghost use Rattle.sets.specs.Requests.{widest};
ghost use Rattle.sets.specs.Sets.{bits_of};
ghost use Rattle.oracle.proofs.Still.{still_checks_mean, still_grants_mean};
ghost use Rattle.oracle.specs.Calls.{StillChecks, StillGrants};
ghost use Rattle.options.specs.Examples.{AloneFits, TogetherUnfit};
ghost use Rattle.options.specs.Verdict.{fit as fit_options, Found};
ghost use Rattle.rules.proofs.Fewer.{rule_lawful};
ghost use Rattle.rules.proofs.OptionsDecided.{options_decided};
ghost use Rattle.rules.specs.declared.Kind.TheVariants as kind;

use oracle::{CheckRefusal, GrantRefusal, Oracle, Verdict, granted, refuse_outside};
use propagation::Propagation;
use rules::{OptionSet, Rule, RuleList};
use sets::Set;

// The rules on options of a list; rules of other kinds are passed over.
#[derive(Drop)]
pub struct Options<'a> {
    list: RuleList<'a>,
}

impl<'a> Options<'a> {
    // The width is cut at 32. Like `new` of the other two kinds, as the block below.
    pub fn new(rules: &'a [Rule], width: u32) -> Options<'a>
        ensures { (result.list.rules.now ≡ rules.now) × (result.list.width ≡ min width widest) }
    {
        Options {
            list: RuleList::new(rules, width),
        }
    }

    // Options that serve for a set of requests, or none where no options do.
    fn find(&self, set: Set) -> Option<OptionSet>
        ensures found { Found self.now.list.rules.now (bits_of set) result }
        ensures verdict { is_some result ≡ fit_options self.now.list.rules.now (bits_of set) }
    {
        let propagation = Propagation {
            rules: self.list.rules(),
            set,
        };
        propagation.least()
    }
}

// Like the block of `gaps` and of `faces`: the project has an oracle of its own for each kind of
// rule. What else they share is in `rules` and `oracle`.
impl<'a> Oracle for Options<'a> {
    ghost use Rattle.options.specs.Meant.{options_meaning};

    ghost meaning = { options_meaning };

    // No call changes the oracle itself.
    ghost check_leads = { StillChecks options_meaning };

    ghost grant_leads = { StillGrants };

    fn width(&self) -> u32 {
        self.list.width()
    }

    fn left(&self) -> Option<u32> {
        None
    }

    // A check changes nothing.
    fn check(&mut self, set: Set) -> Result<Verdict, CheckRefusal> {
        refuse_outside(set, self.list.width())?;
        Ok(Verdict {
            fit: self.find(set).is_some(),
        })
    }

    fn grant(&mut self, checks: u32) -> Result<(), GrantRefusal> {
        granted(checks)
    }

    ghost lawful = { λ o. rule_lawful kind.Options options_decided
        o.list.rules.now o.list.width o.list.narrow };

    ghost check_means = { still_checks_mean options_meaning (λ o. refl) };

    ghost grant_means = { still_grants_mean options_meaning (λ o. refl) };
}

// The definitions find the verdicts on a small list of rules.
pub fn options_examples()
    ensures { AloneFits × TogetherUnfit }
{}
