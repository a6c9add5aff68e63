// The rules of faces: whether some faces at the back meet all that are in force.
#![tactic(auto)]

mod sums;

ghost use Rattle.std.specs.Prelude.{◌≡◌, min, is_some, refl};
ghost use Rattle.sets.specs.Requests.{widest};
ghost use Rattle.sets.specs.Sets.{bits_of};
ghost use Rattle.oracle.proofs.Still.{still_checks_mean, still_grants_mean};
ghost use Rattle.oracle.specs.Calls.{StillChecks, StillGrants};
ghost use Rattle.faces.specs.Examples.{TwoFit, ThreeUnfit};
ghost use Rattle.faces.specs.Verdict.{fit as fit_faces, Found};
ghost use Rattle.rules.proofs.FacesDecided.{faces_decided};
ghost use Rattle.rules.proofs.Fewer.{rule_lawful};
ghost use Rattle.rules.specs.declared.Kind.TheVariants as kind;

use oracle::{CheckRefusal, GrantRefusal, Oracle, Verdict, granted, refuse_outside};
use rules::{FaceSet, Rule, RuleList};
use sets::Set;
use sums::back;

// The rules of faces of a list; rules of other kinds are passed over.
#[derive(Drop)]
pub struct Faces<'a> {
    list: RuleList<'a>,
}

impl<'a> Faces<'a> {
    // The width is cut at 32. Like `new` of the other two kinds, as the block below.
    pub fn new(rules: &'a [Rule], width: u32) -> Faces<'a>
        ensures { (result.list.rules.now ≡ rules.now) × (result.list.width ≡ min width widest) }
    {
        Faces {
            list: RuleList::new(rules, width),
        }
    }

    // The faces to put at the back, or none.
    fn find(&self, set: Set) -> Option<FaceSet>
        ensures found { Found self.now.list.rules.now (bits_of set) result }
        ensures verdict { is_some result ≡ fit_faces self.now.list.rules.now (bits_of set) }
    {
        back(self.list.rules(), set)
    }
}

// Like the block of `options` and of `gaps`: the project has an oracle of its own for each kind of
// rule. What else they share is in `rules` and `oracle`.
impl<'a> Oracle for Faces<'a> {
    ghost use Rattle.faces.specs.Meant.{faces_meaning};

    ghost meaning = { faces_meaning };

    // No call changes the oracle itself.
    ghost check_leads = { StillChecks faces_meaning };

    ghost grant_leads = { StillGrants };

    fn width(&self) -> u32 {
        self.list.width()
    }

    fn left(&self) -> Option<u32> {
        None
    }

    // A check changes nothing.
    fn check(&mut self, set: Set) -> Result<Verdict, CheckRefusal> {
        refuse_outside(set, self.list.width())?;
        Ok(Verdict {
            fit: self.find(set).is_some(),
        })
    }

    fn grant(&mut self, checks: u32) -> Result<(), GrantRefusal> {
        granted(checks)
    }

    ghost lawful = { λ o. rule_lawful kind.Faces faces_decided
        o.list.rules.now o.list.width o.list.narrow };

    ghost check_means = { still_checks_mean faces_meaning (λ o. refl) };

    ghost grant_means = { still_grants_mean faces_meaning (λ o. refl) };
}

// The definitions call the sets of the example fit and unfit as they should: see
// specs/Examples.antt.
pub fn faces_examples()
    ensures { TwoFit × ThreeUnfit }
{}
