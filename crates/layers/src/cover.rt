// An oracle that keeps what it was told: a part of a kept fit set is fit, and a set that contains a
// kept unfit set is unfit.
ghost use Rattle.std.specs.Prelude.{◌≡◌, [], None};
ghost use Rattle.sets.specs.Sets.{bits_of};
ghost use Rattle.layers.specs.Asked.{deciding};
ghost use Rattle.layers.specs.Listed.{kept_list};
ghost use Rattle.layers.specs.Meant.{cover_meaning};
ghost use Rattle.layers.specs.Laws.{cover_lawful};

use crate::kept_sets::KeptSets;
use oracle::{CheckRefusal, GrantRefusal, Oracle, Verdict, refuse_outside};
use sets::Set;

/// An oracle, and up to 64 sets of each verdict that it answered.
#[derive(Drop)]
pub struct Cover<O> {
    fits: KeptSets,
    unfits: KeptSets,
    below: O,
}

impl<O: Oracle> Cover<O> {
    ghost use Rattle.layers.specs.Calls.{CoverAsks};

    /// Nothing is kept at first.
    pub fn new(below: O) -> Cover<O>
        ensures { (kept_list result.fits ≡ []) × (kept_list result.unfits ≡ [])
            × (result.below ≡ below) }
    {
        Cover {
            fits: KeptSets::new(),
            unfits: KeptSets::new(),
            below,
        }
    }

    // What the kept sets say of a set; nothing where nothing is left.
    fn decide(&self, set: Set) -> Option<bool>
        ensures { result ≡ deciding (kept_list self.now.fits) (kept_list self.now.unfits)
            (O.meaning self.now.below) (bits_of set) }
    {
        if self.below.left() == Some(0) {
            return None;
        }
        if self.fits.has_over(set) {
            return Some(true);
        }
        if self.unfits.has_under(set) {
            return Some(false);
        }
        None
    }

    // Asks below, and keeps the set with its answer.
    fn ask(&mut self, set: Set) -> Result<Verdict, CheckRefusal>
        ensures { CoverAsks O.check_leads None self.old (bits_of set) result self.new }
    {
        let verdict = self.below.check(set)?;
        if verdict.fit {
            self.fits.keep(set);
        } else {
            self.unfits.keep(set);
        }
        Ok(verdict)
    }
}

impl<O: Oracle> Oracle for Cover<O> {
    ghost use Rattle.layers.specs.CoverLaws.{cover_checks_mean, cover_grants_mean};
    ghost use Rattle.layers.specs.Calls.{CoverChecks, CoverGrants};

    ghost meaning = { cover_meaning O.meaning };

    ghost check_leads = { CoverChecks O.meaning O.check_leads };

    ghost grant_leads = { CoverGrants O.grant_leads };

    // Like `width` of `Quota`, since each layer is an oracle of its own.
    fn width(&self) -> u32 {
        self.below.width()
    }

    fn left(&self) -> Option<u32> {
        self.below.left()
    }

    // What the kept sets decide is answered, and nothing is taken; otherwise what is below is
    // asked, and the set is kept with its answer.
    fn check(&mut self, set: Set) -> Result<Verdict, CheckRefusal> {
        refuse_outside(set, self.width())?;
        if let Some(fit) = self.decide(set) {
            return Ok(Verdict { fit });
        }
        self.ask(set)
    }

    fn grant(&mut self, checks: u32) -> Result<(), GrantRefusal> {
        self.below.grant(checks)
    }

    ghost lawful = { λ o. cover_lawful (kept_list o.fits) (kept_list o.unfits)
        (O.meaning o.below) (O.lawful o.below) };

    ghost check_means = { λ o s r p h. cover_checks_mean O.meaning O.check_leads O.check_means
        o p s r (O.lawful o.below) h };

    ghost grant_means = { λ o k r p h. cover_grants_mean O.meaning O.grant_leads O.grant_means
        o p k r h };
}
