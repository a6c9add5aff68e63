// An oracle with a number of its own: so many checks, and then it refuses with its label.
ghost use Rattle.std.specs.Prelude.{◌≡◌, ◌≤◌, min};
ghost use Rattle.oracle.specs.Meaning.{limit, last_label};
ghost use Rattle.layers.specs.Laws.{quota_lawful};

use crate::lesser;
use oracle::{CheckRefusal, GrantRefusal, LIMIT, Oracle, Verdict, refuse_outside};
use sets::Set;

/// An oracle, with a label and so many checks, 1,000,000 at most.
#[derive(Drop)]
pub struct Quota<O> {
    label: u8,
    number: u32,
    below: O,
    ghost labelled: { label ≤ last_label },
    ghost counted: { number ≤ limit },
}

impl<O: Oracle> Quota<O> {
    /// The number is cut at 1,000,000.
    pub fn new(label: u8, number: u32, below: O) -> Quota<O>
        ensures { (result.label ≡ label) × (result.number ≡ min number limit)
            × (result.below ≡ below) }
    {
        Quota {
            label,
            number: number.min(LIMIT),
            below,
        }
    }
}

impl<O: Oracle> Oracle for Quota<O> {
    // Here and not above, since this names `Quota`, and what is named above is read before `Quota`,
    // for its ghost fields.
    ghost use Rattle.layers.specs.Meant.{quota_meaning};
    ghost use Rattle.layers.specs.QuotaLaws.{quota_checks_mean, quota_grants_mean};
    ghost use Rattle.layers.specs.Calls.{QuotaChecks, QuotaGrants};

    ghost meaning = { quota_meaning O.meaning };

    ghost check_leads = { QuotaChecks O.meaning O.check_leads };

    ghost grant_leads = { QuotaGrants O.grant_leads };

    // Like `width` of `Cover`, since each layer is an oracle of its own.
    fn width(&self) -> u32 {
        self.below.width()
    }

    fn left(&self) -> Option<u32> {
        lesser(Some(self.number), self.below.left())
    }

    // Takes one from the number if below answers.
    fn check(&mut self, set: Set) -> Result<Verdict, CheckRefusal> {
        refuse_outside(set, self.width())?;
        if self.number == 0 {
            return Err(CheckRefusal::Spent { label: self.label });
        }
        let verdict = self.below.check(set)?;
        self.number -= 1;
        Ok(verdict)
    }

    // Grants to its own number and below.
    fn grant(&mut self, checks: u32) -> Result<(), GrantRefusal> {
        self.below.grant(checks)?;
        self.number = self.number.saturating_add(checks).min(LIMIT);
        Ok(())
    }

    ghost lawful = { λ o. quota_lawful o.number o.label (O.meaning o.below)
        o.counted o.labelled (O.lawful o.below) };

    ghost check_means = { λ o s r p h. quota_checks_mean O.meaning O.check_leads O.check_means
        o p s r h };

    ghost grant_means = { λ o k r p h. quota_grants_mean O.meaning O.grant_leads O.grant_means
        o p k r h };
}
