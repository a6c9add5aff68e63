// Two oracles as one: a set is fit if both sides call it fit.
ghost use Rattle.std.specs.Prelude.{◌≡◌};
ghost use Rattle.sets.specs.Sets.{bits_of};
ghost use Rattle.layers.specs.Asked.{only_right_spent};
ghost use Rattle.layers.specs.Meant.{both_meaning};
ghost use Rattle.layers.specs.Laws.{both_lawful};

use crate::lesser;
use oracle::{CheckRefusal, GrantRefusal, Oracle, Verdict, refuse_outside};
use sets::Set;

/// Two oracles, which may be of unlike kinds.
#[derive(Drop)]
pub struct Both<L, R> {
    left: L,
    right: R,
}

impl<L: Oracle, R: Oracle> Both<L, R> {
    ghost use Rattle.layers.specs.Calls.{AsksInTurn};

    /// Both of these.
    pub fn new(left: L, right: R) -> Both<L, R>
        ensures { (result.left ≡ left) × (result.right ≡ right) }
    {
        Both { left, right }
    }

    // Whether the right has nought and the left has not.
    fn only_right_is_spent(&self) -> bool
        ensures { result ≡ only_right_spent (L.meaning self.now.left) (R.meaning self.now.right) }
    {
        self.left.left() != Some(0) && self.right.left() == Some(0)
    }

    // Asks the left, and then the right if the left says fit.
    fn ask_in_turn(&mut self, set: Set) -> Result<Verdict, CheckRefusal>
        ensures { AsksInTurn L.check_leads R.check_leads self.old (bits_of set) result self.new }
    {
        let first = self.left.check(set)?;
        if !first.fit {
            return Ok(first);
        }
        self.right.check(set)
    }
}

impl<L: Oracle, R: Oracle> Oracle for Both<L, R> {
    ghost use Rattle.layers.specs.BothLaws.{both_checks_mean, both_grants_mean};
    ghost use Rattle.layers.specs.Calls.{BothChecks, BothGrants};

    ghost meaning = { both_meaning L.meaning R.meaning };

    ghost check_leads = { BothChecks L.meaning R.meaning L.check_leads R.check_leads };

    ghost grant_leads = { BothGrants L.grant_leads R.grant_leads };

    fn width(&self) -> u32 {
        self.left.width().min(self.right.width())
    }

    fn left(&self) -> Option<u32> {
        lesser(self.left.left(), self.right.left())
    }

    // The left is asked first, and the right only if the left says fit. Where one side has nought,
    // only that side is asked; the left, if both have.
    fn check(&mut self, set: Set) -> Result<Verdict, CheckRefusal> {
        refuse_outside(set, self.width())?;
        if self.only_right_is_spent() {
            return self.right.check(set);
        }
        self.ask_in_turn(set)
    }

    fn grant(&mut self, checks: u32) -> Result<(), GrantRefusal> {
        self.left.grant(checks)?;
        self.right.grant(checks)
    }

    ghost lawful = { λ o. both_lawful (L.meaning o.left) (R.meaning o.right)
        (L.lawful o.left) (R.lawful o.right) };

    ghost check_means = { λ o s r p h. both_checks_mean L.meaning R.meaning
        L.check_leads R.check_leads L.check_means R.check_means o p s r h };

    ghost grant_means = { λ o k r p h. both_grants_mean L.meaning R.meaning
        L.grant_leads R.grant_leads L.grant_means R.grant_means o p k r h };
}
