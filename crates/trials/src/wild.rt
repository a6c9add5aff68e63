// An oracle of the tests' own that does what an oracle may: of its allowance an answered check takes one or none, by lot, and each answer adds one to its
// label, so that the label tells how often it has answered.
ghost use Rattle.std.specs.Prelude.{◌≡◌, ◌≤◌};
ghost use Rattle.std.specs.Option.{ForSome};
ghost use Rattle.layers.specs.Layered.{under_one};
ghost use Rattle.oracle.specs.Meaning.{limit, last_label};
ghost use Rattle.sets.specs.Requests.{widest};
ghost use Rattle.sets.specs.Sets.{bits_of};
ghost use Rattle.trials.specs.Roaming.{roaming_lawful};

use oracle::{CheckRefusal, GrantRefusal, LIMIT, Oracle, Verdict, WIDEST, granted, refuse_outside};
use sets::Set;

#[derive(Drop)]
pub struct Wild<'a> {
    width: u32,
    // A set is fit if it is part of one of these.
    wholes: &'a [u32],
    // How many checks are left; none where they are endless.
    allowance: Option<u32>,
    label: u8,
    // Of each number by lot these bits must be nought for a check to take one: 0 for always, 1 for half the time.
    spares: u32,
    lot: u32,
    ghost narrow: { width ≤ widest },
    ghost counted: { ForSome allowance (λ left. left ≤ limit) },
    ghost labelled: { label ≤ last_label },
}

impl<'a> Wild<'a> {
    fn is_fit(&self, set: Set) -> bool
        ensures { result ≡ under_one (bits_of set) self.now.wholes.now }
    {
        self.wholes
            .iter()
            .any(|whole| set.is_part_of(Set::new(*whole)))
    }
}

impl<'a> Oracle for Wild<'a> {
    ghost use Rattle.trials.specs.Loose.{LooseChecks, LooseGrants};
    ghost use Rattle.trials.specs.Meant.{wild_meaning};

    ghost meaning = { wild_meaning };

    ghost check_leads = { LooseChecks wild_meaning };

    ghost grant_leads = { LooseGrants wild_meaning };

    fn width(&self) -> u32 {
        self.width
    }

    fn left(&self) -> Option<u32> {
        self.allowance
    }

    fn check(&mut self, set: Set) -> Result<Verdict, CheckRefusal> {
        refuse_outside(set, self.width)?;
        if self.allowance == Some(0) {
            return Err(CheckRefusal::Spent { label: self.label });
        }
        let fit = self.is_fit(set);
        self.lot = self.lot.wrapping_mul(1_664_525).wrapping_add(1_013_904_223);
        if (self.lot >> 16) & self.spares == 0 {
            self.allowance = self.allowance.map(|left| left - 1);
        }
        self.label = self.label.wrapping_add(1);
        Ok(Verdict { fit })
    }

    fn grant(&mut self, checks: u32) -> Result<(), GrantRefusal> {
        granted(checks)?;
        self.allowance = self
            .allowance
            .map(|left| left.saturating_add(checks).min(LIMIT));
        self.label = self.label.wrapping_add(1);
        Ok(())
    }

    ghost lawful = { λ o. roaming_lawful o.width o.wholes.now o.allowance o.label o.narrow o.counted o.labelled };

    ghost check_means = { λ o s r p led. led };

    ghost grant_means = { λ o k r p led. led };
}

// What a wild oracle is made of.
#[derive(Clone, Copy, Debug)]
pub struct Plan<'a> {
    pub width: u32,
    pub wholes: &'a [u32],
    pub allowance: Option<u32>,
    pub label: u8,
    pub spares: u32,
    pub lot: u32,
}

impl<'a> Plan<'a> {
    pub fn made(self) -> Wild<'a> {
        Wild {
            width: self.width.min(WIDEST),
            wholes: self.wholes,
            allowance: self.allowance.map(|left| left.min(LIMIT)),
            label: self.label,
            spares: self.spares,
            lot: self.lot,
        }
    }
}
