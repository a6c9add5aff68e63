// An oracle of the tests' own: it takes from its allowance or not, and adds one to its label with each answer, so that the label tells how often it was asked.
ghost use Rattle.std.specs.Prelude.{◌≤◌};
ghost use Rattle.std.specs.Option.{ForSome};
ghost use Rattle.oracle.specs.Meaning.{limit, last_label};
ghost use Rattle.sets.specs.Requests.{widest};
ghost use Rattle.sets.specs.Sets.{bits_of};
ghost use Rattle.trials.specs.Probing.{probing_lawful};

use oracle::{CheckRefusal, GrantRefusal, LIMIT, Oracle, Verdict, WIDEST, granted, refuse_outside};
use sets::Set;

#[derive(Drop)]
pub struct Probe {
    pub width: u32,
    pub whole: Set,
    // How many checks are left; none where they are endless.
    pub allowance: Option<u32>,
    pub label: u8,
    // Whether a check takes one: of the probe, and so no flag of the allowance beside it.
    pub takes: bool,
    ghost narrow: { width ≤ widest },
    ghost counted: { ForSome allowance (λ left. left ≤ limit) },
    ghost labelled: { label ≤ last_label },
}

impl Oracle for Probe {
    ghost use Rattle.trials.specs.Loose.{LooseChecks, LooseGrants};
    ghost use Rattle.trials.specs.Meant.{probe_meaning};

    ghost meaning = { probe_meaning };

    ghost check_leads = { LooseChecks probe_meaning };

    ghost grant_leads = { LooseGrants probe_meaning };

    fn width(&self) -> u32 {
        self.width
    }

    fn left(&self) -> Option<u32> {
        self.allowance
    }

    fn check(&mut self, set: Set) -> Result<Verdict, CheckRefusal> {
        refuse_outside(set, self.width)?;
        if self.allowance == Some(0) {
            return Err(CheckRefusal::Spent { label: self.label });
        }
        if self.takes {
            self.allowance = self.allowance.map(|left| left - 1);
        }
        self.label = self.label.wrapping_add(1);
        Ok(Verdict {
            fit: set.is_part_of(self.whole),
        })
    }

    fn grant(&mut self, checks: u32) -> Result<(), GrantRefusal> {
        granted(checks)?;
        self.allowance = self
            .allowance
            .map(|left| left.saturating_add(checks).min(LIMIT));
        Ok(())
    }

    ghost lawful = { λ o. probing_lawful o.width (bits_of o.whole) o.allowance o.label o.narrow o.counted o.labelled };

    ghost check_means = { λ o s r p led. led };

    ghost grant_means = { λ o k r p led. led };
}

impl Probe {
    fn new(width: u32, whole: u32, allowance: Option<u32>, label: u8, takes: bool) -> Probe {
        Probe {
            width: width.min(WIDEST),
            whole: Set::new(whole),
            allowance: allowance.map(|left| left.min(LIMIT)),
            label,
            takes,
        }
    }
}

// One with so many checks, and a label. Two makers over `new`, with its parameters, so that a test names what it wants.
pub fn counted(width: u32, whole: u32, number: u32, label: u8, takes: bool) -> Probe {
    Probe::new(width, whole, Some(number), label, takes)
}

pub fn endless(width: u32, whole: u32, label: u8) -> Probe {
    Probe::new(width, whole, None, label, true)
}
