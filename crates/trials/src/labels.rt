// How often the layers ask what lies below them: a wild oracle adds one to its label with each
// answer, of a check or of a grant, and tells the label when it refuses. Each layer is held to a
// model of it that counts those answers.
use crate::played::{Told, ask, grant, wanted};
use crate::search::Lot;
use crate::wild::Plan;
use layers::{Both, Cover, Quota};
use oracle::Oracle;
use std::alloc::{AllocError, Global};
use std::process::Abort;
use std::test::Fail;

const SEED: u32 = 41;

const WIDTH: u32 = 4;

const SETS: usize = 16;

// How many plans there are for each layer, and how many calls are made of each.
const PLANS: u32 = 80;

const CALLS: u32 = 60;

// What a layer answers and leaves, told from its description.
trait Model {
    fn check(&mut self, bits: u32) -> Told;

    fn grant(&mut self, checks: u32) -> Told;
}

// A wild oracle that takes one for each answered check: how many are left, and how many answers it
// has given.
#[derive(Clone, Copy)]
struct Side<'a> {
    plan: Plan<'a>,
    left: u32,
    answers: u32,
}

impl<'a> Side<'a> {
    fn new(plan: Plan<'a>) -> Side<'a> {
        Side {
            plan,
            left: plan.allowance.unwrap_or(0),
            answers: 0,
        }
    }

    fn spent(self) -> Told {
        let label = u32::from(self.plan.label).wrapping_add(self.answers) % 256;
        Told::Refused(13, label)
    }
}

impl Model for Side<'_> {
    fn check(&mut self, bits: u32) -> Told {
        if self.left == 0 {
            return self.spent();
        }
        self.left = self.left.saturating_sub(1);
        self.answers = self.answers.wrapping_add(1);
        wanted(self.plan.wholes.iter().any(|whole| bits & *whole == bits))
    }

    fn grant(&mut self, checks: u32) -> Told {
        self.left = self.left.saturating_add(checks);
        self.answers = self.answers.wrapping_add(1);
        Told::Granted
    }
}

// A quota asks below once, while its number lasts.
#[derive(Clone, Copy)]
struct Counted<'a> {
    label: u32,
    number: u32,
    below: Side<'a>,
}

impl Model for Counted<'_> {
    fn check(&mut self, bits: u32) -> Told {
        if self.number == 0 {
            return Told::Refused(13, self.label);
        }
        let told = self.below.check(bits);
        if !matches!(told, Told::Refused(..)) {
            self.number = self.number.saturating_sub(1);
        }
        told
    }

    fn grant(&mut self, checks: u32) -> Told {
        self.number = self.number.saturating_add(checks);
        self.below.grant(checks)
    }
}

// Both asks the left, and the right where the left says fit; or the right alone where only the
// right has nothing left.
#[derive(Clone, Copy)]
struct Pair<'a> {
    left: Side<'a>,
    right: Side<'a>,
}

impl Model for Pair<'_> {
    fn check(&mut self, bits: u32) -> Told {
        if self.left.left != 0 && self.right.left == 0 {
            return self.right.check(bits);
        }
        match self.left.check(bits) {
            Told::Fit => self.right.check(bits),
            other => other,
        }
    }

    fn grant(&mut self, checks: u32) -> Told {
        self.left.grant(checks);
        self.right.grant(checks)
    }
}

// A cover asks below where no set that was asked before decides. There are 16 sets of four
// requests, so all that are asked are kept: of each, what was answered, if it was asked.
#[derive(Clone, Copy)]
struct Covered<'a> {
    asked: [Option<bool>; SETS],
    below: Side<'a>,
}

impl Covered<'_> {
    fn known(&self, bits: u32) -> Option<bool> {
        if self.below.left == 0 {
            return None;
        }
        let kept = |set: u32| self.asked.get(set as usize).copied().flatten();
        let mut sets = 0..16_u32;
        if sets.any(|set| bits & set == bits && kept(set) == Some(true)) {
            return Some(true);
        }
        let mut sets = 0..16_u32;
        let unfit = sets.any(|set| bits & set == set && kept(set) == Some(false));
        unfit.then_some(false)
    }
}

impl Model for Covered<'_> {
    fn check(&mut self, bits: u32) -> Told {
        if let Some(fit) = self.known(bits) {
            return wanted(fit);
        }
        let told = self.below.check(bits);
        if let Some(place) = self.asked.get_mut(bits as usize) {
            match told {
                Told::Fit => *place = Some(true),
                Told::Unfit => *place = Some(false),
                Told::Granted | Told::Refused(..) => {}
            }
        }
        told
    }

    fn grant(&mut self, checks: u32) -> Told {
        self.below.grant(checks)
    }
}

impl Lot {
    // Sets of four requests, mostly large ones.
    fn large_sets(&mut self, heap: Global) -> Result<Vec<u32>, AllocError> {
        let mut wholes = Vec::new(heap);
        for _ in 0..self.draw(3).saturating_add(1) {
            wholes.push(self.draw(15) | self.draw(15))?;
        }
        Ok(wholes)
    }

    // A plan of a wild oracle with few checks, each of which an answer takes.
    fn strict<'a>(&mut self, wholes: &'a [u32]) -> Plan<'a> {
        Plan {
            width: WIDTH,
            wholes,
            allowance: Some(self.draw(4)),
            label: u8::try_from(self.draw(255)).unwrap_or(0),
            spares: 0,
            lot: 0,
        }
    }
}

// Calls by lot of a layer and of its model: how often a refusal told a label.
fn play<O: Oracle, M: Model>(rt: &impl Abort, lot: &mut Lot, layer: &mut O, model: &mut M) -> u32 {
    let mut refused: u32 = 0;
    for _ in 0..CALLS {
        if lot.draw(3) == 0 {
            let checks = lot.draw(2);
            assert_eq!(rt; grant(layer, checks), model.grant(checks));
        } else {
            let bits = lot.draw(15);
            let told = ask(layer, bits);
            assert_eq!(rt; (bits, told), (bits, model.check(bits)));
            if matches!(told, Told::Refused(..)) {
                refused = refused.saturating_add(1);
            }
        }
    }
    refused
}

#[test]
fn quotas_ask_once(rt: HostRuntime) -> Result<(), Fail> {
    let mut lot = Lot { state: SEED };
    let mut refused: u32 = 0;
    for _ in 0..PLANS {
        let wholes = lot.large_sets(rt.alloc())?;
        let plan = lot.strict(wholes.as_slice());
        let number = lot.draw(9);
        let mut quota = Quota::new(7, number, plan.made());
        let mut model = Counted {
            label: 7,
            number,
            below: Side::new(plan),
        };
        refused = refused.saturating_add(play(&rt, &mut lot, &mut quota, &mut model));
    }
    assert!(rt; 500 < refused);
    Ok(())
}

#[test]
fn pairs_ask_in_turn(rt: HostRuntime) -> Result<(), Fail> {
    let mut lot = Lot { state: SEED };
    let mut refused: u32 = 0;
    for _ in 0..PLANS {
        let lefts = lot.large_sets(rt.alloc())?;
        let rights = lot.large_sets(rt.alloc())?;
        let left = lot.strict(lefts.as_slice());
        let right = lot.strict(rights.as_slice());
        let mut both = Both::new(left.made(), right.made());
        let mut model = Pair {
            left: Side::new(left),
            right: Side::new(right),
        };
        refused = refused.saturating_add(play(&rt, &mut lot, &mut both, &mut model));
    }
    assert!(rt; 500 < refused);
    Ok(())
}

#[test]
fn covers_ask_what_is_not_known(rt: HostRuntime) -> Result<(), Fail> {
    let mut lot = Lot { state: SEED };
    let mut refused: u32 = 0;
    for _ in 0..PLANS {
        let wholes = lot.large_sets(rt.alloc())?;
        let plan = lot.strict(wholes.as_slice());
        let mut cover = Cover::new(plan.made());
        let mut model = Covered {
            asked: [None; SETS],
            below: Side::new(plan),
        };
        refused = refused.saturating_add(play(&rt, &mut lot, &mut cover, &mut model));
    }
    assert!(rt; 500 < refused);
    Ok(())
}
