// A list of calls of an oracle, with what each must answer and leave.
use oracle::{CheckRefusal, GrantRefusal, Oracle, Verdict};
use sets::Set;
use std::process::Abort;
use std::test::Fail;

// A call of an oracle. An enum and no closure, since tables of constants hold calls.
pub enum Call {
    // CHECK of the set with this number.
    Check(u32),
    Grant(u32),
}

// What an answer is: a verdict or none, or the number of a refusal and the label that it tells, 0 where it tells none: numbers, so that the tables stay short.
#[derive(Clone, Copy, PartialEq, Eq, Debug)]
pub enum Told {
    Fit,
    Unfit,
    Granted,
    Refused(u32, u32),
}

// A call, what it must answer, and what must then be left; none where it is endless.
pub struct Step(pub Call, pub Told, pub Option<u32>);

impl From<Verdict> for Told {
    fn from(verdict: Verdict) -> Told {
        if verdict.fit { Told::Fit } else { Told::Unfit }
    }
}

impl From<CheckRefusal> for Told {
    fn from(refusal: CheckRefusal) -> Told {
        Told::Refused(refusal.number(), refusal.value().map_or(0, u32::from))
    }
}

impl From<GrantRefusal> for Told {
    fn from(refusal: GrantRefusal) -> Told {
        Told::Refused(refusal.number(), 0)
    }
}

// What a test wants; by hand, since the `From` above is part of what is tested.
pub fn wanted(fit: bool) -> Told {
    if fit { Told::Fit } else { Told::Unfit }
}

// What it answers to a check of the set with this number.
pub fn ask<O: Oracle>(oracle: &mut O, bits: u32) -> Told {
    oracle
        .check(Set::new(bits))
        .map_or_else(Told::from, Told::from)
}

// What it answers to a grant of so many checks.
pub fn grant<O: Oracle>(oracle: &mut O, checks: u32) -> Told {
    oracle
        .grant(checks)
        .map_or_else(Told::from, |()| Told::Granted)
}

// What an oracle shows unasked: its width, and what is left.
pub type Shown = (u32, Option<u32>);

fn shown<O: Oracle>(oracle: &O) -> Shown {
    (oracle.width(), oracle.left())
}

// What it shows at first is looked at too; the width stays. A switch, since the steps stand in tables: see `Call`.
pub fn play<O: Oracle>(
    rt: &impl Abort,
    oracle: &mut O,
    first: Shown,
    steps: &[Step],
) -> Result<(), Fail> {
    assert_eq!(rt; shown(oracle), first);
    for Step(call, told, left) in steps {
        let answer = match call {
            Call::Check(bits) => ask(oracle, *bits),
            Call::Grant(checks) => grant(oracle, *checks),
        };
        assert_eq!(rt; (answer, shown(oracle)), (*told, (first.0, *left)));
    }
    Ok(())
}
