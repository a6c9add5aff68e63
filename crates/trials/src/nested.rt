// Layers over layers, and over the oracles of unlike kinds of rule.
use crate::made::{faces, options};
use crate::played::Call::{Check, Grant};
use crate::played::Told::{Fit, Granted, Refused, Unfit};
use crate::played::{Step, Told, ask, play};
use crate::probe::{counted, endless};
use faces::Faces;
use gaps::Gaps;
use layers::{Both, Cover, Quota};
use options::Options;
use oracle::Oracle;
use rules::Rule;
use std::process::Abort;
use std::test::Fail;

// Of four requests, 1 and 2 exclude each other by their options, 2 and 3 by a ring of gaps, and 1 and 3 by a face; what 4 asks of a mark cannot be met.
fn rules() -> [Rule; 8] {
    [
        options(0, None, 3),
        options(1, Some(0), 0),
        options(2, Some(1), 0),
        Rule::gap(2, 0, 1, -1),
        Rule::gap(3, 1, 0, 0),
        faces(1, true, 1),
        faces(3, false, 1),
        Rule::gap(4, 5, 5, -1),
    ]
}

// All sets of the four: those that are fit, and those that are not.
const FITS: [u32; 4] = [0, 1, 2, 4];

const UNFITS: [u32; 12] = [3, 5, 6, 7, 8, 9, 10, 11, 12, 13, 14, 15];

fn each_told<O: Oracle>(rt: &impl Abort, oracle: &mut O, sets: &[u32], told: Told) {
    for bits in sets {
        assert_eq!(rt; (*bits, ask(oracle, *bits)), (*bits, told));
    }
}

fn all_sets<O: Oracle>(rt: &impl Abort, oracle: &mut O) {
    each_told(rt, oracle, &FITS, Fit);
    each_told(rt, oracle, &UNFITS, Unfit);
    assert_eq!(rt; ask(oracle, 16), Refused(10, 0));
}

// However the three kinds are put together.
#[test]
fn three_kinds_together(rt: HostRuntime) {
    let list = rules();
    let h = || Options::new(&list, 4);
    let g = || Gaps::new(&list, 4);
    let f = || Faces::new(&list, 4);
    all_sets(&rt, &mut Both::new(h(), Both::new(g(), f())));
    all_sets(&rt, &mut Both::new(Both::new(f(), h()), g()));
    let two = Both::new(f(), Cover::new(h()));
    all_sets(&rt, &mut Both::new(Cover::new(g()), two));
}

// A quota of seven, label 1, over all. What the cover knows takes one of the quota too.
const PILED: [Step; 13] = [
    Step(Check(16), Refused(10, 0), Some(7)),
    Step(Check(3), Unfit, Some(6)),
    Step(Check(6), Unfit, Some(5)),
    Step(Check(5), Unfit, Some(4)),
    Step(Check(7), Unfit, Some(3)),
    Step(Check(4), Fit, Some(2)),
    Step(Check(0), Fit, Some(1)),
    Step(Check(8), Unfit, Some(0)),
    Step(Check(0), Refused(13, 1), Some(0)),
    Step(Check(16), Refused(10, 0), Some(0)),
    Step(Grant(1_000_001), Refused(11, 0), Some(0)),
    Step(Grant(1), Granted, Some(1)),
    Step(Check(1), Fit, Some(0)),
];

#[test]
fn quota_over_cover_over_three_kinds(rt: HostRuntime) -> Result<(), Fail> {
    let list = rules();
    let gaps_and_faces = Both::new(Gaps::new(&list, 4), Faces::new(&list, 4));
    let all = Both::new(Options::new(&list, 4), gaps_and_faces);
    let mut pile = Quota::new(1, 7, Cover::new(all));
    play(&rt, &mut pile, (4, Some(7)), &PILED)
}

// Three sides with three, two and one checks, labels 10, 20 and 30; each is asked only if those before it say fit, and each calls fewer sets fit.
const THREE_SIDES: [Step; 11] = [
    Step(Check(8), Refused(10, 0), Some(1)),
    Step(Check(1), Fit, Some(0)),
    Step(Check(1), Refused(13, 31), Some(0)),
    Step(Grant(2), Granted, Some(2)),
    Step(Check(4), Unfit, Some(2)),
    Step(Check(2), Unfit, Some(1)),
    Step(Check(0), Fit, Some(0)),
    Step(Check(8), Refused(10, 0), Some(0)),
    Step(Check(0), Refused(13, 24), Some(0)),
    Step(Grant(1), Granted, Some(1)),
    Step(Check(7), Unfit, Some(0)),
];

#[test]
fn both_within_both(rt: HostRuntime) -> Result<(), Fail> {
    let a = || counted(3, 7, 3, 10, true);
    let b = || counted(3, 3, 2, 20, true);
    let c = || counted(3, 1, 1, 30, true);
    let mut right = Both::new(a(), Both::new(b(), c()));
    play(&rt, &mut right, (3, Some(1)), &THREE_SIDES)?;
    let mut left = Both::new(Both::new(a(), b()), c());
    play(&rt, &mut left, (3, Some(1)), &THREE_SIDES)
}

// Left, a quota of two, label 7; right, a cover over three checks, which takes nothing for what it knows.
const QUOTA_AND_COVER: [Step; 7] = [
    Step(Check(1), Fit, Some(1)),
    Step(Check(1), Fit, Some(0)),
    Step(Check(1), Refused(13, 7), Some(0)),
    Step(Grant(5), Granted, Some(5)),
    Step(Check(2), Unfit, Some(4)),
    Step(Check(3), Unfit, Some(3)),
    Step(Check(4), Refused(10, 0), Some(3)),
];

#[test]
fn both_of_unlike_layers(rt: HostRuntime) -> Result<(), Fail> {
    let quota = Quota::new(7, 2, endless(2, 3, 0));
    let cover = Cover::new(counted(2, 1, 3, 20, true));
    let mut both = Both::new(quota, cover);
    play(&rt, &mut both, (2, Some(2)), &QUOTA_AND_COVER)
}
