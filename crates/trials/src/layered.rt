// The layers over an oracle of the tests' own.
use crate::played::Call::{Check, Grant};
use crate::played::Told::{Fit, Granted, Refused, Unfit};
use crate::played::{Step, play};
use crate::probe::{Probe, counted, endless};
use layers::{Both, Cover, Quota};
use oracle::{Oracle, Verdict};
use sets::Set;
use std::process::Abort;
use std::test::Fail;

// Left: three requests, 1 and 2 fit together, two checks, label 10. Right: two requests, 1 fit, five checks, label 20.
const LEFT_SPENT: [Step; 7] = [
    Step(Check(4), Refused(10, 0), Some(2)),
    Step(Check(1), Fit, Some(1)),
    Step(Check(2), Unfit, Some(0)),
    Step(Check(4), Refused(10, 0), Some(0)),
    Step(Check(1), Refused(13, 12), Some(0)),
    Step(Grant(1), Granted, Some(1)),
    Step(Check(0), Fit, Some(0)),
];

#[test]
fn both_with_the_left_spent(rt: HostRuntime) -> Result<(), Fail> {
    let mut both = Both::new(counted(3, 3, 2, 10, true), counted(2, 1, 5, 20, true));
    play(&rt, &mut both, (2, Some(2)), &LEFT_SPENT)
}

// Left: only 1 fit, three checks. Right: only 1 fit, one check, label 255, which turns to 0. What the left calls unfit the right is not asked.
const RIGHT_SPENT: [Step; 8] = [
    Step(Check(2), Unfit, Some(1)),
    Step(Check(1), Fit, Some(0)),
    Step(Check(1), Refused(13, 0), Some(0)),
    Step(Check(2), Refused(13, 0), Some(0)),
    Step(Grant(1_000_001), Refused(11, 0), Some(0)),
    Step(Grant(1_000_000), Granted, Some(1_000_000)),
    Step(Check(1), Fit, Some(999_999)),
    Step(Grant(1), Granted, Some(1_000_000)),
];

#[test]
fn both_with_the_right_spent(rt: HostRuntime) -> Result<(), Fail> {
    let mut both = Both::new(counted(2, 1, 3, 10, true), counted(2, 1, 1, 255, true));
    play(&rt, &mut both, (2, Some(1)), &RIGHT_SPENT)
}

// Left: two requests, two checks. Right: three requests, no check, label 20. A set that only the right has within its width is not taken to the right, which has nought.
const NARROW_LEFT: [Step; 6] = [
    Step(Check(4), Refused(10, 0), Some(0)),
    Step(Check(1), Refused(13, 20), Some(0)),
    Step(Grant(1), Granted, Some(1)),
    Step(Check(4), Refused(10, 0), Some(1)),
    Step(Check(1), Fit, Some(0)),
    Step(Check(1), Refused(13, 21), Some(0)),
];

#[test]
fn both_with_the_left_narrower(rt: HostRuntime) -> Result<(), Fail> {
    let mut both = Both::new(counted(2, 3, 2, 10, true), counted(3, 3, 0, 20, true));
    play(&rt, &mut both, (2, Some(0)), &NARROW_LEFT)
}

// One side endless, the other takes nothing.
const NOT_TAKEN: [Step; 4] = [
    Step(Check(3), Fit, Some(1)),
    Step(Check(3), Fit, Some(1)),
    Step(Check(7), Unfit, Some(1)),
    Step(Grant(0), Granted, Some(1)),
];

#[test]
fn both_with_one_side_endless(rt: HostRuntime) -> Result<(), Fail> {
    let mut right = Both::new(endless(32, 3, 0), counted(32, 7, 1, 20, false));
    play(&rt, &mut right, (32, Some(1)), &NOT_TAKEN)?;
    let mut left = Both::new(counted(32, 3, 1, 20, false), endless(32, 7, 0));
    play(&rt, &mut left, (32, Some(1)), &NOT_TAKEN)
}

// One check, label 20, beside a side that never has nought: the label is that of the other, on whichever side it is.
const ONE_SIDE_TAKES: [Step; 7] = [
    Step(Check(3), Fit, Some(0)),
    Step(Check(3), Refused(13, 21), Some(0)),
    Step(Check(4), Refused(10, 0), Some(0)),
    Step(Grant(1), Granted, Some(1)),
    Step(Check(4), Refused(10, 0), Some(1)),
    Step(Check(0), Fit, Some(0)),
    Step(Check(0), Refused(13, 22), Some(0)),
];

#[test]
fn both_with_one_side_that_takes(rt: HostRuntime) -> Result<(), Fail> {
    let first = (2, Some(1));
    let mut right = Both::new(endless(2, 3, 10), counted(2, 3, 1, 20, true));
    play(&rt, &mut right, first, &ONE_SIDE_TAKES)?;
    let mut left = Both::new(counted(2, 3, 1, 20, true), endless(2, 3, 10));
    play(&rt, &mut left, first, &ONE_SIDE_TAKES)?;
    let mut right = Both::new(counted(2, 3, 5, 10, false), counted(2, 3, 1, 20, true));
    play(&rt, &mut right, first, &ONE_SIDE_TAKES)?;
    let mut left = Both::new(counted(2, 3, 1, 20, true), counted(2, 3, 5, 10, false));
    play(&rt, &mut left, first, &ONE_SIDE_TAKES)
}

// Both sides have nought: the left's label.
const BOTH_SPENT: [Step; 5] = [
    Step(Check(0), Refused(13, 10), Some(0)),
    Step(Check(8), Refused(10, 0), Some(0)),
    Step(Grant(1), Granted, Some(1)),
    Step(Check(0), Fit, Some(0)),
    Step(Check(0), Refused(13, 11), Some(0)),
];

// Both sides endless.
const ENDLESS: [Step; 3] = [
    Step(Check(1), Fit, None),
    Step(Grant(1_000_000), Granted, None),
    Step(Check(2), Unfit, None),
];

#[test]
fn both_with_both_sides_alike(rt: HostRuntime) -> Result<(), Fail> {
    let mut spent = Both::new(counted(3, 7, 0, 10, true), counted(3, 7, 0, 20, true));
    play(&rt, &mut spent, (3, Some(0)), &BOTH_SPENT)?;
    let mut free = Both::new(endless(2, 1, 0), endless(2, 3, 0));
    play(&rt, &mut free, (2, None), &ENDLESS)
}

// A quota of two, label 7, over an endless one.
const OWN: [Step; 8] = [
    Step(Check(4), Refused(10, 0), Some(2)),
    Step(Check(1), Fit, Some(1)),
    Step(Check(2), Unfit, Some(0)),
    Step(Check(1), Refused(13, 7), Some(0)),
    Step(Check(4), Refused(10, 0), Some(0)),
    Step(Grant(1_000_001), Refused(11, 0), Some(0)),
    Step(Grant(1), Granted, Some(1)),
    Step(Check(0), Fit, Some(0)),
];

#[test]
fn quota_over_an_endless_one(rt: HostRuntime) -> Result<(), Fail> {
    let mut quota = Quota::new(7, 2, endless(2, 1, 30));
    play(&rt, &mut quota, (2, Some(2)), &OWN)
}

// A quota of five over a single check, label 30: what is below refuses, and the quota takes nothing then.
const BELOW: [Step; 7] = [
    Step(Check(1), Fit, Some(0)),
    Step(Check(1), Refused(13, 31), Some(0)),
    Step(Check(4), Refused(10, 0), Some(0)),
    Step(Grant(9), Granted, Some(9)),
    Step(Check(1), Fit, Some(8)),
    Step(Grant(1_000_000), Granted, Some(1_000_000)),
    Step(Check(2), Unfit, Some(999_999)),
];

#[test]
fn quota_over_a_counted_one(rt: HostRuntime) -> Result<(), Fail> {
    let mut quota = Quota::new(7, 5, counted(2, 1, 1, 30, true));
    play(&rt, &mut quota, (2, Some(1)), &BELOW)?;
    let most = Quota::new(255, 4_000_000_000, endless(0, 0, 0));
    assert_eq!(rt; most.left(), Some(1_000_000));
    Ok(())
}

// A quota of three over two checks, of which none is taken: its number is the greater at first, and then the less.
const OWN_ALONE_TAKEN: [Step; 6] = [
    Step(Check(1), Fit, Some(2)),
    Step(Check(2), Unfit, Some(1)),
    Step(Check(4), Refused(10, 0), Some(1)),
    Step(Check(0), Fit, Some(0)),
    Step(Check(0), Refused(13, 7), Some(0)),
    Step(Grant(2), Granted, Some(2)),
];

// Nothing is left of either number: the quota's own label, at first and when both are spent together.
const ALL_SPENT: [Step; 7] = [
    Step(Check(0), Refused(13, 7), Some(0)),
    Step(Check(4), Refused(10, 0), Some(0)),
    Step(Grant(1_000_001), Refused(11, 0), Some(0)),
    Step(Grant(1), Granted, Some(1)),
    Step(Check(4), Refused(10, 0), Some(1)),
    Step(Check(1), Fit, Some(0)),
    Step(Check(1), Refused(13, 7), Some(0)),
];

#[test]
fn quota_at_either_number(rt: HostRuntime) -> Result<(), Fail> {
    let mut own = Quota::new(7, 3, counted(2, 1, 2, 30, false));
    play(&rt, &mut own, (2, Some(2)), &OWN_ALONE_TAKEN)?;
    let mut spent = Quota::new(7, 0, counted(2, 1, 0, 30, true));
    play(&rt, &mut spent, (2, Some(0)), &ALL_SPENT)
}

// Requests 1 and 2 fit together, 3 with none; five checks, label 10. What a kept set decides takes nothing.
const KNOWN: [Step; 11] = [
    Step(Check(8), Refused(10, 0), Some(5)),
    Step(Check(3), Fit, Some(4)),
    Step(Check(1), Fit, Some(4)),
    Step(Check(0), Fit, Some(4)),
    Step(Check(4), Unfit, Some(3)),
    Step(Check(7), Unfit, Some(3)),
    Step(Check(5), Unfit, Some(3)),
    Step(Check(12), Refused(10, 0), Some(3)),
    Step(Check(2), Fit, Some(3)),
    Step(Grant(1_000_001), Refused(11, 0), Some(3)),
    Step(Grant(1_000_000), Granted, Some(1_000_000)),
];

// One check: at nought no kept set decides, and the refusal below is passed on.
const SPENT_BELOW: [Step; 9] = [
    Step(Check(1), Fit, Some(0)),
    Step(Check(1), Refused(13, 11), Some(0)),
    Step(Check(8), Refused(10, 0), Some(0)),
    Step(Grant(1), Granted, Some(1)),
    Step(Check(1), Fit, Some(1)),
    Step(Check(4), Unfit, Some(0)),
    Step(Check(4), Refused(13, 12), Some(0)),
    Step(Grant(1), Granted, Some(1)),
    Step(Check(5), Unfit, Some(1)),
];

#[test]
fn cover_decides_by_what_it_keeps(rt: HostRuntime) -> Result<(), Fail> {
    let mut cover = Cover::new(counted(3, 3, 5, 10, true));
    play(&rt, &mut cover, (3, Some(5)), &KNOWN)?;
    let mut spent = Cover::new(counted(3, 3, 1, 10, true));
    play(&rt, &mut spent, (3, Some(1)), &SPENT_BELOW)
}

// Where nothing can be taken, it answers alike; so does a quota of five.
#[test]
fn cover_and_quota_over_what_takes_nothing(rt: HostRuntime) -> Result<(), Fail> {
    let mut cover = Cover::new(counted(32, 3, 1, 20, false));
    play(&rt, &mut cover, (32, Some(1)), &NOT_TAKEN)?;
    let mut quota = Quota::new(7, 5, counted(32, 3, 1, 20, false));
    play(&rt, &mut quota, (32, Some(1)), &NOT_TAKEN)?;
    let mut free = Cover::new(endless(2, 1, 0));
    play(&rt, &mut free, (2, None), &ENDLESS)
}

// Three requests, of which 1 and 2 fit together, and as many checks as can be counted.
const AT_THE_MOST: [Step; 7] = [
    Step(Grant(1_000_000), Granted, Some(1_000_000)),
    Step(Check(3), Fit, Some(999_999)),
    Step(Check(4), Unfit, Some(999_998)),
    Step(Grant(1_000_001), Refused(11, 0), Some(999_998)),
    Step(Grant(1), Granted, Some(999_999)),
    Step(Grant(2), Granted, Some(1_000_000)),
    Step(Check(8), Refused(10, 0), Some(1_000_000)),
];

#[test]
fn layers_at_the_most(rt: HostRuntime) -> Result<(), Fail> {
    let first = (3, Some(1_000_000));
    let full = || counted(3, 3, 1_000_000, 20, true);
    let mut left = Both::new(full(), counted(3, 7, 1_000_000, 30, false));
    play(&rt, &mut left, first, &AT_THE_MOST)?;
    let mut right = Both::new(counted(3, 7, 1_000_000, 30, false), full());
    play(&rt, &mut right, first, &AT_THE_MOST)?;
    let mut own = Quota::new(7, 1_000_001, endless(3, 3, 30));
    play(&rt, &mut own, first, &AT_THE_MOST)?;
    let mut quota = Quota::new(7, 1_000_000, full());
    play(&rt, &mut quota, first, &AT_THE_MOST)?;
    play(&rt, &mut Cover::new(full()), first, &AT_THE_MOST)
}

// Checks every pair of 12 requests, 66 in all, each together with the requests that are added, and tells what is then left.
fn ask_pairs(rt: &impl Abort, cover: &mut Cover<Probe>, added: u32, fit: bool) -> Option<u32> {
    for bits in (0..4096_u32).filter(|bits| bits.count_ones() == 2) {
        assert_eq!(rt; cover.check(Set::new(bits | added)), Ok(Verdict { fit }));
    }
    cover.left()
}

// Of 66 pairs 64 are kept, so the second time two are asked below again; and so the third time.
#[test]
fn cover_keeps_sixty_four_of_each(rt: HostRuntime) {
    let mut fits = Cover::new(counted(12, 4095, 1000, 0, true));
    assert_eq!(rt; ask_pairs(&rt, &mut fits, 0, true), Some(934));
    assert_eq!(rt; ask_pairs(&rt, &mut fits, 0, true), Some(932));
    let mut unfits = Cover::new(counted(12, 0, 1000, 0, true));
    assert_eq!(rt; ask_pairs(&rt, &mut unfits, 0, false), Some(934));
    assert_eq!(rt; ask_pairs(&rt, &mut unfits, 0, false), Some(932));
    assert_eq!(rt; ask_pairs(&rt, &mut unfits, 0, false), Some(930));
}

// A cover has room for 64 of one answer though it keeps 64 of the other: pairs of 12 requests fit, and with request 13 none does.
#[test]
fn cover_keeps_sixty_four_beside_sixty_four(rt: HostRuntime) {
    let mut cover = Cover::new(counted(13, 4095, 1000, 0, true));
    assert_eq!(rt; ask_pairs(&rt, &mut cover, 0, true), Some(934));
    assert_eq!(rt; ask_pairs(&rt, &mut cover, 4096, false), Some(868));
    assert_eq!(rt; ask_pairs(&rt, &mut cover, 0, true), Some(866));
    assert_eq!(rt; ask_pairs(&rt, &mut cover, 4096, false), Some(864));
}

// The first and the 64th pair are kept, and a part of one; the 65th and the 66th are not, however often they are asked.
const FULL: [Step; 7] = [
    Step(Check(0x003), Fit, Some(934)),
    Step(Check(0x900), Fit, Some(934)),
    Step(Check(0x800), Fit, Some(934)),
    Step(Check(0xa00), Fit, Some(933)),
    Step(Check(0xa00), Fit, Some(932)),
    Step(Check(0xc00), Fit, Some(931)),
    Step(Check(0xc00), Fit, Some(930)),
];

// The same of sets that are unfit, and of sets that contain one.
const FULL_OF_UNFIT: [Step; 7] = [
    Step(Check(0x003), Unfit, Some(934)),
    Step(Check(0x900), Unfit, Some(934)),
    Step(Check(0xe01), Unfit, Some(934)),
    Step(Check(0xa00), Unfit, Some(933)),
    Step(Check(0xa00), Unfit, Some(932)),
    Step(Check(0xc00), Unfit, Some(931)),
    Step(Check(0xc00), Unfit, Some(930)),
];

#[test]
fn cover_keeps_the_first(rt: HostRuntime) -> Result<(), Fail> {
    let mut fits = Cover::new(counted(12, 4095, 1000, 0, true));
    ask_pairs(&rt, &mut fits, 0, true);
    play(&rt, &mut fits, (12, Some(934)), &FULL)?;
    let mut unfits = Cover::new(counted(12, 0, 1000, 0, true));
    ask_pairs(&rt, &mut unfits, 0, false);
    play(&rt, &mut unfits, (12, Some(934)), &FULL_OF_UNFIT)
}
