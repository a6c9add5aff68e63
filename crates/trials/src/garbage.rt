// Records that no rule line can say, for the oracle of each kind.
use crate::kinds::{KINDS, both_ways, list_of, nobody, unmet};
use crate::made::{faces, options};
use crate::played::Told::{Fit, Unfit};
use crate::search::Heeded;
use rules::{Kind, Rule};
use std::process::Abort;

// No set of 32 requests is unfit.
fn all_blank(rt: &impl Abort, kind: Kind, rules: &[Rule]) {
    let heeded = Heeded::new(kind, rules, 32);
    assert_eq!(rt; heeded.told(0), Fit);
    assert_eq!(rt; heeded.told(0xffff_ffff), Fit);
}

// In each list is a record that no rule line can say, and that counts as blank: heeded, or taken for one with a smaller number, it would make a set unfit.
#[test]
fn garbage_of_options(rt: HostRuntime) {
    all_blank(&rt, Kind::Options, &[options(33, None, 0)]);
    all_blank(&rt, Kind::Options, &[options(0xffff_ffff, None, 0)]);
    all_blank(
        &rt,
        Kind::Options,
        &[options(0, Some(32), 0), options(0, None, 1)],
    );
    all_blank(
        &rt,
        Kind::Options,
        &[
            options(0, Some(0xffff_ffff), 0),
            options(0, None, 0x8000_0000),
        ],
    );
}

#[test]
fn garbage_of_gaps(rt: HostRuntime) {
    let rules = [
        Rule::gap(33, 0, 0, -1),
        Rule::gap(0, 16, 16, -1),
        Rule::gap(0, 16, 0, -1),
        Rule::gap(0, 0, 16, -1),
        Rule::gap(0, 0, 0, -10_001),
        Rule::gap(0, 0, 0, -2_147_483_648),
        // With the two after it, which count, this would be a ring of -1.
        Rule::gap(0, 0, 1, 10_001),
        Rule::gap(0, 1, 2, -10_000),
        Rule::gap(0, 2, 0, -2),
    ];
    all_blank(&rt, Kind::Gaps, &rules);
    // Of each mark alone: taken for mark 0 it would be a mark that lies before itself, and taken for mark 15 a ring of -2 with the other.
    let first = [Rule::gap(0, 16, 0, -1), Rule::gap(0, 0, 15, -1)];
    all_blank(&rt, Kind::Gaps, &first);
    let second = [Rule::gap(0, 0, 16, -1), Rule::gap(0, 15, 0, -1)];
    all_blank(&rt, Kind::Gaps, &second);
}

#[test]
fn garbage_of_faces(rt: HostRuntime) {
    all_blank(&rt, Kind::Faces, &[faces(33, true, 1), faces(33, false, 1)]);
    all_blank(&rt, Kind::Faces, &[faces(0, true, 0)]);
}

// Options 0 to 8 are on, and the first so many of them are barred.
fn barred(count: u32) -> [Rule; 10] {
    let on = (0..9_u32).map(|i| options(0, Some(i), 0));
    list_of(on.chain([options(0, None, (1 << count.min(9)) - 1)]))
}

// Faces 0 to 8 lie at the front, and the first so many of them are to be odd.
fn at_the_front(count: u32) -> [Rule; 10] {
    let front = (0..9_u32).map(|i| faces(0, false, 1 << i));
    list_of(front.chain([faces(0, true, (1 << count.min(9)) - 1)]))
}

// Eight members are heeded, nine not.
#[test]
fn members_of_a_rule(rt: HostRuntime) {
    assert_eq!(rt; nobody(Kind::Options, &barred(8)), Unfit);
    assert_eq!(rt; nobody(Kind::Options, &barred(9)), Fit);
    assert_eq!(rt; nobody(Kind::Faces, &at_the_front(8)), Unfit);
    assert_eq!(rt; nobody(Kind::Faces, &at_the_front(9)), Fit);
}

// Owners above 32.
const NOBODY: [u32; 4] = [33, 64, 0x8000_0000, 0xffff_ffff];

fn owned_by_nobody(rt: &impl Abort, kind: Kind) {
    for owner in NOBODY {
        all_blank(rt, kind, &unmet(kind, owner));
    }
}

// Such an owner is nobody, of whichever kind the rule is.
#[test]
fn garbage_of_owners(rt: HostRuntime) {
    for kind in KINDS {
        owned_by_nobody(&rt, kind);
    }
}

// A rule of that kind that no rule line can say.
fn unsayable(kind: Kind) -> Rule {
    match kind {
        Kind::Options => options(0, Some(32), 0),
        Kind::Gaps => Rule::gap(0, 16, 0, -1),
        Kind::Faces => faces(0, true, 0),
    }
}

// What stands before garbage and behind it is heeded. A record that has an owner and says nothing is garbage too.
#[test]
fn garbage_hides_nothing(rt: HostRuntime) {
    let silent = Rule {
        owner: 1,
        body: None,
    };
    for kind in KINDS {
        let [first, second] = unmet(kind, 2);
        let rules = [
            silent,
            unsayable(kind),
            first,
            second,
            unsayable(kind),
            silent,
        ];
        both_ways(&rt, kind, rules, [true, true, false, false]);
    }
}
