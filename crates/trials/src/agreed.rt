// The oracles over rules against exhaustive search, on lists by lot.
use crate::played::wanted;
use crate::search::{Heeded, Lot};
use rules::Kind;
use std::process::Abort;

// Lists for each kind.
const LISTS: u32 = 300;

// Owners are 0 to 3, so all sets of three requests.
const WIDTH: u32 = 3;

const SETS: u32 = 8;

// Whether a set is fit, where the oracle and the search agree.
fn is_fit(rt: &impl Abort, list: u32, heeded: Heeded<'_>, bits: u32) -> bool {
    let fit = heeded.some_serves(bits);
    assert_eq!(rt; (list, bits, heeded.told(bits)), (list, bits, wanted(fit)));
    fit
}

// How many sets are fit by one list.
fn agree_on(rt: &impl Abort, list: u32, heeded: Heeded<'_>) -> usize {
    (0..SETS)
        .filter(|bits| is_fit(rt, list, heeded, *bits))
        .count()
}

// How many sets of all lists are fit. A `sum` would have to be proved to fit its type.
fn agree(rt: &impl Abort, kind: Kind, seed: u32) -> usize {
    let mut lot = Lot { state: seed };
    (0..LISTS)
        .map(|list| agree_on(rt, list, Heeded::new(kind, &lot.list(kind), WIDTH)))
        .fold(0, usize::saturating_add)
}

// Both verdicts come often, of 2,400.
fn often(rt: &impl Abort, fit: usize) {
    assert_eq!(rt; (fit, 500 <= fit, fit <= 1_900), (fit, true, true));
}

// A test takes no kind, so there are three.
#[test]
fn options_agree(rt: HostRuntime) {
    often(&rt, agree(&rt, Kind::Options, 1));
}

#[test]
fn gaps_agree(rt: HostRuntime) {
    often(&rt, agree(&rt, Kind::Gaps, 2));
}

#[test]
fn faces_agree(rt: HostRuntime) {
    often(&rt, agree(&rt, Kind::Faces, 3));
}
