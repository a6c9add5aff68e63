// The reports of tickets with as many lines as there is room for, and with more. Their requests stand in groups, one behind the other, and cannot be met
// together where all of a group are in.
use crate::made::options;
use crate::texts::{Tail, printed, report, ticket};
use listing::Line;
use rules::Rule;
use sets::Set;
use std::alloc::{AllocError, Global};
use std::process::Abort;
use std::test::Fail;

// How many requests there are, the sizes of the groups, how many checks are given, how many relaxations are to be told, and what after them.
struct Crowd {
    requests: u32,
    sizes: &'static [u32],
    given: usize,
    relaxations: u64,
    tail: Tail,
}

// The numbers of checks were found by a plain program, apart from this one. Each bound is 1 and the lines and twice 5 for each request, since each is in one
// conflict.
const PAIRS: [Crowd; 3] = [
    // Nine pairs exclude each other: of 2^9 relaxations nine have no room.
    Crowd {
        requests: 18,
        sizes: &[2, 2, 2, 2, 2, 2, 2, 2, 2],
        given: 1_000,
        relaxations: 503,
        tail: Tail {
            checks: 578,
            bound: 693,
            ended: "full",
        },
    },
    // With just so many checks the last line has come, and that there is no room takes none.
    Crowd {
        requests: 18,
        sizes: &[2, 2, 2, 2, 2, 2, 2, 2, 2],
        given: 578,
        relaxations: 503,
        tail: Tail {
            checks: 578,
            bound: 693,
            ended: "full",
        },
    },
    Crowd {
        requests: 18,
        sizes: &[2, 2, 2, 2, 2, 2, 2, 2, 2],
        given: 577,
        relaxations: 502,
        tail: Tail {
            checks: 577,
            bound: 692,
            ended: "spent,1",
        },
    },
];

const GROUPS: [Crowd; 3] = [
    // Eight conflicts and 7 * 2 * 2 * 2 * 3 * 3 relaxations have just room.
    Crowd {
        requests: 21,
        sizes: &[7, 2, 2, 2, 3, 3, 1, 1],
        given: 1_000,
        relaxations: 504,
        tail: Tail {
            checks: 592,
            bound: 723,
            ended: "all",
        },
    },
    // One line more has not.
    Crowd {
        requests: 22,
        sizes: &[7, 2, 2, 2, 3, 3, 1, 1, 1],
        given: 1_000,
        relaxations: 503,
        tail: Tail {
            checks: 598,
            bound: 733,
            ended: "full",
        },
    },
    // No request can be met.
    Crowd {
        requests: 32,
        sizes: &[
            1, 1, 1, 1, 1, 1, 1, 1, 1, 1, 1, 1, 1, 1, 1, 1, 1, 1, 1, 1, 1, 1, 1, 1, 1, 1, 1, 1, 1,
            1, 1, 1,
        ],
        given: 1_000,
        relaxations: 1,
        tail: Tail {
            checks: 137,
            bound: 354,
            ended: "all",
        },
    },
];

// The set of the first so many requests.
fn first(count: u32) -> u32 {
    if count < 32 {
        (1 << count) - 1
    } else {
        u32::MAX
    }
}

// The groups, each as a set.
fn groups_of(heap: Global, sizes: &[u32]) -> Result<Vec<u32>, AllocError> {
    let mut groups = Vec::new(heap);
    let mut before: u32 = 0;
    for size in sizes {
        let end = before.saturating_add(*size);
        groups.push(first(end) & !first(before))?;
        before = end;
    }
    Ok(groups)
}

// Each request wants an option of its own on, the first option 0.
fn push_wants(rules: &mut Vec<Rule>, requests: u32) -> Result<(), AllocError> {
    for request in 0..requests {
        rules.push(options(request.saturating_add(1), Some(request), 0))?;
    }
    Ok(())
}

// The house bars that all options of a group are on.
fn rules_of(heap: Global, requests: u32, groups: &[u32]) -> Result<Vec<Rule>, AllocError> {
    let mut rules = Vec::new(heap);
    for group in groups {
        rules.push(options(0, None, *group))?;
    }
    push_wants(&mut rules, requests)?;
    Ok(rules)
}

// The relaxation at a place, counted from nought: it leaves out one request of every group, and the places count up like a number with a digit for each group,
// which says how far from its end the one that is left out stands.
fn at_place(requests: u32, groups: &[u32], place: u64) -> u32 {
    let mut kept = first(requests);
    let mut rest = place;
    for group in groups.iter().rev() {
        let size = u64::from(group.count_ones().max(1));
        let digit = rest % size;
        kept &= !from_the_end(*group, digit);
        rest /= size;
    }
    kept
}

// The request that stands so many places before the last of a set, alone.
fn from_the_end(set: u32, places: u64) -> u32 {
    let mut left = places;
    for i in (0..32_u32).rev() {
        if (set >> i) % 2 == 1 {
            if left == 0 {
                return 1 << i;
            }
            left -= 1;
        }
    }
    0
}

fn push_relaxations(
    lines: &mut Vec<Line>,
    requests: u32,
    groups: &[u32],
    count: u64,
) -> Result<(), AllocError> {
    for place in 0..count {
        lines.push(Line::Relaxation(Set::new(at_place(requests, groups, place))))?;
    }
    Ok(())
}

// The groups are listed first, from the first on, since each seed before that still has all of those that are not listed.
fn lines_of(heap: Global, crowd: &Crowd, groups: &[u32]) -> Result<Vec<Line>, AllocError> {
    let mut lines = Vec::new(heap);
    for group in groups {
        lines.push(Line::Conflict(Set::new(*group)))?;
    }
    push_relaxations(&mut lines, crowd.requests, groups, crowd.relaxations)?;
    Ok(lines)
}

fn each_crowd(rt: &impl Abort, heap: Global, crowds: &[Crowd]) -> Result<(), Fail> {
    for crowd in crowds {
        let groups = groups_of(heap, crowd.sizes)?;
        let rules = rules_of(heap, crowd.requests, groups.as_slice())?;
        let text = ticket(heap, crowd.requests, crowd.given, rules.as_slice())?;
        let told = printed(heap, text.as_bytes())?;
        let lines = lines_of(heap, crowd, groups.as_slice())?;
        let want = report(heap, crowd.requests, lines.as_slice(), crowd.tail)?;
        assert_eq!(rt; told.as_str(), want.as_str());
    }
    Ok(())
}

// Two tests, since each takes long where it is run without a proof.
#[test]
fn reports_of_pairs(rt: HostRuntime) -> Result<(), Fail> {
    each_crowd(&rt, rt.alloc(), &PAIRS)
}

#[test]
fn reports_of_groups(rt: HostRuntime) -> Result<(), Fail> {
    each_crowd(&rt, rt.alloc(), &GROUPS)
}
