// Lists of rules with known verdicts, for the oracle of each kind. `rt` goes along everywhere, since what asserts needs the handle that may abort.
use crate::made::{faces, options};
use crate::played::Call::{Check, Grant};
use crate::played::Told::{Fit, Granted, Refused, Unfit};
use crate::played::{Shown, Step, Told, play, wanted};
use crate::search::Heeded;
use faces::Faces;
use gaps::Gaps;
use options::Options;
use oracle::Oracle;
use rules::{Kind, Rule};
use std::alloc::{AllocError, Global};
use std::iter::once;
use std::process::Abort;
use std::test::Fail;
use ticket::{MOST_RULES, read};

// The most rules of a ticket.
const MOST: usize = MOST_RULES as usize;

// How many requests a ticket has, its rule lines, and sets of the requests, by their numbers, that are fit and that are unfit.
struct Case(u32, &'static str, &'static [u32], &'static [u32]);

// Letter h.
const OPTIONS: [Case; 19] = [
    // No rule.
    Case(0, "", &[0], &[]),
    Case(32, "", &[0xffff_ffff], &[]),
    // A headless rule with no options, of the house and of a request.
    Case(3, "h=0,-\n", &[], &[0, 1, 2, 3, 4, 5, 6, 7]),
    Case(3, "h=2,-\n", &[0, 1, 4, 5], &[2, 3, 6, 7]),
    Case(32, "h=32,-\n", &[0x7fff_ffff], &[0x8000_0000]),
    // An option that is barred, and one that is on and barred.
    Case(0, "h=0,-,0\n", &[0], &[]),
    Case(0, "h=0,0\nh=0,-,0\n", &[], &[0]),
    Case(0, "h=0,-,0\nh=0,0\n", &[], &[0]),
    Case(1, "h=0,31\nh=1,-,31\n", &[0], &[1]),
    Case(1, "h=0,31\nh=1,-,30\n", &[0, 1], &[]),
    // A head that is on already, and one that is among its own options.
    Case(0, "h=0,5\nh=0,5\nh=0,5,5\n", &[0], &[]),
    Case(1, "h=0,5,5\nh=1,-,5\n", &[0, 1], &[]),
    Case(2, "h=0,5\nh=0,5,5\nh=2,-,5\n", &[0, 1], &[2, 3]),
    // Two requests that exclude each other.
    Case(2, "h=0,-,0,1\nh=1,0\nh=2,1\n", &[0, 1, 2], &[3]),
    // A rule that needs two options.
    Case(
        3,
        "h=0,2,0,1\nh=1,0\nh=2,1\nh=3,-,2\n",
        &[0, 1, 2, 3, 4, 5, 6],
        &[7],
    ),
    // Two options that turn each other on.
    Case(2, "h=0,1,0\nh=0,0,1\nh=1,-,0,1\n", &[0, 1, 2, 3], &[]),
    Case(2, "h=0,1,0\nh=0,0,1\nh=1,-,0,1\nh=2,1\n", &[0, 1, 2], &[3]),
    // Eight options, all on, and all but one.
    Case(
        1,
        "h=0,-,0,1,2,3,4,5,6,31\nh=0,0\nh=0,1\nh=0,2\nh=0,3\nh=0,4\nh=0,5\nh=0,6\nh=1,31\n",
        &[0],
        &[1],
    ),
    // The worked example.
    Case(
        3,
        "h=0,-,0,1\nh=0,-,1,2\nh=1,1\nh=2,0\nh=3,2\n",
        &[0, 1, 2, 4, 6],
        &[3, 5, 7],
    ),
];

// Letter g.
const GAPS: [Case; 26] = [
    // No rule.
    Case(0, "", &[0], &[]),
    Case(32, "", &[0xffff_ffff], &[]),
    // A gap between a mark and itself.
    Case(0, "g=0,3,3,0\n", &[0], &[]),
    Case(0, "g=0,3,3,1\n", &[0], &[]),
    Case(0, "g=0,3,3,10000\n", &[0], &[]),
    Case(0, "g=0,3,3,-1\n", &[], &[0]),
    Case(0, "g=0,0,0,-10000\n", &[], &[0]),
    Case(1, "g=1,15,15,-1\n", &[0], &[1]),
    Case(32, "g=32,15,15,-1\n", &[0x7fff_ffff], &[0x8000_0000]),
    // Two gaps that add up to 0, to 1 and to -1.
    Case(0, "g=0,0,1,5\ng=0,1,0,-5\n", &[0], &[]),
    Case(0, "g=0,0,1,5\ng=0,1,0,-4\n", &[0], &[]),
    Case(0, "g=0,0,1,5\ng=0,1,0,-6\n", &[], &[0]),
    Case(0, "g=0,0,1,-6\ng=0,1,0,5\n", &[], &[0]),
    // Three gaps of three requests that add up to 0, to 1 and to -1.
    Case(
        3,
        "g=1,0,1,-3\ng=2,1,2,-4\ng=3,2,0,7\n",
        &[0, 1, 2, 3, 4, 5, 6, 7],
        &[],
    ),
    Case(
        3,
        "g=1,0,1,-3\ng=2,1,2,-4\ng=3,2,0,8\n",
        &[0, 1, 2, 3, 4, 5, 6, 7],
        &[],
    ),
    Case(
        3,
        "g=1,0,1,-3\ng=2,1,2,-4\ng=3,2,0,6\n",
        &[0, 1, 2, 3, 4, 5, 6],
        &[7],
    ),
    // The least and the greatest w.
    Case(0, "g=0,0,1,10000\ng=0,1,0,-10000\n", &[0], &[]),
    Case(0, "g=0,0,1,9999\ng=0,1,0,-10000\n", &[], &[0]),
    Case(0, "g=0,0,1,10000\ng=0,1,0,10000\n", &[0], &[]),
    Case(0, "g=0,0,1,-10000\ng=0,1,0,-10000\n", &[], &[0]),
    Case(0, "g=0,14,15,-10000\ng=0,15,14,10000\n", &[0], &[]),
    Case(0, "g=0,14,15,-10000\ng=0,15,14,9999\n", &[], &[0]),
    // Of two gaps between the same marks the lesser counts, in either order.
    Case(1, "g=0,0,1,3\ng=0,0,1,-2\ng=1,1,0,2\n", &[0, 1], &[]),
    Case(1, "g=0,0,1,3\ng=0,0,1,-2\ng=1,1,0,1\n", &[0], &[1]),
    Case(1, "g=0,0,1,-2\ng=0,0,1,3\ng=1,1,0,1\n", &[0], &[1]),
    // Two rings, of which the second cannot be met.
    Case(
        2,
        "g=1,0,1,1\ng=1,1,0,-1\ng=2,7,8,1\ng=2,8,7,-2\n",
        &[0, 1],
        &[2, 3],
    ),
];

// Letter f.
const FACES: [Case; 24] = [
    // No rule.
    Case(0, "", &[0], &[]),
    Case(32, "", &[0xffff_ffff], &[]),
    // A single face, with either bit and with both.
    Case(0, "f=0,0,0\n", &[0], &[]),
    Case(0, "f=0,1,0\n", &[0], &[]),
    Case(0, "f=0,1,0\nf=0,0,0\n", &[], &[0]),
    Case(0, "f=0,0,31\nf=0,1,31\n", &[], &[0]),
    Case(0, "f=0,0,30\nf=0,1,31\n", &[0], &[]),
    Case(2, "f=1,1,0\nf=2,0,0\n", &[0, 1, 2], &[3]),
    Case(32, "f=0,1,0\nf=32,0,0\n", &[0x7fff_ffff], &[0x8000_0000]),
    // Three faces, two by two.
    Case(
        3,
        "f=1,1,0,1\nf=2,1,1,2\nf=3,1,0,2\n",
        &[0, 1, 2, 3, 4, 5, 6],
        &[7],
    ),
    Case(
        3,
        "f=1,1,0,1\nf=2,1,1,2\nf=3,0,0,2\n",
        &[0, 1, 2, 3, 4, 5, 6, 7],
        &[],
    ),
    // Four faces in a ring.
    Case(0, "f=0,1,0,1\nf=0,1,1,2\nf=0,1,2,3\nf=0,1,0,3\n", &[0], &[]),
    Case(0, "f=0,1,0,1\nf=0,1,1,2\nf=0,1,2,3\nf=0,0,0,3\n", &[], &[0]),
    // The same rule twice.
    Case(0, "f=0,1,4,5\nf=0,1,4,5\n", &[0], &[]),
    Case(0, "f=0,0,4,5\nf=0,0,4,5\n", &[0], &[]),
    Case(0, "f=0,0,4,5\nf=0,1,4,5\n", &[], &[0]),
    // Two rules that add up to a third.
    Case(0, "f=0,1,0,1\nf=0,1,2,3\nf=0,0,0,1,2,3\n", &[0], &[]),
    Case(0, "f=0,1,0,1\nf=0,1,2,3\nf=0,1,0,1,2,3\n", &[], &[0]),
    Case(0, "f=0,1,0,1,2,3\nf=0,1,2,3\nf=0,1,0,1\n", &[], &[0]),
    // Eight faces.
    Case(0, "f=0,1,24,25,26,27,28,29,30,31\n", &[0], &[]),
    Case(
        0,
        "f=0,1,24,25,26,27,28,29,30,31\nf=0,0,24,25,26,27,28,29,30,31\n",
        &[],
        &[0],
    ),
    Case(
        0,
        "f=0,0,0\nf=0,0,1\nf=0,0,2\nf=0,0,3\nf=0,0,4\nf=0,0,5\nf=0,0,6\nf=0,0,7\nf=0,0,0,1,2,3,4,5,6,7\n",
        &[0],
        &[],
    ),
    Case(
        0,
        "f=0,0,0\nf=0,0,1\nf=0,0,2\nf=0,0,3\nf=0,0,4\nf=0,0,5\nf=0,0,6\nf=0,0,7\nf=0,1,0,1,2,3,4,5,6,7\n",
        &[],
        &[0],
    ),
    Case(
        0,
        "f=0,0,0\nf=0,0,1\nf=0,0,2\nf=0,0,3\nf=0,0,4\nf=0,0,5\nf=0,0,6\nf=0,1,7\nf=0,1,0,1,2,3,4,5,6,7\n",
        &[0],
        &[],
    ),
];

fn ticket_of(heap: Global, case: &Case) -> Result<String, AllocError> {
    let Case(requests, lines, ..) = case;
    let rules = lines.lines().count();
    format!(in heap; "ticket=1\nrequests={requests}\nchecks=0\nrules={rules}\n{lines}end=ticket\n")
}

fn each_set(rt: &impl Abort, heeded: Heeded<'_>, sets: &[u32], fit: bool, lines: &str) {
    for bits in sets {
        assert_eq!(rt;
            (*bits, heeded.told(*bits)),
            (*bits, wanted(fit)),
            "{lines}"
        );
    }
}

fn each_case(rt: &impl Abort, kind: Kind, heap: Global, cases: &[Case]) -> Result<(), Fail> {
    for case in cases {
        // A table, since `read` fills a list that is lent to it.
        let mut rules = [Rule::blank(); MOST];
        let text = ticket_of(heap, case)?;
        let width = read(text.as_bytes(), &mut rules)?.requests;
        let heeded = Heeded::new(kind, &rules, width);
        each_set(rt, heeded, case.2, true, case.1);
        each_set(rt, heeded, case.3, false, case.1);
    }
    Ok(())
}

// A test takes no kind, so there are three.
#[test]
fn tickets_of_options(rt: HostRuntime) -> Result<(), Fail> {
    each_case(&rt, Kind::Options, rt.alloc(), &OPTIONS)
}

#[test]
fn tickets_of_gaps(rt: HostRuntime) -> Result<(), Fail> {
    each_case(&rt, Kind::Gaps, rt.alloc(), &GAPS)
}

#[test]
fn tickets_of_faces(rt: HostRuntime) -> Result<(), Fail> {
    each_case(&rt, Kind::Faces, rt.alloc(), &FACES)
}

// A list that begins with these rules; the others are blank, so it is a table that is filled and not one that is collected.
pub fn list_of<const N: usize, I: Iterator<Item = Rule> + Drop>(rules: I) -> [Rule; N]
    requires { I.can_next rules }
{
    let mut list = [Rule::blank(); N];
    for (entry, rule) in list.iter_mut().zip(rules) {
        *entry = rule;
    }
    list
}

// Whether the sets 0 to 3 of two requests are fit, by the list in either order.
pub fn both_ways<const N: usize>(
    rt: &impl Abort,
    kind: Kind,
    mut rules: [Rule; N],
    fit: [bool; 4],
) {
    four_sets(rt, Heeded::new(kind, &rules, 2), fit);
    rules.reverse();
    four_sets(rt, Heeded::new(kind, &rules, 2), fit);
}

fn four_sets(rt: &impl Abort, heeded: Heeded<'_>, fit: [bool; 4]) {
    for (bits, fit) in (0..4).zip(fit) {
        assert_eq!(rt; (bits, heeded.told(bits)), (bits, wanted(fit)));
    }
}

// Request 1 turns option 0 on, and each option the next, up to 31, which request 2 bars. In the reverse order a pass over the list turns only one on.
#[test]
fn chain_of_options(rt: HostRuntime) {
    let first = once(options(1, Some(0), 0));
    let others = (0..31_u32).map(|i| options(0, Some(i + 1), 1 << i));
    let rules: [Rule; MOST] = list_of(first.chain(others).chain([options(2, None, 1 << 31)]));
    both_ways(&rt, Kind::Options, rules, [true, true, true, false]);
}

// Each mark minus the next is at most w, from 0 to 15; each request closes the ring with a w of its own.
fn chain_of_marks(w: i32, first: i32, second: i32) -> [Rule; MOST] {
    let chain = (0..15_u32).map(|i| Rule::gap(0, i, i + 1, w));
    list_of(chain.chain([Rule::gap(1, 15, 0, first), Rule::gap(2, 15, 0, second)]))
}

#[test]
fn chains_of_gaps(rt: HostRuntime) {
    let short = chain_of_marks(-1, 15, 14);
    both_ways(&rt, Kind::Gaps, short, [true, true, false, false]);
    let slack = chain_of_marks(-1, 16, 15);
    both_ways(&rt, Kind::Gaps, slack, [true, true, true, true]);
    let long = chain_of_marks(-10_000, 10_000, -10_000);
    both_ways(&rt, Kind::Gaps, long, [true, false, false, false]);
    let loose = chain_of_marks(10_000, 10_000, -10_000);
    both_ways(&rt, Kind::Gaps, loose, [true, true, true, true]);
}

// Eight gaps of -10,000 and eight of 10,000, in a ring of all marks. Request 1 asks 9,999 of the last; request 2 asks less of the first than the house does.
#[test]
fn ring_of_both_ends(rt: HostRuntime) {
    let least = (0..8_u32).map(|i| Rule::gap(0, i, i + 1, -10_000));
    let greatest = (8..16_u32).map(|i| Rule::gap(0, i, (i + 1) % 16, 10_000));
    let asked = [Rule::gap(1, 15, 0, 9_999), Rule::gap(2, 0, 1, -9_999)];
    let rules: [Rule; MOST] = list_of(least.chain(greatest).chain(asked));
    both_ways(&rt, Kind::Gaps, rules, [true, false, true, false]);
}

// Each face lies otherwise than the next, from 0 to 31; request 1 asks so of the last and the first, and request 2 the contrary.
#[test]
fn chain_of_faces(rt: HostRuntime) {
    let chain = (0..31_u32).map(|i| faces(0, true, 3 << i));
    let asked = [faces(1, true, 0x8000_0001), faces(2, false, 0x8000_0001)];
    let rules: [Rule; MOST] = list_of(chain.chain(asked));
    both_ways(&rt, Kind::Faces, rules, [true, true, false, false]);
}

pub const KINDS: [Kind; 3] = [Kind::Options, Kind::Gaps, Kind::Faces];

// Rules of that kind that nothing meets.
pub fn unmet(kind: Kind, owner: u32) -> [Rule; 2] {
    match kind {
        Kind::Options => [options(owner, None, 0), Rule::blank()],
        Kind::Gaps => [Rule::gap(owner, 0, 0, -1), Rule::blank()],
        Kind::Faces => [faces(owner, true, 1), faces(owner, false, 1)],
    }
}

// What the oracle says of the one set of a ticket with no request. Of kind and rules, since it makes the `Heeded` of them; so `all_blank`.
pub fn nobody(kind: Kind, rules: &[Rule]) -> Told {
    Heeded::new(kind, rules, 0).told(0)
}

// An oracle passes over rules of the other kinds.
fn heeds(rt: &impl Abort, kind: Kind) {
    for other in KINDS {
        assert_eq!(rt;
            (other, nobody(kind, &unmet(other, 0))),
            (other, wanted(kind != other))
        );
    }
}

#[test]
fn rules_of_other_kinds(rt: HostRuntime) {
    for kind in KINDS {
        heeds(&rt, kind);
    }
}

// Rules that cannot be met, of request 3 among three.
const THREE: [Step; 10] = [
    Step(Check(0), Fit, None),
    Step(Check(3), Fit, None),
    Step(Check(4), Unfit, None),
    Step(Check(7), Unfit, None),
    Step(Check(8), Refused(10, 0), None),
    Step(Check(0xffff_ffff), Refused(10, 0), None),
    Step(Grant(1_000_001), Refused(11, 0), None),
    Step(Grant(1_000_000), Granted, None),
    Step(Grant(0), Granted, None),
    Step(Check(3), Fit, None),
];

// The same of requests 4 and 5, which are above the width.
const ABOVE: [Step; 4] = [
    Step(Check(0), Fit, None),
    Step(Check(7), Fit, None),
    Step(Check(8), Refused(10, 0), None),
    Step(Check(16), Refused(10, 0), None),
];

// The same of request 32, where the width is cut at 32.
const WIDE: [Step; 2] = [
    Step(Check(0x7fff_ffff), Fit, None),
    Step(Check(0x8000_0000), Unfit, None),
];

// No request: one set.
const NOBODY: [Step; 2] = [
    Step(Check(0), Fit, None),
    Step(Check(1), Refused(10, 0), None),
];

// Plays with the oracle of each kind, over rules of that kind that nothing meets.
fn play_each(
    rt: &impl Abort,
    owner: u32,
    given: u32,
    first: Shown,
    steps: &[Step],
) -> Result<(), Fail> {
    let [h, g, f] = KINDS.map(|kind| unmet(kind, owner));
    play(rt, &mut Options::new(&h, given), first, steps)?;
    play(rt, &mut Gaps::new(&g, given), first, steps)?;
    play(rt, &mut Faces::new(&f, given), first, steps)
}

#[test]
fn calls_with_three_requests(rt: HostRuntime) -> Result<(), Fail> {
    play_each(&rt, 3, 3, (3, None), &THREE)
}

#[test]
fn owners_above_the_width(rt: HostRuntime) -> Result<(), Fail> {
    play_each(&rt, 4, 3, (3, None), &ABOVE)?;
    play_each(&rt, 5, 3, (3, None), &ABOVE)?;
    play_each(&rt, 1, 0, (0, None), &NOBODY)
}

// A width, and what it is then.
const WIDTHS: [(u32, u32); 6] = [
    (0, 0),
    (3, 3),
    (31, 31),
    (32, 32),
    (33, 32),
    (0xffff_ffff, 32),
];

#[test]
fn widths_above_the_widest(rt: HostRuntime) -> Result<(), Fail> {
    for (given, width) in WIDTHS {
        assert_eq!(rt; Options::new(&[], given).width(), width);
        assert_eq!(rt; Gaps::new(&[], given).width(), width);
        assert_eq!(rt; Faces::new(&[], given).width(), width);
    }
    play_each(&rt, 32, 32, (32, None), &WIDE)?;
    play_each(&rt, 32, 33, (32, None), &WIDE)
}

// A list may be empty, and longer than that of a ticket.
#[test]
fn lists_of_any_length(rt: HostRuntime) {
    for kind in KINDS {
        assert_eq!(rt; nobody(kind, &[]), Fit);
        let rules: [Rule; 500] = list_of(unmet(kind, 2).into_iter());
        both_ways(&rt, kind, rules, [true, true, false, false]);
    }
}

// The chain of fifteen gaps twenty times over; request 1 closes the ring with 0, and request 2 with -1.
#[test]
fn chain_of_gaps_again_and_again(rt: HostRuntime) {
    let chain = (0..300_u32).map(|i| Rule::gap(0, i % 15, i % 15 + 1, -500));
    let asked = [Rule::gap(1, 15, 0, 7_500), Rule::gap(2, 15, 0, 7_499)];
    let rules: [Rule; 500] = list_of(chain.chain(asked));
    both_ways(&rt, Kind::Gaps, rules, [true, true, false, false]);
}
