// Tables of texts with what the reader must say of them, and what it must leave in the list.
use crate::{TicketFault, read};
use rules::Rule;
use sets::Mask;
use std::alloc::{AllocError, Global};
use std::test::Fail;

const MOST: usize = 97;

// Number, line and field of the refusal, given a list of `room` entries; noughts where the text is accepted, so that a case is a text and three numbers.
// Lists are tables in these tests, since the reader fills a list that is lent to it.
fn told(text: &[u8], room: usize) -> (u32, usize, usize) {
    let mut rules = [Rule::blank(); MOST];
    let n = room.min(MOST);
    let answer = read(text, &mut rules[0..n]);
    answer.err().map_or((0, 0, 0), TicketFault::told)
}

// A text, and number, line and field of its refusal; noughts where it is accepted.
struct Case(&'static [u8], u32, usize, usize);

// Whole texts, given a list of 96.
const TEXTS: [Case; 41] = [
    Case(b"", 2, 1, 0),
    Case(b"ticket=1", 2, 1, 0),
    Case(b"ticket=1\n", 2, 2, 0),
    Case(b"\n", 3, 1, 0),
    Case(b"ticket\n", 3, 1, 0),
    Case(b"Ticket=1\n", 3, 1, 0),
    Case(b" ticket=1\n", 3, 1, 0),
    Case(b"requests=1\n", 3, 1, 0),
    Case(b"ticket=1,1\n", 4, 1, 0),
    Case(b"ticket=1,\n", 4, 1, 0),
    Case(b"ticket=x,y\n", 4, 1, 0),
    Case(b"ticket=\n", 5, 1, 1),
    Case(b"ticket=01\n", 5, 1, 1),
    Case(b"ticket=1\r\n", 5, 1, 1),
    Case(b"ticket=0\n", 6, 1, 1),
    Case(b"ticket=2\n", 6, 1, 1),
    Case(b"ticket=1\nrequests=32\n", 2, 3, 0),
    Case(b"ticket=1\nrequests=33\n", 6, 2, 1),
    Case(b"ticket=1\nrequests=9999999\n", 6, 2, 1),
    Case(b"ticket=1\nrequests=10000000\n", 5, 2, 1),
    Case(b"ticket=1\nrequests=03\n", 5, 2, 1),
    Case(b"ticket=1\nrequests=-3\n", 5, 2, 1),
    Case(b"ticket=1\nrequests=+3\n", 5, 2, 1),
    Case(b"ticket=1\nrequests=-\n", 5, 2, 1),
    Case(b"ticket=1\nrequests=\x00\n", 5, 2, 1),
    Case(b"ticket=1\nrequests=\xb3\n", 5, 2, 1),
    Case(b"ticket=1\nrequest=3\n", 3, 2, 0),
    Case(b"ticket=1\nrequests=0\nchecks=1000000\n", 2, 4, 0),
    Case(b"ticket=1\nrequests=0\nchecks=1000001\n", 6, 3, 1),
    Case(b"ticket=1\nrequests=0\nchecks=0\nrules=96\n", 2, 5, 0),
    Case(b"ticket=1\nrequests=0\nchecks=0\nrules=97\n", 6, 4, 1),
    Case(
        b"ticket=1\nrequests=0\nchecks=0\nrules=1\nend=ticket\n",
        3,
        5,
        0,
    ),
    Case(
        b"ticket=1\nrequests=0\nchecks=0\nrules=0\nend=ticket\n",
        0,
        0,
        0,
    ),
    Case(
        b"ticket=1\nrequests=0\nchecks=0\nrules=0\nend=ticket",
        2,
        5,
        0,
    ),
    Case(
        b"ticket=1\nrequests=0\nchecks=0\nrules=0\nh=0,-\nend=ticket\n",
        3,
        5,
        0,
    ),
    Case(
        b"ticket=1\nrequests=0\nchecks=0\nrules=0\nend=ticket,\n",
        5,
        5,
        1,
    ),
    Case(
        b"ticket=1\nrequests=0\nchecks=0\nrules=0\nend=tickets\n",
        5,
        5,
        1,
    ),
    Case(b"ticket=1\nrequests=0\nchecks=0\nrules=0\nend=\n", 5, 5, 1),
    Case(
        b"ticket=1\nrequests=0\nchecks=0\nrules=0\nend=ticket\n\n",
        9,
        6,
        0,
    ),
    Case(
        b"ticket=1\nrequests=0\nchecks=0\nrules=0\nend=ticket\nx",
        9,
        6,
        0,
    ),
    Case(
        b"ticket=1\nrequests=0\nchecks=0\nrules=1\ng=0,0,0,0\nend=ticket\n\x00",
        9,
        7,
        0,
    ),
];

// The one rule line of a ticket of three requests, which is line 5.
const RULE_LINES: [Case; 55] = [
    Case(b"h=0,-", 0, 0, 0),
    Case(b"h=3,31", 0, 0, 0),
    Case(b"h=0,-,0,1,2,3,4,5,6,31", 0, 0, 0),
    Case(b"h=0", 4, 5, 0),
    Case(b"h=", 4, 5, 0),
    Case(b"h=x", 4, 5, 0),
    Case(b"h=0,-,0,1,2,3,4,5,6,7,8", 4, 5, 0),
    Case(b"h=00,-", 5, 5, 1),
    Case(b"h=-,-", 5, 5, 1),
    Case(b"h=0,--", 5, 5, 2),
    Case(b"h=0,", 5, 5, 2),
    Case(b"h=0,-,-", 5, 5, 3),
    Case(b"h=9,-,x", 5, 5, 3),
    Case(b"h=4,-", 6, 5, 1),
    Case(b"h=0,32", 6, 5, 2),
    Case(b"h=0,-,32", 6, 5, 3),
    Case(b"h=0,-,5,40,3", 6, 5, 4),
    Case(b"h=4,32,3,3", 6, 5, 1),
    Case(b"h=0,-,1,1", 7, 5, 4),
    Case(b"h=0,-,2,1", 7, 5, 4),
    Case(b"h=0,-,0,1,1", 7, 5, 5),
    Case(b"h=0,0,1,2,3,4,5,6,31,30", 7, 5, 10),
    Case(b"h=0,\x00", 5, 5, 2),
    Case(b"h=0,\xff", 5, 5, 2),
    Case(b"h=0,- ", 5, 5, 2),
    Case(b"g=0,15,15,10000", 0, 0, 0),
    Case(b"g=3,0,0,-10000", 0, 0, 0),
    Case(b"g=0,0,0,0", 0, 0, 0),
    Case(b"g=0,1,2", 4, 5, 0),
    Case(b"g=0,1,2,3,4", 4, 5, 0),
    Case(b"g=0,1,2,-0", 5, 5, 4),
    Case(b"g=0,1,2,+1", 5, 5, 4),
    Case(b"g=0,1,2,--1", 5, 5, 4),
    Case(b"g=0,1,2,-", 5, 5, 4),
    Case(b"g=0,1,2,-01", 5, 5, 4),
    Case(b"g=0,-1,2,3", 5, 5, 2),
    Case(b"g=0,16,0,0", 6, 5, 2),
    Case(b"g=0,0,16,0", 6, 5, 3),
    Case(b"g=0,0,0,10001", 6, 5, 4),
    Case(b"g=0,0,0,-10001", 6, 5, 4),
    Case(b"f=0,1,0", 0, 0, 0),
    Case(b"f=3,0,0,1,2,3,4,5,30,31", 0, 0, 0),
    Case(b"f=0,1", 4, 5, 0),
    Case(b"f=0,1,0,1,2,3,4,5,6,7,8", 4, 5, 0),
    Case(b"f=0,-,0", 5, 5, 2),
    Case(b"f=0,2,0", 6, 5, 2),
    Case(b"f=0,1,32", 6, 5, 3),
    Case(b"f=0,1,3,3", 7, 5, 4),
    Case(b"x=0,1,0", 3, 5, 0),
    Case(b"F=0,1,0", 3, 5, 0),
    Case(b"ff=0,1,0", 3, 5, 0),
    Case(b"f:0,1,0", 3, 5, 0),
    Case(b"f", 3, 5, 0),
    Case(b"", 3, 5, 0),
    Case(b"rules=1", 3, 5, 0),
];

#[test]
fn texts(rt: HostRuntime) {
    for (i, case) in TEXTS.iter().enumerate() {
        assert_eq!(rt; (i, told(case.0, 96)), (i, (case.1, case.2, case.3)));
    }
}

// A ticket of three requests and this one rule line.
fn with_rule(heap: Global, line: &[u8]) -> Result<Vec<u8>, AllocError> {
    let mut text = Vec::new(heap);
    text.extend_from_slice(b"ticket=1\nrequests=3\nchecks=0\nrules=1\n")?;
    text.extend_from_slice(line)?;
    text.extend_from_slice(b"\nend=ticket\n")?;
    Ok(text)
}

#[test]
fn rule_lines(rt: HostRuntime) -> Result<(), Fail> {
    for (i, case) in RULE_LINES.iter().enumerate() {
        let text = with_rule(rt.alloc(), case.0)?;
        assert_eq!(rt;
            (i, told(text.as_slice(), 96)),
            (i, (case.1, case.2, case.3))
        );
    }
    Ok(())
}

#[test]
fn lists_of_many_lengths(rt: HostRuntime) {
    let text = b"ticket=1\nrequests=0\nchecks=0\nrules=2\nh=0,-\nh=0,-\nend=ticket\n";
    assert_eq!(rt; told(text, 2), (0, 0, 0));
    assert_eq!(rt; told(text, 97), (0, 0, 0));
    assert_eq!(rt; told(text, 1), (8, 4, 1));
    assert_eq!(rt; told(text, 0), (8, 4, 1));
    let cut_short = b"ticket=1\nrequests=0\nchecks=0\nrules=2\nx";
    assert_eq!(rt; told(cut_short, 1), (8, 4, 1));
    assert_eq!(rt; told(cut_short, 2), (2, 5, 0));
    let nothing = b"ticket=1\nrequests=0\nchecks=0\nrules=0\nend=ticket\n";
    assert_eq!(rt; told(nothing, 0), (0, 0, 0));
}

// A ticket of so many blank-headed rules, and filled up with so many bytes behind it.
fn long_ticket(
    heap: Global,
    header: &[u8],
    rules: usize,
    bytes: usize,
) -> Result<Vec<u8>, AllocError> {
    let mut text = Vec::new(heap);
    text.extend_from_slice(header)?;
    for _ in 0..rules {
        text.extend_from_slice(b"f=32,1,24,25,26,27,28,29,30,31\n")?;
    }
    text.extend_from_slice(b"end=ticket\n")?;
    text.resize(bytes.max(text.len()), b'x')?;
    Ok(text)
}

#[test]
fn lengths(rt: HostRuntime) -> Result<(), Fail> {
    let heap = rt.alloc();
    let full = long_ticket(
        heap,
        b"ticket=1\nrequests=32\nchecks=1000000\nrules=96\n",
        96,
        0,
    )?;
    assert_eq!(rt; told(full.as_slice(), 96), (0, 0, 0));
    assert_eq!(rt; told(full.as_slice(), 95), (8, 4, 1));
    let more = long_ticket(
        heap,
        b"ticket=1\nrequests=32\nchecks=1000000\nrules=97\n",
        97,
        0,
    )?;
    assert_eq!(rt; told(more.as_slice(), 97), (6, 4, 1));
    let just = long_ticket(
        heap,
        b"ticket=1\nrequests=32\nchecks=0\nrules=1\n",
        1,
        16_384,
    )?;
    assert_eq!(rt; just.len(), 16_384);
    assert_eq!(rt; told(just.as_slice(), 96), (9, 7, 0));
    let over = long_ticket(
        heap,
        b"ticket=1\nrequests=32\nchecks=0\nrules=1\n",
        1,
        16_385,
    )?;
    assert_eq!(rt; told(over.as_slice(), 96), (1, 0, 0));
    Ok(())
}

// What a list may hold before it is handed over.
fn stale() -> Rule {
    Rule::gap(7, 1, 2, 3)
}

#[test]
fn what_is_read(rt: HostRuntime) -> Result<(), Fail> {
    let mut list = [stale(); 5];
    let text =
        b"ticket=1\nrequests=3\nchecks=100\nrules=4\nh=0,-,0,31\nh=3,7\ng=1,2,15,-10000\nf=2,1,4,5\nend=ticket\n";
    let header = read(text, &mut list)?;
    assert_eq!(rt; (header.requests, header.checks, header.rules), (3, 100, 4));
    assert_eq!(rt;
        list[0],
        Rule::options(0, None, Mask::empty().with(0).with(31))
    );
    assert_eq!(rt; list[1], Rule::options(3, Some(7), Mask::empty()));
    assert_eq!(rt; list[2], Rule::gap(1, 2, 15, -10_000));
    assert_eq!(rt;
        list[3],
        Rule::faces(2, true, Mask::empty().with(5).with(4))
    );
    assert_eq!(rt; list[4], Rule::blank());
    Ok(())
}

#[test]
fn a_refusal_leaves_blanks(rt: HostRuntime) {
    let mut list = [stale(); 3];
    let text = b"ticket=1\nrequests=3\nchecks=100\nrules=2\nh=0,-,0,31\nh=4,7\nend=ticket\n";
    assert!(rt; read(text, &mut list).is_err());
    assert_eq!(rt; list[0], Rule::blank());
    assert_eq!(rt; list[1], Rule::blank());
    assert_eq!(rt; list[2], Rule::blank());
    let mut other = [stale(); 1];
    assert!(rt; read(b"", &mut other).is_err());
    assert_eq!(rt; other[0], Rule::blank());
}
