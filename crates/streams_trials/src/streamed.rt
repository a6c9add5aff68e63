// Tickets that come and answers that go in pieces, with errors in mid-stream.
use crate::readers::{Broken, Endless, Halting, OneByOne};
use crate::writers::{Narrow, Slow};
use std::alloc::Global;
use std::io::{ErrorKind, Read, Write};
use std::process::Abort;
use std::test::Fail;
use streams::{AnswerError, answer};

// A ticket, its report, and what its refusal tells.
#[derive(Clone, Copy)]
struct Case {
    ticket: &'static str,
    report: &'static str,
    refusal: Option<(u32, usize, usize)>,
}

const CASES: [Case; 4] = [
    Case {
        ticket: "ticket=1\nrequests=3\nchecks=100\nrules=5\n\
                 h=0,-,0,1\nh=0,-,1,2\nh=1,1\nh=2,0\nh=3,2\nend=ticket\n",
        report: "requests=3\nconflict=1,2\nconflict=1,3\nrelaxation=1\nrelaxation=2,3\n\
                 checks=10\nbound=21\nended=all\n",
        refusal: None,
    },
    Case {
        ticket: "ticket=1\nrequests=3\nchecks=9\nrules=5\n\
                 h=0,-,0,1\nh=0,-,1,2\nh=1,1\nh=2,0\nh=3,2\nend=ticket\n",
        report: "requests=3\nconflict=1,2\nconflict=1,3\nrelaxation=1\n\
                 checks=9\nbound=20\nended=spent,1\n",
        refusal: None,
    },
    Case {
        ticket: "ticket=1\nrequests=03\nchecks=100\nrules=0\nend=ticket\n",
        report: "refused=5,2,1\n",
        refusal: Some((5, 2, 1)),
    },
    Case {
        ticket: "",
        report: "refused=2,1,0\n",
        refusal: Some((2, 1, 0)),
    },
];

// What is written for a ticket, and the refusal that is told.
struct Outcome(Vec<u8>, Option<(u32, usize, usize)>);

fn sent<R: Read>(heap: Global, reader: &mut R) -> Result<Outcome, AnswerError> {
    let mut got = Vec::new(heap);
    let fault = answer(heap, reader, &mut got)?;
    Ok(Outcome(got, fault.map(|fault| fault.told())))
}

#[test]
fn read_in_one_piece(rt: HostRuntime) -> Result<(), Fail> {
    for case in &CASES {
        let mut text = case.ticket.as_bytes();
        let Outcome(got, refusal) = sent(rt.alloc(), &mut text)?;
        assert_eq!(rt; got.as_slice(), case.report.as_bytes());
        assert_eq!(rt; refusal, case.refusal);
    }
    Ok(())
}

#[test]
fn read_byte_by_byte(rt: HostRuntime) -> Result<(), Fail> {
    for case in &CASES {
        let text = case.ticket.as_bytes();
        let Outcome(got, refusal) = sent(rt.alloc(), &mut OneByOne { text })?;
        assert_eq!(rt; got.as_slice(), case.report.as_bytes());
        assert_eq!(rt; refusal, case.refusal);
    }
    Ok(())
}

#[test]
fn read_with_interruptions(rt: HostRuntime) -> Result<(), Fail> {
    for case in &CASES {
        let text = case.ticket.as_bytes();
        let Outcome(got, refusal) = sent(rt.alloc(), &mut Halting { text, halts: true })?;
        assert_eq!(rt; got.as_slice(), case.report.as_bytes());
        assert_eq!(rt; refusal, case.refusal);
    }
    Ok(())
}

// That it failed to read, with this error.
fn failed_to_read(error: &AnswerError, kind: ErrorKind) -> bool {
    match error {
        AnswerError::Reading(error) => error.kind() == kind,
        _ => false,
    }
}

fn failed_to_write(error: &AnswerError, kind: ErrorKind) -> bool {
    match error {
        AnswerError::Writing(error) => error.kind() == kind,
        _ => false,
    }
}

// The error comes out, wherever it comes, and nothing is written, though what was read so far may
// be a whole ticket.
#[test]
fn reading_fails_in_mid_stream(rt: HostRuntime) -> Result<(), Fail> {
    for case in &CASES {
        let text = case.ticket.as_bytes();
        for left in 0..text.len() + 1 {
            let mut got = Vec::new(rt.alloc());
            let result = answer(rt.alloc(), &mut Broken { text, left }, &mut got);
            let error = result.err().ok_or("no error")?;
            assert!(rt;
                failed_to_read(&error, ErrorKind::BrokenPipe),
                "after {left}"
            );
            assert!(rt; got.is_empty(), "after {left}");
        }
    }
    Ok(())
}

#[test]
fn a_reader_that_never_ends(rt: HostRuntime) -> Result<(), Fail> {
    let mut endless = Endless { taken: 0 };
    let Outcome(got, refusal) = sent(rt.alloc(), &mut endless)?;
    assert_eq!(rt; got.as_slice(), "refused=1,0,0\n".as_bytes());
    assert_eq!(rt; refusal, Some((1, 0, 0)));
    assert_eq!(rt; endless.taken, 16_385);
    Ok(())
}

// So many newlines are refused so.
fn refuses_newlines(rt: &impl Abort, heap: Global, count: usize, want: &str) -> Result<(), Fail> {
    let text = vec![in heap; b'\n'; count]?;
    let Outcome(got, _) = sent(heap, &mut text.as_slice())?;
    assert_eq!(rt; got.as_slice(), want.as_bytes(), "at {count}");
    let text = text.as_slice();
    let Outcome(got, _) = sent(heap, &mut OneByOne { text })?;
    assert_eq!(rt; got.as_slice(), want.as_bytes(), "at {count}");
    Ok(())
}

// The longest text is read to its end, and one byte more is too long.
#[test]
fn longest_and_one_byte_more(rt: HostRuntime) -> Result<(), Fail> {
    refuses_newlines(&rt, rt.alloc(), 16_384, "refused=3,1,0\n")?;
    refuses_newlines(&rt, rt.alloc(), 16_385, "refused=1,0,0\n")?;
    refuses_newlines(&rt, rt.alloc(), 20_000, "refused=1,0,0\n")
}

#[test]
fn written_three_bytes_at_a_time(rt: HostRuntime) -> Result<(), Fail> {
    for case in &CASES {
        let got = Vec::new(rt.alloc());
        let mut slow = Slow { got, halts: true };
        let fault = answer(rt.alloc(), &mut case.ticket.as_bytes(), &mut slow)?;
        assert_eq!(rt; slow.got.as_slice(), case.report.as_bytes());
        assert_eq!(rt; fault.map(|fault| fault.told()), case.refusal);
    }
    Ok(())
}

// A writer with less room than the answer needs: the error comes out, and what it has is a
// beginning.
fn written_in_part(rt: &impl Abort, heap: Global, case: Case, fails: bool) -> Result<(), Fail> {
    let kind = if fails {
        ErrorKind::StorageFull
    } else {
        ErrorKind::WriteZero
    };
    let report = case.report.as_bytes();
    for room in 0..report.len() {
        let got = Vec::new(heap);
        let mut narrow = Narrow { got, room, fails };
        let result = answer(heap, &mut case.ticket.as_bytes(), &mut narrow);
        let error = result.err().ok_or("no error")?;
        assert!(rt; failed_to_write(&error, kind), "with room for {room}");
        assert_eq!(rt;
            narrow.got.as_slice(),
            &report[..room],
            "with room for {room}"
        );
    }
    Ok(())
}

#[test]
fn writing_fails_in_mid_stream(rt: HostRuntime) -> Result<(), Fail> {
    for case in &CASES {
        written_in_part(&rt, rt.alloc(), *case, true)?;
        written_in_part(&rt, rt.alloc(), *case, false)?;
    }
    Ok(())
}

// With just the room that it needs, the answer is written.
#[test]
fn written_into_just_the_room(rt: HostRuntime) -> Result<(), Fail> {
    for case in &CASES {
        let (got, room) = (Vec::new(rt.alloc()), case.report.len());
        let mut narrow = Narrow {
            got,
            room,
            fails: true,
        };
        answer(rt.alloc(), &mut case.ticket.as_bytes(), &mut narrow)?;
        assert_eq!(rt; narrow.got.as_slice(), case.report.as_bytes());
    }
    Ok(())
}

// What each error says.
#[test]
fn errors_are_told(rt: HostRuntime) -> Result<(), Fail> {
    let mut got = Vec::new(rt.alloc());
    let text = b"ticket=1\n".as_slice();
    let result = answer(rt.alloc(), &mut Broken { text, left: 3 }, &mut got);
    let error = result.err().ok_or("no error")?;
    let told = format!(in rt.alloc(); "{error}")?;
    assert_eq!(rt; told.as_str(), "cannot read the ticket: broken pipe");
    let room = Vec::new(rt.alloc());
    let mut narrow = Narrow {
        got: room,
        room: 5,
        fails: true,
    };
    let result = answer(rt.alloc(), &mut b"ticket=1\n".as_slice(), &mut narrow);
    let error = result.err().ok_or("no error")?;
    let told = format!(in rt.alloc(); "{error}")?;
    assert_eq!(rt; told.as_str(), "cannot write the answer: no storage space");
    Ok(())
}
