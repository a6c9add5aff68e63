// What words ask for: help, the version, and what is not understood end the program at once.
use crate::job::read_words;
use std::alloc::Global;
use std::test::Fail;

// The status with which such words end the program; none where they ask for a ticket.
fn status(heap: Global, words: &[&str]) -> Option<i32> {
    match read_words(heap, words) {
        Ok(_) => None,
        Err(error) => Some(error.exit_code()),
    }
}

#[test]
fn words_that_end_it(rt: HostRuntime) -> Result<(), Fail> {
    for word in ["--help", "-h", "--version", "-V"] {
        assert_eq!(rt; status(rt.alloc(), &["explain", word]), Some(0));
    }
    assert_eq!(rt; status(rt.alloc(), &["explain", "--explain"]), Some(2));
    assert_eq!(rt;
        status(rt.alloc(), &["explain", "one.ticket", "two.ticket"]),
        Some(2)
    );
    assert_eq!(rt;
        status(rt.alloc(), &["explain", "-", "two.ticket"]),
        Some(2)
    );
    Ok(())
}

// What words ask for is this file, and to say what a refusal means, or not.
fn asks(heap: Global, words: &[&str], file: Option<&str>, explains_refusal: bool) -> bool {
    match read_words(heap, words) {
        Ok(job) => job.file == file && job.explains_refusal == explains_refusal,
        Err(_) => false,
    }
}

#[test]
fn words_that_ask_for_a_ticket(rt: HostRuntime) -> Result<(), Fail> {
    let heap = rt.alloc();
    let flag = "--explain-refusal";
    assert!(rt; asks(heap, &["explain"], None, false));
    assert!(rt; asks(heap, &["explain", "-"], None, false));
    assert!(rt; asks(heap, &["explain", flag], None, true));
    assert!(rt; asks(heap, &["explain", "a.ticket"], Some("a.ticket"), false));
    assert!(rt; asks(heap, &["explain", flag, "a.ticket"], Some("a.ticket"), true));
    assert!(rt; asks(heap, &["explain", "a.ticket", flag], Some("a.ticket"), true));
    assert!(rt; asks(heap, &["explain", "--", "--help"], Some("--help"), false));
    Ok(())
}
