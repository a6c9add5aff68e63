// What the words of a command line ask for.
use clap::{Arg, ArgAction, Command, Error};
use std::alloc::Global;
use std::convert::AsStr;

const VERSION: &str = "1.0.0";

const ABOUT: &str = "Lists the conflicts and relaxations of a job ticket";

// The names of the two arguments.
const FILE: &str = "FILE";

const EXPLAIN_REFUSAL: &str = "explain-refusal";

/// Where the ticket is read from, and what is told besides its answer.
#[derive(Clone, Copy, PartialEq, Eq, Debug)]
pub(crate) struct Job<'a> {
    // The path of a file; none for standard input.
    pub(crate) file: Option<&'a str>,
    // Whether the meaning of a refusal is told too.
    pub(crate) explains_refusal: bool,
}

fn command<'a>(heap: Global) -> Result<Command<'a>, Error> {
    let file = Arg::new(heap, FILE).help("The ticket; without it, or with `-`, standard input");
    let explain_refusal = Arg::new(heap, EXPLAIN_REFUSAL)
        .long(EXPLAIN_REFUSAL)
        .action(ArgAction::SetTrue)
        .help("Say on standard error what a refusal means");
    let command = Command::new(heap, "explain")
        .version(VERSION)
        .about(ABOUT)
        .arg(file)?
        .arg(explain_refusal)?;
    Ok(command)
}

/// What the words ask for, of which the first is the program's name. Help and the version are
/// errors too, as words are that are not understood: each has its text and its status.
pub(crate) fn read_words<'a, S: AsStr>(heap: Global, words: &'a [S]) -> Result<Job<'a>, Error> {
    let matches = command(heap)?.try_get_matches_from(words)?;
    Ok(Job {
        file: matches.get_str(FILE).filter(|path| *path != "-"),
        explains_refusal: matches.get_flag(EXPLAIN_REFUSAL),
    })
}
