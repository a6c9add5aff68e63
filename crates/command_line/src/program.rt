// The program: it does what its command line asks for.
use crate::job::{Job, read_words};
use anyhow::Context;
use std::env::FillError;
use std::io::Read;
use std::process::ExitCode;
use std::rt::Env;
use std::{env, fs, io};
use streams::answer;

// Whether there is a word after the program's name.
fn has_words(rt: &impl Env) -> bool {
    !matches!(rt.arg(1, &mut []), Err(FillError::NotPresent))
}

// Answers the ticket of a reader on standard output.
fn answer_from<R: Read>(rt: &HostRuntime, reader: &mut R, explains: bool) -> anyhow::Result<()> {
    match answer(rt.alloc(), reader, &mut io::writer(rt))? {
        Some(fault) if explains => eprintln!(rt; "{fault}")?,
        _ => {}
    }
    Ok(())
}

// The same of a file, which is named where it cannot be read.
fn answer_file(rt: &HostRuntime, path: &str, explains: bool) -> anyhow::Result<()> {
    let heap = rt.alloc();
    let mut file = fs::open(rt, path).with_context(|| format!(in heap; "cannot open `{path}`"))?;
    answer_from(rt, &mut file, explains).with_context(|| format!(in heap; "ticket `{path}`"))
}

fn do_job(rt: &HostRuntime, job: Job<'_>) -> anyhow::Result<()> {
    match job.file {
        Some(path) => answer_file(rt, path, job.explains_refusal),
        None => answer_from(rt, &mut rt.stdin(), job.explains_refusal),
    }
}

// Does what the words ask for. Kept out of `explain`, which would have to clear its locals too.
#[inline(never)]
fn explain_words(rt: &HostRuntime) -> anyhow::Result<ExitCode> {
    let words = env::args(rt).context("the command line")?;
    let words: Vec<String> = words.collect(rt.alloc())?;
    match read_words(rt.alloc(), words.as_slice()) {
        Ok(job) => {
            do_job(rt, job)?;
            Ok(ExitCode::SUCCESS)
        }
        Err(error) => {
            error.print(rt)?;
            Ok(ExitCode::from(error.exit_code() as u8))
        }
    }
}

/// Answers the ticket of standard input, or of the file that the command line names. Help and the
/// version end with 0, and a command line that is not understood with 2. Fails where the ticket
/// cannot be read or its answer not be written, and for want of memory.
pub fn explain(rt: &HostRuntime) -> anyhow::Result<ExitCode> {
    // Most calls have no words, and these are dear to read.
    if has_words(rt) {
        return explain_words(rt);
    }
    answer_from(rt, &mut rt.stdin(), false)?;
    Ok(ExitCode::SUCCESS)
}
