//! The program `fj`: scripts, histories and jobs on the command line.
//!
//! ```text
//! fj replay < SCRIPT           runs a script and writes its replies
//! fj test < SCRIPT             compares its replies with those behind its lines
//! fj explain < SCRIPT          writes it with its replies, and why nothing was done
//! fj upgrade < SCRIPT          writes it with names for its tasks
//! fj trace < SCRIPT            runs it and writes its history
//! fj check < HISTORY           tells whether it is a history
//! fj view --as VIEW < HISTORY  writes a table, counts, a path, a picture or a graph
//! fj sum OPTIONS               adds up a range of numbers by workers in threads
//! fj min OPTIONS               writes the least value of a function over a range
//! fj find OPTIONS              writes the first number of a range with a value
//! fj tree OPTIONS < TREE       writes the value of a tree
//! fj record JOB OPTIONS        runs one of these jobs and writes its history
//! ```
//!
//! It exits with one of these statuses:
//!
//! ```text
//! 0  the command was carried out, or help or the version was written
//! 1  check: a line may not stand there; test: a reply is another one
//! 2  a usage error
//! 3  a fault of the input, or a job that the pool refused
//! 4  out of memory
//! 5  a read or a write failed
//! ```
#![tactic(auto)]

use fj_cli::{Watched, fj, without_words};
use std::alloc::{AllocError, Global};
use std::io::BufWriter;
use std::process::ExitCode;
use std::rt::{Clock, Files};
use std::sync::Wait;
use std::thread::Threads;
use std::{env, io};

/// Runs the command that the arguments name, with a clock, files and threads, and exits with its status. Where the arguments cannot be
/// read, it says why.
fn main(rt: HostRuntime) -> ExitCode {
    let status = match run(&rt, &rt) {
        Ok(status) => status,
        Err(error) => without_words(&error, &mut rt.stderr()),
    };
    ExitCode::from(status)
}

/// An error comes only from the arguments or the output buffer. Only `main` gets a runtime that starts threads: it is `threads`.
fn run<H: Threads + Wait + Sync + Files + Clock>(rt: &HostRuntime, threads: &H) -> io::Result<u8> {
    let args: Vec<String> = env::args(rt)?.collect(rt.alloc())?;
    answer(rt, threads, args.as_slice())
}

/// The status after the command that these arguments ask for.
fn answer<H: Threads + Wait + Sync + Files + Clock>(
    rt: &HostRuntime,
    threads: &H,
    args: &[String],
) -> io::Result<u8> {
    let words = words_of(rt.alloc(), args)?;
    run_command(rt, threads, words.as_slice())
}

/// The same with the words of the command line.
fn run_command<H: Threads + Wait + Sync + Files + Clock>(
    rt: &HostRuntime,
    threads: &H,
    words: &[&str],
) -> io::Result<u8> {
    let out = BufWriter::new(rt.alloc(), io::writer(rt))?;
    Ok(fj(
        threads,
        rt.alloc(),
        words,
        &mut Watched::new(rt.reader()),
        &mut Watched::new(out),
        &mut Watched::new(rt.stderr()),
    ))
}

/// The name of the program, and all arguments but the first.
fn words_of<'a>(alloc: Global, args: &'a [String]) -> Result<Vec<&'a str>, AllocError> {
    let mut words = Vec::new(alloc);
    words.push("fj")?;
    for arg in args.iter().skip(1) {
        words.push(arg.as_str())?;
    }
    Ok(words)
}
