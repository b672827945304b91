ghost use Rattle.std.specs.Prelude.{◌≡◌, ◌≢◌, ◌⊎◌};
ghost use Rattle.clap.specs.Walk.{texts};
ghost use Rattle.clap.specs.Words.{kind_of};
ghost use Rattle.std.specs.IoError.{error_kind};
ghost use Rattle.fj_streams.specs.Calls.{HasFailed};
ghost use Rattle.fj_streams.specs.Tells.{seen};
ghost use Rattle.fj_arguments.specs.Commands.{IsForScript, TellsOfFault};
ghost use Rattle.fj_commands.specs.Failures.{FailsToCopy};
ghost use Rattle.fj_cli.specs.Failures.{FailsProgram, IsMisused, NamesFile};
ghost use Rattle.fj_cli.specs.Statuses.{EndsCommand, EndsCompute, EndsKnown, EndsProgram, StatusOfNoWords};

use crate::job_commands::{run_find, run_min, run_sum};
use crate::record_command::run_record;
use crate::tree_command::run_tree;
use clap::Error;
use clap::error::ErrorKind;
use fj_arguments::{Job, Subcommand, read};
use fj_commands::{
    answered, run_check, run_explain, run_replay, run_test, run_trace, run_upgrade, run_view, told,
};
use fj_streams::{Sink, Source, write_whole};
use std::alloc::{AllocError, Global};
use std::io;
use std::rt::{Clock, Files};
use std::sync::Wait;
use std::thread::Threads;

/// Runs a command, and answers the exit status. `words` are the arguments, the first being the program's name.
///
/// 0: it was run, or help or the version was asked for and written to `out`. 1: a line of a history may not stand there, or a line of a
/// script has another reply than the one behind it. 2: a usage error. 3: a fault of the input, or a job that
/// the pool refused. 4: out of memory. 5: a read or a write failed. From 2 on a text is sent to `err`, which may fail. `out` is
/// flushed after a command, and after help or the version; a failed flush gives 5. A file is opened only where an option names one.
pub fn fj<H: Threads + Wait + Sync + Files + Clock, R: Source, W: Sink, E: Sink>(
    rt: &H,
    alloc: Global,
    words: &[&str],
    input: &mut R,
    out: &mut W,
    err: &mut E,
) -> u8
    ensures status { (result ≡ 0) ⊎ ((result ≡ 1) ⊎ ((result ≡ 2) ⊎ ((result ≡ 3) ⊎ ((result ≡ 4) ⊎ (result ≡ 5))))) }
    // The arguments of a replay and of an upgrade run one, to its end where the status is 0.
    ensures known { IsForScript (texts words.entry.now) → result ≢ 2 }
    ensures done { EndsKnown (texts words.entry.now) result (R.remaining input.old) (R.remaining input.new) (W.contents out.old) (W.contents out.new) }
    // 5 only where a read, a write or a flush failed, 2 only for a usage error, for any arguments.
    ensures failed { result ≡ 5 → FailsProgram (texts words.entry.now) (seen R.remaining R.calls input.old input.new) (W.calls out.old) (W.calls out.new) (E.calls err.old) (E.calls err.new) }
    ensures misused { result ≡ 2 → IsMisused (texts words.entry.now) }
    // The meaning of the status, for any arguments.
    ensures ends { EndsProgram (texts words.entry.now) result (R.remaining input.old) (R.remaining input.new) (W.contents out.old) (W.contents out.new) }
{
    match read(alloc, words) {
        Ok(Some(asked)) => run(rt, alloc, asked, input, out, err),
        Ok(None) => told(err, "no such command\n", 2),
        Err(error) => without_command(alloc, &error, out, err),
    }
}

/// Runs the command that is asked for.
fn run<H: Threads + Wait + Sync + Files + Clock, R: Source, W: Sink, E: Sink>(
    rt: &H,
    alloc: Global,
    asked: Subcommand<'_>,
    input: &mut R,
    out: &mut W,
    err: &mut E,
) -> u8
    ensures ends { EndsCommand asked.entry result (R.remaining input.old) (R.remaining input.new) (W.contents out.old) (W.contents out.new) }
    ensures failed { result ≡ 5 → FailsToCopy (seen R.remaining R.calls input.old input.new) (W.calls out.old) (W.calls out.new) ⊎ NamesFile asked.entry }
{
    match asked {
        Subcommand::Replay => run_replay(alloc, input, out, err),
        Subcommand::Upgrade => run_upgrade(alloc, input, out, err),
        Subcommand::Compute(job) => compute(rt, alloc, job, input, out, err),
        Subcommand::Record(job, notes) => run_record(rt, alloc, job, notes, input, out, err),
        Subcommand::Check => run_check(alloc, input, out, err),
        Subcommand::Trace => run_trace(alloc, input, out, err),
        Subcommand::Test => run_test(alloc, input, out, err),
        Subcommand::Explain => run_explain(alloc, input, out, err),
        Subcommand::View(options) => run_view(rt, alloc, options, input, out, err),
    }
}

/// Runs a job, and writes its value.
fn compute<H: Threads + Wait + Sync, R: Source, W: Sink, E: Sink>(
    rt: &H,
    alloc: Global,
    job: Job,
    input: &mut R,
    out: &mut W,
    err: &mut E,
) -> u8
    ensures ends { EndsCompute job result (R.remaining input.old) (R.remaining input.new) (W.contents out.old) (W.contents out.new) }
    ensures failed { result ≡ 5 → HasFailed (R.calls input.old) (R.calls input.new) ⊎ HasFailed (W.calls out.old) (W.calls out.new) }
{
    match job {
        Job::Sum(options) => run_sum(rt, alloc, options, out, err),
        Job::Min(options, function) => run_min(rt, alloc, options, function, out, err),
        Job::Find(options, function, want) => {
            run_find(rt, alloc, options, function, want, out, err)
        }
        Job::Tree(workers) => run_tree(rt, alloc, workers, input, out, err),
    }
}

/// Writes why the arguments could not be read, and answers the exit status: 2 where one is not UTF-8, otherwise 4, as out of memory.
pub fn without_words<E: Sink>(error: &io::Error, err: &mut E) -> u8
    ensures { StatusOfNoWords (error_kind error.now) result }
{
    if error.kind() == io::ErrorKind::InvalidData {
        told(
            err,
            "error: invalid UTF-8 was detected in one or more arguments\n",
            2,
        )
    } else {
        told(err, "out of memory\n", 4)
    }
}

/// Writes why the arguments name no command, or the help or version that they ask for, and answers the exit status.
fn without_command<W: Sink, E: Sink>(alloc: Global, error: &Error, out: &mut W, err: &mut E) -> u8
    ensures status { (result ≡ 0) ⊎ ((result ≡ 2) ⊎ ((result ≡ 4) ⊎ (result ≡ 5))) }
    ensures out_of_memory { kind_of error.now ≡ ErrorKind.OutOfMemory → result ≡ 4 }
    ensures shown { result ≡ 0 → (kind_of error.now ≡ ErrorKind.DisplayHelp) ⊎ (kind_of error.now ≡ ErrorKind.DisplayVersion) }
    ensures words { result ≡ 2 → W.contents out.new ≡ W.contents out.old }
    ensures fault_of_words { result ≡ 2 → TellsOfFault (kind_of error.now) }
    ensures memory { result ≡ 4 → W.contents out.new ≡ W.contents out.old }
    ensures failed { result ≡ 5 → HasFailed (W.calls out.old) (W.calls out.new) ⊎ HasFailed (E.calls err.old) (E.calls err.new) }
{
    match error.kind() {
        ErrorKind::OutOfMemory => told(err, "out of memory\n", 4),
        ErrorKind::DisplayHelp | ErrorKind::DisplayVersion => {
            answered(format!(in alloc; "{error}"), out, err)
        }
        _ => misused(format!(in alloc; "{error}"), err),
    }
}

/// Writes the text of a usage error: 2 where it was written, 4 where out of memory for it, 5 where a write failed.
fn misused<E: Sink>(text: Result<String, AllocError>, err: &mut E) -> u8
    ensures status { (result ≡ 2) ⊎ ((result ≡ 4) ⊎ (result ≡ 5)) }
    ensures failed { result ≡ 5 → HasFailed (E.calls err.old) (E.calls err.new) }
{
    let Ok(text) = text else {
        return told(err, "out of memory\n", 4);
    };
    match write_whole(err, text.as_bytes()) {
        Ok(()) => 2,
        Err(_) => 5,
    }
}
