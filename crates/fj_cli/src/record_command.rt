//! The command that runs a job and writes the history of the run.
ghost use Rattle.std.specs.Prelude.{◌≡◌, ◌<◌, ◌⊎◌, IfErr, IfOk, OnOk, is_some, true};
ghost use Rattle.fj_streams.specs.Calls.{HasFailed};
ghost use Rattle.fj_cli.specs.declared.job_commands.TheConstants.{MAX_BLOCKS};
ghost use Rattle.fj_cli.specs.Answers.{HasTooManyBlocks, blocks_of};
ghost use Rattle.fj_cli.specs.Statuses.{EndsRecord, EndsRun, WritesHistory};

use crate::job_commands::{TOO_MANY, blocks, limits_of, linear};
use crate::notes_file::{Watch, create_file};
use crate::refused::refused;
use crate::tree_command::told_of_fault;
use fj_arguments::{Job, RangeOptions, Workers};
use fj_commands::{told, told_of_error};
use fj_fold::{Nodes, read_tree, record_fold};
use fj_invoke::{Settings, record_job};
use fj_jobs::{BlockedRange, Query, RangeQuery};
use fj_record::{WriteFault, write_history};
use fj_rules::{Mode, Refusal};
use fj_run::{Machine, RecordedValue};
use fj_streams::{Sink, Source, flush_whole};
use std::alloc::Global;
use std::rt::{Clock, Files};
use std::sync::Wait;
use std::thread::Threads;

/// At most how many tasks a job over a range has: one for each block.
fn tasks_of(range: &BlockedRange) -> u64 {
    range.blocks().max(1)
}

/// Runs a job, writes the history of the run, and the times of its tasks to the file of this name, and answers the exit status.
pub fn run_record<H: Threads + Wait + Sync + Files + Clock, R: Source, W: Sink, E: Sink>(
    rt: &H,
    alloc: Global,
    job: Job,
    notes: Option<&str>,
    input: &mut R,
    out: &mut W,
    err: &mut E,
) -> u8
    ensures ends { EndsRecord job result (W.contents out.old) (W.contents out.new) }
    ensures failed { result ≡ 5 → HasFailed (R.calls input.old) (R.calls input.new) ⊎ (HasFailed (W.calls out.old) (W.calls out.new) ⊎ (is_some notes.entry ≡ true)) }
{
    let mut file = match create_file(rt, notes) {
        Ok(file) => file,
        Err(error) => return told_of_error(&error, err),
    };
    record_job_to(rt, alloc, job, &mut file, input, out, err)
}

/// The same with this file, if there is one.
fn record_job_to<H: Threads + Wait + Sync + Files + Clock, R: Source, W: Sink, E: Sink>(
    rt: &H,
    alloc: Global,
    job: Job,
    file: &mut Option<H::File>,
    input: &mut R,
    out: &mut W,
    err: &mut E,
) -> u8
    ensures ends { EndsRecord job result (W.contents out.old) (W.contents out.new) }
    ensures failed { result ≡ 5 → HasFailed (R.calls input.old) (R.calls input.new) ⊎ (HasFailed (W.calls out.old) (W.calls out.new) ⊎ (is_some file.old ≡ true)) }
{
    match query_of(job) {
        Ok((options, query)) => record_query(rt, alloc, options, query, file, out, err),
        Err(workers) => match read_tree(alloc, input) {
            Ok(nodes) => record_tree(rt, alloc, workers, &nodes, file, out, err),
            Err(fault) => told_of_fault(fault, err),
        },
    }
}

/// What a job asks of its range; of a tree, the number of workers.
fn query_of(job: Job) -> Result<(RangeOptions, Query), Workers>
    ensures { IfOk result (λ asked. MAX_BLOCKS < blocks_of asked.0 → HasTooManyBlocks job) }
{
    match job {
        Job::Sum(options) => Ok((options, Query::Sum)),
        Job::Min(options, function) => Ok((options, Query::Min(linear(function)))),
        Job::Find(options, function, want) => {
            Ok((options, Query::Find(linear(function), u64::from(want))))
        }
        Job::Tree(workers) => Err(workers),
    }
}

/// Answers a query over a range, writes the history of the run, and answers the exit status.
fn record_query<H: Threads + Wait + Sync + Files + Clock, W: Sink, E: Sink>(
    rt: &H,
    alloc: Global,
    options: RangeOptions,
    query: Query,
    file: &mut Option<H::File>,
    out: &mut W,
    err: &mut E,
) -> u8
    ensures ends { EndsRun result (W.contents out.old) (W.contents out.new) ⊎ ((result ≡ 2) × (MAX_BLOCKS < blocks_of options)) }
    ensures failed { result ≡ 5 → HasFailed (W.calls out.old) (W.calls out.new) ⊎ (is_some file.old ≡ true) }
{
    let Some(range) = blocks(options) else {
        return told(err, TOO_MANY, 2);
    };
    let watch = match Watch::new(alloc, rt, file.is_some(), tasks_of(&range)) {
        Ok(watch) => watch,
        Err(error) => return told_of_error(&error, err),
    };
    let settings = Settings::with_limits(limits_of(options.workers)).in_mode(Mode::Joining);
    let run = record_job(rt, alloc, settings, RangeQuery { range, query }, &watch);
    told_of_run(alloc, Mode::Joining, run, &watch, file, out, err)
}

/// Folds the tree, writes the history of the run, and answers the exit status.
fn record_tree<H: Threads + Wait + Sync + Files + Clock, W: Sink, E: Sink>(
    rt: &H,
    alloc: Global,
    workers: Workers,
    nodes: &Nodes,
    file: &mut Option<H::File>,
    out: &mut W,
    err: &mut E,
) -> u8
    ensures ends { EndsRun result (W.contents out.old) (W.contents out.new) }
    ensures failed { result ≡ 5 → HasFailed (W.calls out.old) (W.calls out.new) ⊎ (is_some file.old ≡ true) }
{
    let tasks = nodes.as_slice().len() as u64;
    let watch = match Watch::new(alloc, rt, file.is_some(), tasks) {
        Ok(watch) => watch,
        Err(error) => return told_of_error(&error, err),
    };
    let run = record_fold(rt, alloc, workers.count, nodes, &watch);
    told_of_run(alloc, Mode::Async, run, &watch, file, out, err)
}

/// Writes the history of a run that has a value, or why there is none, and answers the exit status. Precondition: the pool had this mode.
fn told_of_run<V: Drop, C: Clock, F: Sink, W: Sink, E: Sink>(
    alloc: Global,
    mode: Mode,
    run: Result<RecordedValue<V>, Refusal>,
    watch: &Watch<C>,
    file: &mut Option<F>,
    out: &mut W,
    err: &mut E,
) -> u8
    requires { IfOk run (λ r. mode ≡ r.machine.pool.mode) }
    ensures ends { EndsRun result (W.contents out.old) (W.contents out.new) }
    ensures failed { result ≡ 5 → HasFailed (W.calls out.old) (W.calls out.new) ⊎ (is_some file.old ≡ true) }
{
    match run {
        Ok(run) => {
            let status = told_of(alloc, mode, &run, watch, file, out, err);
            // An explicit drop is proved faster.
            drop(run);
            status
        }
        Err(refusal) => refused(refusal, err),
    }
}

/// The same with a run, which the caller keeps.
fn told_of<V: Drop, C: Clock, F: Sink, W: Sink, E: Sink>(
    alloc: Global,
    mode: Mode,
    run: &RecordedValue<V>,
    watch: &Watch<C>,
    file: &mut Option<F>,
    out: &mut W,
    err: &mut E,
) -> u8
    requires { mode ≡ run.now.machine.pool.mode }
    ensures ends { EndsRun result (W.contents out.old) (W.contents out.new) }
    ensures failed { result ≡ 5 → HasFailed (W.calls out.old) (W.calls out.new) ⊎ (is_some file.old ≡ true) }
{
    if let Err(refusal) = &run.value {
        return refused(*refusal, err);
    }
    // Nobody seals in a job.
    if run.machine.epoch() != 0 {
        return told(err, "the history was sealed\n", 3);
    }
    match write_run(alloc, mode, &run.machine, watch, file, out) {
        Ok(()) => 0,
        Err(WriteFault::Memory) => told(err, "out of memory\n", 4),
        Err(WriteFault::Write) => told(err, "write failed\n", 5),
    }
}

/// Writes the history of a machine, flushes it, and writes what was watched. Preconditions: it has this mode, and was never sealed.
fn write_run<C: Clock, F: Sink, W: Sink>(
    alloc: Global,
    mode: Mode,
    machine: &Machine,
    watch: &Watch<C>,
    file: &mut Option<F>,
    out: &mut W,
) -> Result<(), WriteFault>
    requires mode { mode ≡ machine.now.pool.mode }
    requires whole { machine.now.seals ≡ 0 }
    ensures ok { OnOk result (WritesHistory (W.contents out.old) (W.contents out.new)) }
    ensures failed { IfErr result (λ fault. fault ≡ WriteFault.Write → HasFailed (W.calls out.old) (W.calls out.new) ⊎ (is_some file.old ≡ true)) }
{
    if let Err(fault) = write_history(mode, machine, &[], alloc, out) {
        return Err(fault);
    }
    match flush_whole(out) {
        Ok(()) => watch.write(alloc, file),
        Err(_) => Err(WriteFault::Write),
    }
}
