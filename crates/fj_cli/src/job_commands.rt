//! The commands that run a job over a range: each starts a pool of its own, and writes the value of its job.
ghost use Rattle.std.specs.Prelude.{◌≡◌, ◌<◌, ◌≤◌, IfNone, IfOk, IfSome, string_bytes};
ghost use Rattle.fj_rules.specs.declared.limits.TheConstants.{MAX_EVENTS, MAX_TASKS};
ghost use Rattle.fj_rules.specs.Bounds.{bounds};
ghost use Rattle.fj_streams.specs.Calls.{HasFailed};
ghost use Rattle.fj_cli.specs.declared.job_commands.TheConstants.{MAX_BLOCKS};
ghost use Rattle.fj_commands.specs.Answers.{number_line};
ghost use Rattle.fj_jobs.specs.Queries.{query_value};
ghost use Rattle.fj_cli.specs.Answers.{EndsRange, blocks_of, count_of, hit_line, hit_of, least_line, least_of, sum_of, value_line};

use crate::refused::refused;
use fj_arguments::{FunctionOptions, RangeOptions, Workers};
use fj_commands::{answered, told};
use fj_invoke::{Open, Settings, invoke, invoke_lazily};
use fj_jobs::{BlockedRange, LinearMod, Query, QueryValue, RangeQuery};
use fj_rules::{Limits, MAX_EVENTS, MAX_TASKS, Mode, Refusal};
use fj_streams::Sink;
use std::alloc::{AllocError, Global};
use std::sync::Wait;
use std::thread::Threads;

/// The most blocks of a job; more are a usage error, since the events of more tasks might not fit into a history.
pub const MAX_BLOCKS: u64 = 200_000;

/// The error where a job has more blocks.
pub const TOO_MANY: &str = "too many leaves\n";

/// Writes the sum of a range, and answers the exit status.
pub fn run_sum<H: Threads + Wait + Sync, W: Sink, E: Sink>(
    rt: &H,
    alloc: Global,
    options: RangeOptions,
    out: &mut W,
    err: &mut E,
) -> u8
    ensures ends { EndsRange options result (number_line (sum_of options)) (W.contents out.old) (W.contents out.new) }
    ensures failed { result ≡ 5 → HasFailed (W.calls out.old) (W.calls out.new) }
{
    run_query(rt, alloc, options, Query::Sum, out, err)
}

/// Writes the least value of a function over a range with the first number that has it, `none` where the range is empty, and answers
/// the exit status.
pub fn run_min<H: Threads + Wait + Sync, W: Sink, E: Sink>(
    rt: &H,
    alloc: Global,
    options: RangeOptions,
    function: FunctionOptions,
    out: &mut W,
    err: &mut E,
) -> u8
    ensures ends { EndsRange options result (least_line (least_of options function)) (W.contents out.old) (W.contents out.new) }
    ensures failed { result ≡ 5 → HasFailed (W.calls out.old) (W.calls out.new) }
{
    run_query(rt, alloc, options, Query::Min(linear(function)), out, err)
}

/// Writes the first number of a range at which a function has a value, `none` where there is none, and answers the exit status.
pub fn run_find<H: Threads + Wait + Sync, W: Sink, E: Sink>(
    rt: &H,
    alloc: Global,
    options: RangeOptions,
    function: FunctionOptions,
    want: u32,
    out: &mut W,
    err: &mut E,
) -> u8
    ensures ends { EndsRange options result (hit_line (hit_of options function want)) (W.contents out.old) (W.contents out.new) }
    ensures failed { result ≡ 5 → HasFailed (W.calls out.old) (W.calls out.new) }
{
    let query = Query::Find(linear(function), u64::from(want));
    run_query(rt, alloc, options, query, out, err)
}

/// Writes the answer to a query over a range, and answers the exit status.
fn run_query<H: Threads + Wait + Sync, W: Sink, E: Sink>(
    rt: &H,
    alloc: Global,
    options: RangeOptions,
    query: Query,
    out: &mut W,
    err: &mut E,
) -> u8
    ensures ends { EndsRange options result (value_line (query_value query options.from (count_of options))) (W.contents out.old) (W.contents out.new) }
    ensures failed { result ≡ 5 → HasFailed (W.calls out.old) (W.calls out.new) }
{
    let Some(range) = blocks(options) else {
        return told(err, TOO_MANY, 2);
    };
    match value(rt, alloc, options, RangeQuery { range, query }) {
        Ok(value) => answered(line_of(alloc, value), out, err),
        Err(refusal) => refused(refusal, err),
    }
}

/// The line of an answer.
fn line_of(alloc: Global, value: QueryValue) -> Result<String, AllocError>
    ensures { IfOk result (λ line. string_bytes line ≡ value_line value) }
{
    match value {
        QueryValue::Total(number) | QueryValue::Hit(Some(number)) => {
            format!(in alloc; "{number}\n")
        }
        QueryValue::Least(Some((least, number))) => format!(in alloc; "{least} {number}\n"),
        QueryValue::Least(None) | QueryValue::Hit(None) => format!(in alloc; "none\n"),
    }
}

/// The range in blocks. None where they are more than [`MAX_BLOCKS`].
pub fn blocks(options: RangeOptions) -> Option<BlockedRange>
    ensures some { IfSome result (λ range. (range.numbers.from ≡ options.from) × (range.numbers.count ≡ count_of options) × (range.grain ≡ options.grain)) }
    ensures most { MAX_BLOCKS ≡ 200_000 }
    ensures few { IfSome result (λ range. blocks_of options ≤ MAX_BLOCKS) }
    ensures many { IfNone result (MAX_BLOCKS < blocks_of options) }
{
    let range = BlockedRange::new(options.from, options.to, options.grain);
    if range.blocks() > MAX_BLOCKS {
        return None;
    }
    Some(range)
}

/// The function of these options.
pub fn linear(function: FunctionOptions) -> LinearMod
    ensures { (result.mul ≡ function.mul) × (result.add ≡ function.add) × (result.modulus ≡ function.modulus) }
{
    LinearMod::new(function.mul, function.add, function.modulus)
}

/// The answer to a query, by the number of workers asked for.
fn value<H: Threads + Wait + Sync>(
    rt: &H,
    alloc: Global,
    options: RangeOptions,
    job: RangeQuery,
) -> Result<QueryValue, Refusal>
    ensures { IfOk result (λ out. out ≡ query_value job.query job.range.numbers.from job.range.numbers.count) }
{
    let limits = limits_of(options.workers);
    if options.eager {
        invoke(rt, alloc, Mode::Joining, limits, 0, job, &Open)
    } else {
        invoke_lazily(rt, alloc, Settings::with_limits(limits), job)
    }
}

/// The limits of a pool with so many workers, one submitter, and the largest limits of tasks and events.
pub fn limits_of(workers: Workers) -> Limits
    ensures { result ≡ bounds workers.count 1 MAX_TASKS MAX_EVENTS }
{
    let Ok(limits) = Limits::new(workers.count, 1, MAX_TASKS, MAX_EVENTS) else {
        unreachable!()
    };
    limits
}
