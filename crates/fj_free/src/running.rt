ghost use Rattle.std.specs.Prelude.{◌≡◌, IfErr};
ghost use Rattle.fj_results.specs.Results.{result_in};
ghost use Rattle.fj_free.specs.Results.{out_in, IsTold};

use crate::free::Free;
use crate::turns::Turns;
use crate::unfinished::Unfinished;
use fj_run::{NoResult, Open, Outcome, Settings, result_in, run_alone};
use std::alloc::Global;
use std::sync::Wait;
use std::thread::Threads;

/// Runs a job to its end, in a pool of its own: a thread for each worker, and none that outlives the call. It follows `ForkJoinPool.invoke`.
///
/// `Refused` where the history is full, an allocation fails, or a thread cannot be started. `Failed` where the job failed, with its code;
/// `Missing` where it was cancelled, or ended without a result.
pub fn run_free<J: Turns + Send, R: Threads + Wait + Sync>(
    rt: &R,
    alloc: Global,
    settings: Settings,
    job: J,
) -> Result<J::Out, Unfinished>
where
    J::Out: Send,
    ensures err { IfErr result IsTold }
{
    match run_alone(rt, alloc, settings, Free::new(job), &Open) {
        Ok(outcome) => out_of(outcome),
        Err(refusal) => Err(Unfinished::Refused(refusal)),
    }
}

/// The result of a job, from its outcome.
///
/// `Failed` where it failed, with its code; `Missing` where it was cancelled, or ended without a result.
pub fn out_of<J: Turns>(outcome: Outcome<Free<J>>) -> Result<J::Out, Unfinished>
    ensures value { result ≡ out_in (result_in outcome) }
{
    match result_in(outcome) {
        Ok(((), out)) => Ok(out),
        Err(NoResult::Failed(code)) => Err(Unfinished::Failed(code)),
        Err(NoResult::Missing) => Err(Unfinished::Missing),
    }
}
