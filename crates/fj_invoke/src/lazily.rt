ghost use Rattle.std.specs.Prelude.{◌≡◌, IfOk, IfErr};
ghost use Rattle.fj_results.specs.Results.{RefusesAnswer, RefusesRun};

use crate::idle::IdleWorkers;
use fj_body::Outcome;
use fj_jobs::Divide;
use fj_lazy::{Lazy, Signals};
use fj_rules::Refusal;
use fj_run::{Open, Settings, Turnstile, result_under, run_alone};
use std::alloc::Global;
use std::sync::Wait;
use std::thread::Threads;

/// The most events of one task.
const EVENTS_OF_A_TASK: u64 = 5;

/// How many events are reserved for what is no task.
const OTHER_EVENTS: u32 = 2;

/// How many halves may be forked in a history of so many events, besides the submitted task.
fn forks_in(events: u32) -> u64 {
    (u64::from(events.saturating_sub(OTHER_EVENTS)) / EVENTS_OF_A_TASK).saturating_sub(1)
}

/// Computes a job by worker threads in a pool of its own, as `invoke`, at any grain. A half is forked only where a worker is idle,
/// so a job of short leaves is about as fast as `compute` by one worker, and faster by more. The halves right of a final value are not
/// begun, and those that run there end after their present leaf.
///
/// `LogFull` where the history is full. `OutOfMemory` where an allocation fails, a thread cannot be started, or the job has no result for
/// any other reason.
pub fn invoke_lazily<J: Divide + Send, R: Threads + Wait + Sync>(
    rt: &R,
    alloc: Global,
    settings: Settings,
    job: J,
) -> Result<J::Out, Refusal>
where
    J::Key: Send,
    J::Out: Send,
    ensures ok { IfOk result (λ out. out ≡ J.value (J.key_of job)) }
    ensures err { IfErr result RefusesRun }
{
    invoke_lazily_observed(rt, alloc, settings, job, &Open)
}

/// The same, while a turnstile observes the workers.
pub fn invoke_lazily_observed<J: Divide + Send, T: Turnstile + Sync, R: Threads + Wait + Sync>(
    rt: &R,
    alloc: Global,
    settings: Settings,
    job: J,
    turnstile: &T,
) -> Result<J::Out, Refusal>
where
    J::Key: Send,
    J::Out: Send,
    ensures ok { IfOk result (λ out. out ≡ J.value (J.key_of job)) }
    ensures err { IfErr result RefusesRun }
{
    let key = job.key();
    let signals = Signals::new(forks_in(settings.limits().events()));
    let idle = IdleWorkers {
        signals: &signals,
        turnstile,
    };
    let Ok(body) = Lazy::new(alloc, job, &signals) else {
        return Err(Refusal::OutOfMemory);
    };
    value_in(run_alone(rt, alloc, settings, body, &idle), key)
}

/// The value of the jobs with this key, from what came of a lazy body of one: as `Recursive::value_in`.
fn value_in<J: Divide>(
    answer: Result<Outcome<Lazy<'_, J>>, Refusal>,
    key: J::Key,
) -> Result<J::Out, Refusal>
    ensures value { IfOk result (λ out. out ≡ J.value key) }
    ensures refused { IfErr result (λ refusal. RefusesAnswer J.Key.eq key answer.entry refusal) }
    ensures err { IfErr result RefusesRun }
{
    result_under(answer, &key)
}
