ghost use Rattle.std.specs.Prelude.{◌≡◌, ◌++◌, IfOk, IfErr};
ghost use Rattle.fj_calls.specs.Cores.{AreParts};
ghost use Rattle.fj_rules.specs.Epochs.{IsPast};
ghost use Rattle.fj_results.specs.Results.{RefusesRun};

use fj_jobs::Divide;
use fj_recursive::Recursive;
use fj_rules::{Limits, Mode, Refusal};
use fj_run::{Record, Recorded, RecordedValue, Settings, Turnstile, record_alone};
use std::alloc::Global;
use std::sync::Wait;
use std::thread::Threads;

/// Computes a job by worker threads in a pool of its own: `ForkJoinPool.invoke`.
///
/// `start` is the scan word of worker 0; that of each further one is one more. The turnstile is called before the first turn of each body:
/// `Open` delays nobody.
///
/// `LogFull` where the history is full. `OutOfMemory` where an allocation fails, a thread cannot be started, or the job has no result for
/// any other reason.
pub fn invoke<J: Divide + Send, T: Turnstile + Sync, R: Threads + Wait + Sync>(
    rt: &R,
    alloc: Global,
    mode: Mode,
    limits: Limits,
    start: u32,
    job: J,
    turnstile: &T,
) -> Result<J::Out, Refusal>
where
    J::Key: Send,
    J::Out: Send,
    ensures ok { IfOk result (λ out. out ≡ J.value (J.key_of job)) }
    ensures err { IfErr result RefusesRun }
{
    let RecordedValue {
        value,
        machine,
        archive,
    } = record_job(rt, alloc, settings_of(mode, limits, start), job, turnstile)?;
    // Explicit drops are proved faster.
    drop(machine);
    drop(archive);
    value
}

/// The settings of a pool in this mode, with these limits and this scan word of worker 0.
fn settings_of(mode: Mode, limits: Limits, start: u32) -> Settings
    ensures pool { (result.mode ≡ mode) × (result.limits ≡ limits) }
    ensures start { result.start ≡ start }
{
    Settings::with_limits(limits)
        .in_mode(mode)
        .starting_at(start)
}

/// Computes a job as `invoke`, in a pool with these settings, and hands out the history of the run.
///
/// `OutOfMemory` where an allocation fails or a thread cannot be started before the job is submitted. The value is refused as by `invoke`.
pub fn record_job<J: Divide + Send, T: Turnstile + Sync, R: Threads + Wait + Sync>(
    rt: &R,
    alloc: Global,
    settings: Settings,
    job: J,
    turnstile: &T,
) -> Result<RecordedValue<J::Out>, Refusal>
where
    J::Key: Send,
    J::Out: Send,
    ensures ok { IfOk result (λ r. IfOk r.value (λ out. out ≡ J.value (J.key_of job))) }
    ensures refused { IfOk result (λ r. IfErr r.value RefusesRun) }
    ensures run { IfOk result (λ r. IsPast r.machine) }
    // The machine has the mode and the limits of the settings.
    ensures pool { IfOk result (λ r. r.machine.pool ≡ record { mode = settings.mode; limits = settings.limits }) }
    // The parts that were handed out, and then those of the archive, are the history up to the last seal.
    ensures history { IfOk result (λ r. AreParts (r.archive.handed ++ r.archive.kept) r.machine) }
    ensures err { IfErr result (λ refusal. refusal ≡ Refusal.OutOfMemory) }
{
    let key = job.key();
    let Ok(body) = Recursive::new(alloc, job) else {
        return Err(Refusal::OutOfMemory);
    };
    let Recorded { answer, record } = record_alone(rt, alloc, settings, body, turnstile)?;
    let Record {
        machine,
        archive,
        ..
    } = record;
    Ok(RecordedValue {
        value: Recursive::value_in(answer, key),
        machine,
        archive,
    })
}
