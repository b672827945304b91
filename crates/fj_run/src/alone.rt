ghost use Rattle.std.specs.Prelude.{◌≡◌, ◌++◌, IfErr, IfOk};
ghost use Rattle.fj_calls.specs.Cores.{AreParts};
ghost use Rattle.fj_rules.specs.Epochs.{IsPast};
ghost use Rattle.fj_run.specs.Playing.{IsOutcomeOf};
ghost use Rattle.fj_results.specs.Results.{RefusesRun};
ghost use Rattle.fj_run.specs.Runs.{told_of};

use crate::play::Play;
use crate::playing::with_pool;
use crate::recorded::Recorded;
use crate::running::Running;
use crate::settings::Settings;
use fj_body::{Body, Outcome, Turnstile};
use fj_guarded::Naming;
use fj_rules::{Refusal, SubId};
use std::alloc::Global;
use std::sync::Wait;
use std::thread::Threads;

/// Submits one body, and awaits its outcome.
#[derive(Drop)]
struct Alone<B> {
    body: Option<B>,
}

impl<B: Body> Play<B> for Alone<B> {
    ghost use Rattle.std.specs.Prelude.{IfOk};
    ghost use Rattle.fj_run.specs.Playing.{SawOne};

    type Out = Result<Outcome<B>, Refusal>;

    ghost told = { λ last answer. IfOk answer (λ outcome. SawOne last outcome) };

    fn play<N: Naming, R: Wait>(
        &mut self,
        pool: &mut Running<'_, '_, B, N, R>,
    ) -> Result<Outcome<B>, Refusal> {
        let Some(body) = self.body.take() else {
            return Err(Refusal::Unknown);
        };
        match pool.submit(SubId(0), body) {
            Ok(ticket) => pool.await_done(ticket),
            Err((refusal, _)) => Err(refusal),
        }
    }
}

/// Runs a body to its outcome, in a pool of its own: one thread for each worker, none of which outlives the call. A result in the outcome
/// is right for the key beside it. It follows `ForkJoinPool.invoke`.
///
/// The pool has these settings, for one submission. The turnstile is called before the first turn of each body.
///
/// `LogFull` if the history is full. `OutOfMemory` if an allocation fails or a thread cannot be started: then the body is not run; or if its
/// outcome cannot be told, since it released its own task.
pub fn run_alone<B: Body + Send, T: Turnstile + Sync, R: Threads + Wait + Sync>(
    rt: &R,
    alloc: Global,
    settings: Settings,
    body: B,
    turnstile: &T,
) -> Result<Outcome<B>, Refusal>
where
    B::Key: Send,
    B::Out: Send,
    ensures { IfErr result RefusesRun }
{
    let recorded = record_alone(rt, alloc, settings, body, turnstile)?;
    drop(recorded.record);
    recorded.answer
}

/// Runs a body as [`run_alone`], and hands out what is left of the pool.
///
/// `OutOfMemory` if an allocation fails or a thread cannot be started before the body is submitted; then it is not run.
pub fn record_alone<B: Body + Send, T: Turnstile + Sync, R: Threads + Wait + Sync>(
    rt: &R,
    alloc: Global,
    settings: Settings,
    body: B,
    turnstile: &T,
) -> Result<Recorded<B>, Refusal>
where
    B::Key: Send,
    B::Out: Send,
    ensures run { IfOk result (λ r. IsPast r.record.machine) }
    // The machine has the mode and the limits of the settings.
    ensures pool { IfOk result (λ r. r.record.machine.pool ≡ record { mode = settings.mode; limits = settings.limits }) }
    // The parts that were handed out, and then those of the record, are the history up to the last seal.
    ensures history { IfOk result (λ r. AreParts (r.record.archive.handed ++ r.record.archive.kept) r.record.machine) }
    // The outcome is that of the one body that was admitted, by the history.
    ensures told { IfOk result (λ r. IfOk r.answer (λ outcome. IsOutcomeOf r.record outcome)) }
    ensures answer { IfOk result (λ r. IfErr r.answer RefusesRun) }
    ensures err { IfErr result (λ refusal. refusal ≡ Refusal.OutOfMemory) }
{
    let player = Alone { body: Some(body) };
    match with_pool(rt, alloc, settings.for_one(), player, turnstile) {
        Ok(played) => Ok(Recorded {
            record: played.record,
            answer: told(played.out),
        }),
        Err(_) => Err(Refusal::OutOfMemory),
    }
}

/// The answer of a run: `LogFull` stays, any other refusal becomes `OutOfMemory`.
fn told<B: Body>(answer: Result<Outcome<B>, Refusal>) -> Result<Outcome<B>, Refusal>
    ensures told { result ≡ told_of answer }
    ensures err { IfErr result RefusesRun }
{
    match answer {
        Ok(outcome) => Ok(outcome),
        Err(Refusal::LogFull) => Err(Refusal::LogFull),
        Err(_) => Err(Refusal::OutOfMemory),
    }
}
