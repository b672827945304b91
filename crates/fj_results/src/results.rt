ghost use Rattle.std.specs.Prelude.{◌≡◌, IfErr, IfOk};
ghost use Rattle.fj_results.specs.Results.{IsRightFor, RefusesAnswer, RefusesOutcome, RefusesRun, refusal_of, result_in};

use fj_body::{Body, Outcome};
use fj_rules::{Refusal, Status};

/// Why an outcome has no result. Java throws: `ForkJoinTask.getException`.
#[derive(Clone, Copy, Debug, PartialEq)]
pub enum NoResult {
    /// The task failed with this code.
    Failed(u32),
    /// It was cancelled, or ended without a result.
    Missing,
}

impl NoResult {
    /// The refusal of a call that runs a body for its result alone: `LogFull` if the task failed with the number of that refusal, as a body
    /// does that found no room for an event; else `OutOfMemory`.
    pub fn refusal(self) -> Refusal
        ensures told { result ≡ refusal_of self }
        ensures run { RefusesRun result }
    {
        match self {
            NoResult::Failed(code) if code == Refusal::LogFull.number() => Refusal::LogFull,
            _ => Refusal::OutOfMemory,
        }
    }
}

/// The result in an outcome, beside the key for which it is right: what `ForkJoinTask.join` returns.
///
/// `Failed` if the task failed, `Missing` if it has no result otherwise.
pub fn result_in<B: Body>(outcome: Outcome<B>) -> Result<(B::Key, B::Out), NoResult>
    ensures value { result ≡ result_in outcome }
    ensures right { IfOk result (λ r. ∥ B.right r.0 r.1 ∥₁) }
{
    if let Status::Exceptional(code) = outcome.status() {
        return Err(NoResult::Failed(code));
    }
    match outcome.into_kept() {
        Some(kept) => Ok(kept.into_parts()),
        None => Err(NoResult::Missing),
    }
}

/// The result under this key, from what came of a body that was run for it: the answer of `run_alone`, or of a pool to which it was submitted.
/// A result under another key counts as none.
///
/// `LogFull` if the answer is that refusal, or the body failed with its number. `OutOfMemory` if there is no result under this key for any other
/// reason.
pub fn result_under<B: Body>(
    answer: Result<Outcome<B>, Refusal>,
    key: &B::Key,
) -> Result<B::Out, Refusal>
    ensures right { IfOk result (λ out. IsRightFor B.Key.eq B.right key.now out) }
    ensures refused { IfErr result (λ refusal. RefusesAnswer B.Key.eq key.now answer refusal) }
    ensures err { IfErr result RefusesRun }
{
    match answer {
        Ok(outcome) => result_of(outcome, key),
        Err(Refusal::LogFull) => Err(Refusal::LogFull),
        Err(_) => Err(Refusal::OutOfMemory),
    }
}

/// The result in an outcome, if it is under this key.
fn result_of<B: Body>(outcome: Outcome<B>, key: &B::Key) -> Result<B::Out, Refusal>
    ensures right { IfOk result (λ out. IsRightFor B.Key.eq B.right key.now out) }
    ensures refused { IfErr result (λ refusal. RefusesOutcome B.Key.eq key.now outcome refusal) }
    ensures err { IfErr result RefusesRun }
{
    match result_in(outcome) {
        Ok((kept_key, out)) => {
            if kept_key == *key {
                Ok(out)
            } else {
                Err(Refusal::OutOfMemory)
            }
        }
        Err(none) => Err(none.refusal()),
    }
}
