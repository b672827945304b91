ghost use Rattle.std.specs.Prelude.{◌≡◌, IfOk};
ghost use Rattle.fj_try.specs.Faults.{IfRefused};
ghost use Rattle.fj_results.specs.Results.{RefusesRun};

use crate::fault::Fault;
use crate::tried::Tried;
use crate::try_divide::TryDivide;
use crate::trying::Trying;
use fj_invoke::{Refusal, Settings, compute, invoke_lazily};
use std::alloc::Global;
use std::sync::Wait;
use std::thread::Threads;

/// Computes a job that may fail, by worker threads in a pool of its own, as `invoke_lazily` does one that cannot.
///
/// `Failed` with the first failure from the left: that of the leaf or the combination at which one thread would have stopped. What is right
/// of it is not begun, or ends after its present leaf. `Refused` with `LogFull` where the history is full, and with `OutOfMemory` where an
/// allocation of the pool fails or a thread cannot be started.
pub fn try_invoke<J: TryDivide + Send, R: Threads + Wait + Sync>(
    rt: &R,
    alloc: Global,
    settings: Settings,
    job: J,
) -> Result<J::Out, Fault<J::Error>>
where
    J::Key: Send,
    J::Out: Send,
    J::Error: Send,
    ensures ok { IfOk result (λ out. ∥ J.gives (J.key_of job) out ∥₁) }
    ensures err { IfRefused RefusesRun result }
{
    let key = job.key();
    match invoke_lazily(rt, alloc, settings, Trying { job, alloc }) {
        Ok(tried) => answer_of(tried, &key),
        Err(refusal) => Err(Fault::Refused(refusal)),
    }
}

/// The same on the calling thread, with a stack as deep as the job splits. `Failed` with the first failure. `Refused` with `OutOfMemory` where
/// the value is under another key than that of the job, as `combine` gives it.
pub fn try_compute<J: TryDivide>(alloc: Global, job: J) -> Result<J::Out, Fault<J::Error>>
    ensures ok { IfOk result (λ out. ∥ J.gives (J.key_of job) out ∥₁) }
    ensures err { IfRefused RefusesRun result }
    ensures memory { IfRefused (λ refusal. refusal ≡ Refusal.OutOfMemory) result }
{
    let key = job.key();
    answer_of(compute(Trying { job, alloc }), &key)
}

/// The value of a job, if it is under this key. A value under another key counts as none.
fn answer_of<J: TryDivide>(tried: Tried<J>, key: &J::Key) -> Result<J::Out, Fault<J::Error>>
    ensures ok { IfOk result (λ out. ∥ J.gives key.now out ∥₁) }
    ensures err { IfRefused RefusesRun result }
    ensures memory { IfRefused (λ refusal. refusal ≡ Refusal.OutOfMemory) result }
{
    match tried.into_end() {
        Ok((kept_key, out)) => {
            if kept_key == *key {
                Ok(out)
            } else {
                Err(Fault::Refused(Refusal::OutOfMemory))
            }
        }
        Err(error) => Err(Fault::Failed(error)),
    }
}
