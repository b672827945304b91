ghost use Rattle.std.specs.Prelude.{◌≡◌, ◌<◌, ◌≤◌, IfErr, IfOk, IfSome, OnOk, length, slice_get};
ghost use Rattle.ex_build.specs.Artifacts.{IsBuilt, IsRight};
ghost use Rattle.ex_build.specs.Faults.{IsTold};

use crate::artifact::Artifact;
use crate::fault::Fault;
use crate::make::Make;
use crate::target::Target;
use fj_run::{Limits, Open, Settings, result_in, run_alone};
use std::alloc::Global;
use std::sync::Wait;
use std::thread::Threads;

/// The most live tasks in the pool of a build.
const TASKS: u32 = 4_096;

/// The most events in its history.
const EVENTS: u32 = 65_536;

/// Builds target 0 of a plan with all that it needs, by so many worker threads.
///
/// A target that two others need is built twice: a completer has one parent, so a build is a tree. A plan in which a target needs itself
/// runs out of room.
///
/// `Failed` where some target fails. `Refused` where the number of workers is not from 1 to 32, an allocation of the pool fails, a thread
/// cannot be started, or the history is full. `NoTarget` where the plan is empty. `Lost` where an artifact is too large, or its list of
/// parts cannot be allocated.
pub fn build<R: Threads + Wait + Sync>(
    rt: &R,
    alloc: Global,
    workers: u32,
    plan: &[Target],
) -> Result<Artifact, Fault>
    ensures built { IfOk result (λ a. IfSome (slice_get plan.now 0) (λ t. ∥ IsBuilt t a ∥₁)) }
    ensures first { OnOk result (0 < length plan.now) }
    ensures workers { OnOk result ((1 ≤ workers) × (workers ≤ 32)) }
    ensures err { IfErr result (λ fault. IsTold (length plan.now) workers fault) }
{
    let Some(target) = plan.first() else {
        return Err(Fault::NoTarget);
    };
    let limits = match Limits::new(workers, 1, TASKS, EVENTS) {
        Ok(limits) => limits,
        Err(refusal) => return Err(Fault::Refused(refusal)),
    };
    let body = Make::new(alloc, plan, *target);
    let outcome = match run_alone(rt, alloc, Settings::with_limits(limits), body, &Open) {
        Ok(outcome) => outcome,
        Err(refusal) => return Err(Fault::Refused(refusal)),
    };
    match result_in(outcome) {
        Ok((key, artifact)) => artifact_under(target, key, artifact),
        Err(none) => Err(none.into()),
    }
}

/// The artifact of a result, if that is under this target. Precondition: it is right for its key.
fn artifact_under<'p>(
    target: &Target<'p>,
    key: Target<'p>,
    artifact: Option<Artifact>,
) -> Result<Artifact, Fault>
    requires { ∥ IsRight key artifact ∥₁ }
    ensures built { IfOk result (λ a. ∥ IsBuilt target.now a ∥₁) }
    ensures err { IfErr result (λ fault. fault ≡ Fault.Lost) }
{
    match artifact {
        Some(artifact) if key == *target => Ok(artifact),
        _ => Err(Fault::Lost),
    }
}
