ghost use Rattle.std.specs.Prelude.{◌≡◌, ◌≤◌, IfErr, IfOk, OnOk, Some};
ghost use Rattle.ex_pipeline.specs.Faults.{IsTold};
ghost use Rattle.ex_pipeline.specs.Stages.{IsRight, result_from};

use crate::fault::Fault;
use crate::flow::Flow;
use crate::item::Item;
use crate::stage::Stage;
use fj_run::{Limits, Open, Settings, result_in, run_alone};
use std::alloc::Global;
use std::sync::Wait;
use std::thread::Threads;

/// The tasks of a pool for one event: one for each stage.
const TASKS: u32 = 4;

/// The most events of their history.
const EVENTS: u32 = 64;

/// The alarm level of an event, by so many worker threads.
///
/// `Failed` with 1 to 4 where the stage of that number rejects it. `Refused` where the number of workers is not from 1 to 32, an allocation
/// fails, or a thread cannot be started. The other faults do not happen in a pool.
pub fn process<R: Threads + Wait + Sync>(
    rt: &R,
    alloc: Global,
    workers: u32,
    word: u32,
) -> Result<u32, Fault>
    ensures level { IfOk result (λ level. ∥ result_from Stage.Decode word ≡ Some level ∥₁) }
    ensures workers { OnOk result ((1 ≤ workers) × (workers ≤ 32)) }
    ensures err { IfErr result (λ fault. IsTold workers fault) }
{
    let item = Item {
        stage: Stage::Decode,
        value: word,
    };
    let limits = match Limits::new(workers, 1, TASKS, EVENTS) {
        Ok(limits) => limits,
        Err(refusal) => return Err(Fault::Refused(refusal)),
    };
    let settings = Settings::with_limits(limits);
    let outcome = match run_alone(rt, alloc, settings, Flow::new(item), &Open) {
        Ok(outcome) => outcome,
        Err(refusal) => return Err(Fault::Refused(refusal)),
    };
    match result_in(outcome) {
        Ok((key, level)) => level_under(item, key, level),
        Err(none) => Err(none.into()),
    }
}

/// The level in a result, if it is under this item. Precondition: it is right for its key.
fn level_under(item: Item, key: Item, level: Option<u32>) -> Result<u32, Fault>
    requires { ∥ IsRight key level ∥₁ }
    ensures level { IfOk result (λ v. ∥ result_from item.stage item.value ≡ Some v ∥₁) }
    ensures err { IfErr result (λ fault. fault ≡ Fault.Lost) }
{
    match level {
        Some(level) if key == item => Ok(level),
        _ => Err(Fault::Lost),
    }
}
