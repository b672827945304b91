//! Why a step is refused.
ghost use Rattle.std.specs.Prelude.{◌≡◌, ◌∷◌, [], Some, IfOk};
ghost use Rattle.fj_rules.specs.Answers.{count_too_large, too_many_tasks, running, unknown_task};
ghost use Rattle.fj_rules.specs.Pasts.{limit};
ghost use Rattle.fj_ledger.specs.Holds.{IsLawful};
ghost use Rattle.fj_machine.specs.Outcomes.{ChecksFirst, FindsRoom, hand_refusals, running_refusals};

use fj_ledger::Ledger;
use fj_rules::{MAX_PENDING, Refusal, Serial, WorkerId};
use fj_tree::Handle;

/// Checks that there is such a worker, with no completion action in hand.
#[inline(always)]
pub fn free_worker(ledger: &Ledger, w: WorkerId) -> Result<(), Refusal>
    ensures refusal { ChecksFirst (hand_refusals ledger.now w) result }
    ensures lawful { IsLawful ledger.now.pool (limit ledger.now) ledger.now.events }
{
    if !ledger.has_worker(w) {
        return Err(Refusal::NoSuch);
    }
    if ledger.hook(w).is_some() {
        return Err(Refusal::NotIdle);
    }
    Ok(())
}

/// The running task of a worker that has no completion action in hand.
#[inline(always)]
pub fn running_task(ledger: &Ledger, w: WorkerId) -> Result<Serial, Refusal>
    ensures refusal { ChecksFirst (running_refusals ledger.now w) result }
    ensures running { IfOk result (λ t. running ledger.now.events w ≡ Some t) }
    ensures lawful { IsLawful ledger.now.pool (limit ledger.now) ledger.now.events }
{
    free_worker(ledger, w)?;
    match ledger.running(w) {
        Some(t) => Ok(t),
        None => Err(Refusal::NotRunning),
    }
}

/// Checks that one more task, with this pending count, is allowed.
#[inline(always)]
pub fn task_room(ledger: &Ledger, count: u32) -> Result<(), Refusal>
    requires lawful { IsLawful ledger.now.pool (limit ledger.now) ledger.now.events }
    ensures { ChecksFirst (count_too_large count ∷ too_many_tasks ledger.now.pool ledger.now.events ∷ []) result }
{
    if u64::from(count) > MAX_PENDING {
        return Err(Refusal::CountTooLarge);
    }
    if !ledger.has_task_room() {
        return Err(Refusal::TooManyTasks);
    }
    Ok(())
}

/// Checks that so many more events fit.
#[inline(always)]
pub fn room_for(ledger: &Ledger, events: u64) -> Result<(), Refusal>
    ensures room { FindsRoom ledger.now events result }
    ensures lawful { IsLawful ledger.now.pool (limit ledger.now) ledger.now.events }
{
    if !ledger.has_room(events) {
        return Err(Refusal::LogFull);
    }
    Ok(())
}

/// The kept task of a number.
#[inline(always)]
pub fn known(ledger: &Ledger, t: Serial) -> Result<Handle, Refusal>
    ensures refusal { ChecksFirst (unknown_task ledger.now.events t ∷ []) result }
    ensures number { IfOk result (λ h. h.serial ≡ t) }
    ensures lawful { IsLawful ledger.now.pool (limit ledger.now) ledger.now.events }
{
    match ledger.kept(t) {
        Some(h) => Ok(h),
        None => Err(Refusal::Unknown),
    }
}
