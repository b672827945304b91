//! Workers take tasks from the queues.
ghost use Rattle.std.specs.Prelude.{◌≡◌, ◌<◌, ◌↔◌, IsTrue, IfOk};
ghost use Rattle.fj_rules.specs.Statuses.{status};
ghost use Rattle.fj_rules.specs.declared.place.Place.TheVariants.{Held};
ghost use Rattle.fj_rules.specs.declared.step.Step.TheVariants.{Help, Join, Poll};
ghost use Rattle.fj_rules.specs.Choices.{choice};
ghost use Rattle.fj_rules.specs.Allowed.{AllowedFrom};
ghost use Rattle.fj_rules.specs.Answers.{taking};
ghost use Rattle.fj_rules.specs.Pasts.{limit};
ghost use Rattle.fj_ledger.specs.Holds.{IsLawful};
ghost use Rattle.fj_machine.specs.Outcomes.{Checks, ChecksFirst, Makes, TakesChoice, idle_refusals, said_by};

use crate::steps::refuse::{free_worker, known, room_for, running_task};
use fj_ledger::Ledger;
use fj_rules::{Place, Refusal, Said, Serial, Status, WorkerId};

/// An idle worker takes its next task, if there is one.
#[inline(always)]
pub fn poll(ledger: &mut Ledger, w: WorkerId, r: u32) -> Result<Said, Refusal>
    ensures { Makes ledger.old (Poll w r) result ledger.new }
{
    idle_worker(ledger, w)?;
    take_choice(ledger, w, r)
}

/// The worker of a running task takes its next task, if there is one: one turn of `ForkJoinTask.helpQuiesce`.
pub fn help(ledger: &mut Ledger, w: WorkerId, r: u32) -> Result<Said, Refusal>
    ensures { Makes ledger.old (Help w r) result ledger.new }
{
    running_task(ledger, w)?;
    take_choice(ledger, w, r)
}

/// A running task gets the status of another one if that is done, and helps if it is not: one turn of `ForkJoinTask.join`.
#[inline(always)]
pub fn join(ledger: &mut Ledger, w: WorkerId, t: Serial, r: u32) -> Result<Said, Refusal>
    ensures { Makes ledger.old (Join w t r) result ledger.new }
{
    match joined(ledger, w, t)? {
        Status::Undone => take_choice(ledger, w, r),
        Status::Normal => Ok(Said::Normal),
        Status::Exceptional(code) => Ok(Said::Exceptional(code)),
        Status::Cancelled => Ok(Said::Cancelled),
    }
}

/// Checks that a worker can poll: it has no completion action in hand, and runs nothing.
#[inline(always)]
fn idle_worker(ledger: &Ledger, w: WorkerId) -> Result<(), Refusal>
    ensures refusal { ChecksFirst (idle_refusals ledger.now w) result }
    ensures lawful { IsLawful ledger.now.pool (limit ledger.now) ledger.now.events }
{
    free_worker(ledger, w)?;
    if ledger.running(w).is_some() {
        return Err(Refusal::NotIdle);
    }
    Ok(())
}

/// The status of the task that a running task joins.
#[inline(always)]
fn joined(ledger: &Ledger, w: WorkerId, t: Serial) -> Result<Status, Refusal>
    ensures refusal { Checks ledger.now (Join w t 0) result }
    ensures status { IfOk result (λ s. status ledger.now.events t ≡ s) }
    ensures lawful { IsLawful ledger.now.pool (limit ledger.now) ledger.now.events }
{
    running_task(ledger, w)?;
    let t = known(ledger, t)?;
    let record = ledger.record(t);
    if record.status.is_undone() && is_held(record.place, w) {
        return Err(Refusal::OwnStack);
    }
    Ok(record.status)
}

/// A worker takes its next task, if there is one and the history has room for the event.
#[inline(always)]
fn take_choice(ledger: &mut Ledger, w: WorkerId, r: u32) -> Result<Said, Refusal>
    requires worker { w < ledger.old.pool.limits.workers }
    requires lawful { IsLawful ledger.old.pool (limit ledger.old) ledger.old.events }
    requires may { AllowedFrom ledger.old.pool ledger.old.events (taking ledger.old.events w (choice ledger.old.pool ledger.old.events w r)) }
    ensures { TakesChoice ledger.old w r (said_by result) ledger.new }
{
    let Some(source) = ledger.chosen(w, r) else {
        return Ok(Said::None);
    };
    room_for(ledger, 1)?;
    Ok(ledger.take(w, source))
}

/// Whether a task at this place is held by the worker.
#[inline(always)]
fn is_held(place: Place, w: WorkerId) -> bool
    ensures { IsTrue result ↔ (place ≡ Held w) }
{
    match place {
        Place::Held(v) => v.0 == w.0,
        Place::Queued(_) | Place::Open | Place::Gone => false,
    }
}
