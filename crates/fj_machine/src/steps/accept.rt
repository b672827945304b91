//! Tasks are submitted, forked and made as triggers.
ghost use Rattle.std.specs.Prelude.{◌≡◌, Some, IfOk, option_map};
ghost use Rattle.fj_rules.specs.declared.step.Step.TheVariants.{Fork, Submit, Trigger};
ghost use Rattle.fj_rules.specs.Tasks.{parent_in};
ghost use Rattle.fj_rules.specs.Answers.{refusal_of};
ghost use Rattle.fj_machine.specs.Outcomes.{Checks, ChecksFirst, Makes, parent_refusals};

use crate::steps::refuse::{known, room_for, running_task, task_room};
use fj_ledger::Ledger;
use fj_rules::{Kind, Owner, Refusal, Said, SubId, SubmittedKind, WorkerId};
use fj_tree::Handle;

/// A submitter submits a task, to the new end of its queue: `ForkJoinPool.submit`.
pub fn submit(ledger: &mut Ledger, s: SubId, kind: &SubmittedKind) -> Result<Said, Refusal>
    ensures { Makes ledger.old (Submit s kind.now) result ledger.new }
{
    may_submit(ledger, s, kind)?;
    room_for(ledger, 1)?;
    Ok(Said::Task(ledger.accept(&Owner::Sub(s), &kind.to_kind(), None)))
}

/// Why a submission would be refused now, if it would be.
pub fn submit_refusal(ledger: &Ledger, s: SubId, kind: &SubmittedKind) -> Option<Refusal>
    ensures { result ≡ refusal_of ledger.now (Submit s kind.now) }
{
    if let Err(refusal) = may_submit(ledger, s, kind) {
        return Some(refusal);
    }
    room_for(ledger, 1).err()
}

/// The running task of a worker forks a task, to the new end of the worker's queue: `ForkJoinTask.fork`.
#[inline(always)]
pub fn fork(ledger: &mut Ledger, w: WorkerId, kind: &Kind) -> Result<Said, Refusal>
    ensures { Makes ledger.old (Fork w kind.now) result ledger.new }
{
    let parent = may_fork(ledger, w, kind)?;
    room_for(ledger, 1)?;
    Ok(Said::Task(ledger.accept(&Owner::Work(w), kind, parent)))
}

/// The running task of a worker makes a trigger: a completer without a parent that is never queued.
pub fn trigger(ledger: &mut Ledger, w: WorkerId, count: u32) -> Result<Said, Refusal>
    ensures { Makes ledger.old (Trigger w count) result ledger.new }
{
    may_trigger(ledger, w, count)?;
    room_for(ledger, 1)?;
    Ok(Said::Task(ledger.make_trigger(true, count)))
}

fn may_submit(ledger: &Ledger, s: SubId, kind: &SubmittedKind) -> Result<(), Refusal>
    ensures { Checks ledger.now (Submit s kind.now) result }
{
    if !ledger.has_submitter(s) {
        return Err(Refusal::NoSuch);
    }
    if ledger.is_shut() {
        return Err(Refusal::Closed);
    }
    task_room(ledger, kind.to_kind().count())
}

/// The parent of the task that a worker may fork.
#[inline(always)]
fn may_fork(ledger: &Ledger, w: WorkerId, kind: &Kind) -> Result<Option<Handle>, Refusal>
    ensures refusal { Checks ledger.now (Fork w kind.now) result }
    ensures named { IfOk result (λ parent. option_map (λ p. p.serial) parent ≡ parent_in (Some kind.now)) }
{
    running_task(ledger, w)?;
    let parent = parent_of(ledger, kind)?;
    if ledger.is_stopped() {
        return Err(Refusal::Closed);
    }
    task_room(ledger, kind.count())?;
    Ok(parent)
}

/// The parent in a kind, if there is one: a kept completer.
#[inline(always)]
fn parent_of(ledger: &Ledger, kind: &Kind) -> Result<Option<Handle>, Refusal>
    ensures refusal { ChecksFirst (parent_refusals ledger.now (parent_in (Some kind.now))) result }
    ensures named { IfOk result (λ parent. option_map (λ p. p.serial) parent ≡ parent_in (Some kind.now)) }
{
    let Some(parent) = kind.parent() else {
        return Ok(None);
    };
    let p = known(ledger, parent)?;
    if !ledger.record(p).kind.is_completer() {
        return Err(Refusal::NotCompleter);
    }
    Ok(Some(p))
}

fn may_trigger(ledger: &Ledger, w: WorkerId, count: u32) -> Result<(), Refusal>
    ensures { Checks ledger.now (Trigger w count) result }
{
    running_task(ledger, w)?;
    if ledger.is_stopped() {
        return Err(Refusal::Closed);
    }
    task_room(ledger, count)
}
