//! Takes: which task a worker may take, wherever its scan begins.
ghost use Rattle.std.specs.Prelude.{◌≡◌, ◌↔◌, ◌<◌, IsTrue, IsOk, IfOk, Some, true, false, MatchOption};
ghost use Rattle.fj_rules.specs.declared.event.Event.TheVariants.{Out, Skip};
ghost use Rattle.fj_rules.specs.declared.owner.Owner.{Owner as OwnerCase};
ghost use Rattle.fj_rules.specs.Lists.{is_in};
ghost use Rattle.fj_rules.specs.Statuses.{status};
ghost use Rattle.fj_rules.specs.Queues.{queue};
ghost use Rattle.fj_rules.specs.Allowed.{Allowed, MayTake};
ghost use Rattle.fj_rules.specs.Bounds.{queues_in, owner_at};
ghost use Rattle.fj_rules.specs.Choices.{choice};

use crate::objection::Objection;
use fj_ledger::Ledger;
use fj_rules::{Place, Serial, Status, WorkerId};

/// The number of the queue in which a task stands, and the status of the task. None if it stands in none.
pub fn queue_with(ledger: &Ledger, t: Serial) -> Option<(u32, Status)>
    ensures { MatchOption result ((o : OwnerCase) → is_in t (queue ledger.now.events o) ≡ false) (λ found. (found.0 < queues_in ledger.now.pool.limits) × (is_in t (queue ledger.now.events (owner_at ledger.now.pool.limits found.0)) ≡ true) × (status ledger.now.events t ≡ found.1)) }
{
    let Some(record) = ledger.find(t) else {
        return None;
    };
    let Place::Queued(owner) = record.place else {
        return None;
    };
    let Some(q) = ledger.limits().find_queue(owner) else {
        return None;
    };
    Some((q as u32, record.status))
}

/// Whether the worker's choice by this scan is the task. Precondition: there is such a worker.
fn chooses(ledger: &Ledger, w: WorkerId, r: u32, t: Serial) -> bool
    requires { w < ledger.now.pool.limits.workers }
    ensures { IsTrue result ↔ (choice ledger.now.pool ledger.now.events w r ≡ Some t) }
{
    match ledger.chosen(w, r) {
        None => false,
        Some(source) => ledger.task_at(source) == Some(t),
    }
}

/// A worker without a completion action in its hand may take this task, for some scan. Answers the status of the task.
fn may_take(ledger: &Ledger, t: Serial, w: WorkerId) -> Result<Status, Objection>
    ensures may { IsOk result ↔ MayTake ledger.now.pool ledger.now.events t w }
    ensures status { IfOk result (λ s. status ledger.now.events t ≡ s) }
{
    if !ledger.has_worker(w) {
        return Err(Objection::NoWorker(w.0));
    }
    if let Some(hook) = ledger.hook(w) {
        return Err(Objection::HookInHand(w.0, hook.completer.0));
    }
    let Some((q, status)) = queue_with(ledger, t) else {
        return Err(Objection::NotQueued(t.0));
    };
    // Where any scan chooses the task, one that begins at its queue does.
    if !chooses(ledger, w, q, t) {
        return Err(Objection::NotFirst(t.0, w.0));
    }
    Ok(status)
}

/// A take of an undone task, which is handed out.
pub fn may_hand_out(ledger: &Ledger, t: Serial, w: WorkerId) -> Result<(), Objection>
    ensures { IsOk result ↔ Allowed ledger.now.pool ledger.now.events (Out t w) }
{
    let status = may_take(ledger, t, w)?;
    if status.is_undone() {
        return Ok(());
    }
    Err(Objection::Done(t.0, status))
}

/// A take of a task that is done, which is skipped.
pub fn may_skip(ledger: &Ledger, t: Serial, w: WorkerId) -> Result<(), Objection>
    ensures { IsOk result ↔ Allowed ledger.now.pool ledger.now.events (Skip t w) }
{
    let status = may_take(ledger, t, w)?;
    if status.is_undone() {
        return Err(Objection::Undone(t.0));
    }
    Ok(())
}
