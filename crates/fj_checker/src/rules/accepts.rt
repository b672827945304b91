//! Acceptances. How many tasks were accepted so far is told beside the ledger.
ghost use Rattle.std.specs.Prelude.{◌≡◌, ◌↔◌, IsOk, IfSome, true, false};
ghost use Rattle.fj_rules.specs.declared.event.Event.TheVariants.{Acc, Make};
ghost use Rattle.fj_rules.specs.Bounds.{IsOwner};
ghost use Rattle.fj_rules.specs.Tasks.{accepted, is_kept, is_completer};
ghost use Rattle.fj_rules.specs.Allowed.{Allowed, MayAccept, is_shut};

use crate::objection::Objection;
use fj_ledger::Ledger;
use fj_rules::{Kind, MAX_PENDING, Owner, Serial};

/// The parent of a task, if it has one, is a kept completer.
fn may_be_parent(ledger: &Ledger, parent: Option<Serial>) -> Result<(), Objection>
    ensures { IsOk result ↔ IfSome parent (λ p. (is_kept ledger.now.events p ≡ true) × (is_completer ledger.now.events p ≡ true)) }
{
    let Some(p) = parent else {
        return Ok(());
    };
    let Some(record) = ledger.find(p) else {
        return Err(Objection::Released(p.0));
    };
    if !record.kind.is_completer() {
        return Err(Objection::Plain(p.0));
    }
    Ok(())
}

/// A task of this kind may be accepted under this number, where so many were accepted.
fn may_number(ledger: &Ledger, next: u64, t: Serial, kind: &Kind) -> Result<(), Objection>
    requires { next ≡ accepted ledger.now.events }
    ensures { IsOk result ↔ MayAccept ledger.now.pool ledger.now.events t kind.now }
{
    if t.0 != next {
        return Err(Objection::NextIs(next));
    }
    if !ledger.has_task_room() {
        return Err(Objection::TooManyTasks(ledger.limits().tasks()));
    }
    if u64::from(kind.count()) > MAX_PENDING {
        return Err(Objection::CountTooLarge);
    }
    may_be_parent(ledger, kind.parent())
}

/// There is such an owner of a queue.
fn may_own(ledger: &Ledger, owner: &Owner) -> Result<(), Objection>
    ensures { IsOk result ↔ IsOwner ledger.now.pool.limits owner.now }
{
    if ledger.limits().find_queue(*owner).is_some() {
        return Ok(());
    }
    match owner {
        Owner::Sub(s) => Err(Objection::NoSubmitter(s.0)),
        Owner::Work(w) => Err(Objection::NoWorker(w.0)),
    }
}

/// The queue takes more tasks: a submitter's before a shutdown or a stop, a worker's before a stop.
fn may_take_in(ledger: &Ledger, owner: &Owner) -> Result<(), Objection>
    ensures { IsOk result ↔ (is_shut ledger.now.events owner.now ≡ false) }
{
    match owner {
        Owner::Sub(_) => {
            if ledger.is_shut() {
                return Err(Objection::Closed);
            }
        }
        Owner::Work(_) => {
            if ledger.is_stopped() {
                return Err(Objection::Stopped);
            }
        }
    }
    Ok(())
}

/// A task may be accepted into the queue of this owner, where so many were accepted.
pub fn may_accept(
    ledger: &Ledger,
    next: u64,
    t: Serial,
    owner: &Owner,
    kind: &Kind,
) -> Result<(), Objection>
    requires { next ≡ accepted ledger.now.events }
    ensures { IsOk result ↔ Allowed ledger.now.pool ledger.now.events (Acc t owner.now kind.now) }
{
    may_number(ledger, next, t, kind)?;
    may_own(ledger, owner)?;
    may_take_in(ledger, owner)
}

/// A trigger may be made, where so many tasks were accepted.
pub fn may_make(ledger: &Ledger, next: u64, t: Serial, kind: &Kind) -> Result<(), Objection>
    requires { next ≡ accepted ledger.now.events }
    ensures { IsOk result ↔ Allowed ledger.now.pool ledger.now.events (Make t kind.now) }
{
    may_number(ledger, next, t, kind)?;
    if !kind.is_completer() {
        return Err(Objection::NoTrigger);
    }
    if kind.parent().is_some() {
        return Err(Objection::NoTrigger);
    }
    if ledger.is_stopped() {
        return Err(Objection::Stopped);
    }
    Ok(())
}
