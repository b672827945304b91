//! Statuses. What is known of the task is told beside the ledger, since a released task has no record there.
ghost use Rattle.std.specs.Prelude.{◌≡◌, ◌↔◌, ◌&&◌, IsOk, MatchOption, true, false};
ghost use Rattle.fj_rules.specs.declared.event.Event.TheVariants.{Settle};
ghost use Rattle.fj_rules.specs.declared.status.Status.TheVariants.{Normal};
ghost use Rattle.fj_rules.specs.Lists.{is_in};
ghost use Rattle.fj_rules.specs.Tasks.{tasks};
ghost use Rattle.fj_rules.specs.Allowed.{Allowed, MayBeNormal, newest, ends_task, ends_hook, is_fired_by_complete};
ghost use Rattle.fj_checker.specs.Remembered.{Knows};

use crate::known::Known;
use crate::objection::Objection;
use fj_ledger::Ledger;
use fj_rules::{Event, Serial, Status};

/// Whether this is the end of the body of the task.
pub fn is_end_of(event: &Option<Event>, t: Serial) -> bool
    ensures { result ≡ ends_task t event.now }
{
    match event {
        Some(event) => is_end(event, t),
        None => false,
    }
}

fn is_end(event: &Event, t: Serial) -> bool
    ensures { result ≡ ends_task t (Some event.now) }
{
    match event {
        Event::End(u, _) => *u == t,
        _ => false,
    }
}

/// Whether this is the end of the hook of the task.
fn is_hook_end_of(event: &Option<Event>, t: Serial) -> bool
    ensures { result ≡ ends_hook t event.now }
{
    match event {
        Some(event) => is_hook_end(event, t),
        None => false,
    }
}

fn is_hook_end(event: &Event, t: Serial) -> bool
    ensures { result ≡ ends_hook t (Some event.now) }
{
    match event {
        Event::Hooked(c) => *c == t,
        _ => false,
    }
}

/// Whether the task was fired by the end of its body, and its hook has just ended.
fn is_hooked(ledger: &Ledger, t: Serial, known: &Known, latest: &Option<Event>) -> bool
    requires known { Knows ledger.now.events t known.now }
    requires latest { latest.now ≡ newest ledger.now.events }
    ensures { result ≡ (is_fired_by_complete ledger.now.events t && ends_hook t (newest ledger.now.events)) }
{
    // Only the contract speaks of the ledger.
    let _ = ledger;
    known.completed && is_hook_end_of(latest, t)
}

/// An undone task may become normal.
fn may_be_normal(
    ledger: &Ledger,
    t: Serial,
    known: &Known,
    latest: &Option<Event>,
) -> Result<(), Objection>
    requires known { Knows ledger.now.events t known.now }
    requires latest { latest.now ≡ newest ledger.now.events }
    ensures { IsOk result ↔ MayBeNormal ledger.now.events t Normal }
{
    if is_hooked(ledger, t, known, latest) {
        return Ok(());
    }
    if known.kind.is_completer() {
        if known.kind.parent().is_some() {
            return Err(Objection::NotHooked(t.0));
        }
        return Ok(());
    }
    if is_end_of(latest, t) {
        return Ok(());
    }
    Err(Objection::PlainNotEnded)
}

/// An undone task may get this status.
pub fn may_settle(
    ledger: &Ledger,
    t: Serial,
    status: Status,
    known: Option<&Known>,
    latest: &Option<Event>,
) -> Result<(), Objection>
    requires known { MatchOption known (is_in t (tasks ledger.now.events) ≡ false) (λ k. (is_in t (tasks ledger.now.events) ≡ true) × Knows ledger.now.events t k.now) }
    requires latest { latest.now ≡ newest ledger.now.events }
    ensures { IsOk result ↔ Allowed ledger.now.pool ledger.now.events (Settle t status) }
{
    let Some(known) = known else {
        return Err(Objection::Unknown(t.0));
    };
    if let Some(now) = known.settled {
        return Err(Objection::Settled(t.0, now));
    }
    if ledger.is_stopped() {
        return Err(Objection::CancelledByStop(t.0));
    }
    match status {
        Status::Undone => Err(Objection::ToUndone),
        Status::Exceptional(_) | Status::Cancelled => Ok(()),
        Status::Normal => may_be_normal(ledger, t, known, latest),
    }
}
