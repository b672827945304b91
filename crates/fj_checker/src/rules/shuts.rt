//! Shutdowns, stops and releases.
ghost use Rattle.std.specs.Prelude.{◌↔◌, IsOk};
ghost use Rattle.fj_rules.specs.declared.event.Event.TheVariants.{Close, Stop, Rel};
ghost use Rattle.fj_rules.specs.Allowed.{Allowed};

use crate::objection::Objection;
use fj_ledger::Ledger;
use fj_rules::{Place, Serial};

/// A shutdown: neither a shutdown nor a stop came before.
pub fn may_close(ledger: &Ledger) -> Result<(), Objection>
    ensures { IsOk result ↔ Allowed ledger.now.pool ledger.now.events Close }
{
    if ledger.is_shut() {
        return Err(Objection::Closed);
    }
    Ok(())
}

/// A stop: none came before.
pub fn may_stop(ledger: &Ledger) -> Result<(), Objection>
    ensures { IsOk result ↔ Allowed ledger.now.pool ledger.now.events Stop }
{
    if ledger.is_stopped() {
        return Err(Objection::Stopped);
    }
    Ok(())
}

/// A release: of a kept task that is gone and that no kept task names as its parent.
pub fn may_release(ledger: &Ledger, t: Serial) -> Result<(), Objection>
    ensures { IsOk result ↔ Allowed ledger.now.pool ledger.now.events (Rel t) }
{
    let Some(record) = ledger.find(t) else {
        return Err(Objection::Released(t.0));
    };
    if !matches!(record.place, Place::Gone) {
        return Err(Objection::NotGone(t.0));
    }
    if ledger.has_children(ledger.named(t)) {
        return Err(Objection::HasChild(t.0));
    }
    Ok(())
}
