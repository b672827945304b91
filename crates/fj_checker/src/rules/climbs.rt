//! Additions to pending counts, and arrivals at completers.
ghost use Rattle.std.specs.Prelude.{◌≡◌, ◌↔◌, IsOk, true};
ghost use Rattle.fj_rules.specs.declared.event.Event.TheVariants.{Add, Dec, Pass, Fire};
ghost use Rattle.fj_rules.specs.declared.event.How.TheVariants.{Complete};
ghost use Rattle.fj_rules.specs.Tasks.{is_completer};
ghost use Rattle.fj_rules.specs.Allowed.{Allowed, newest, ends_task};

use crate::objection::Objection;
use fj_ledger::Ledger;
use fj_rules::{MAX_PENDING, Serial};
use fj_tree::Arrived;

/// An addition: to a kept completer, whose count stays within its bound.
pub fn may_add(ledger: &Ledger, c: Serial, n: u32) -> Result<(), Objection>
    ensures { IsOk result ↔ Allowed ledger.now.pool ledger.now.events (Add c n) }
{
    let Some(record) = ledger.find(c) else {
        return Err(Objection::Released(c.0));
    };
    if !record.kind.is_completer() {
        return Err(Objection::Plain(c.0));
    }
    if u64::from(record.pending) + u64::from(n) > MAX_PENDING {
        return Err(Objection::CountTooLarge);
    }
    Ok(())
}

/// What an arrival does that is not the expected one.
fn arrives(c: Serial, arrived: Arrived) -> Objection {
    match arrived {
        Arrived::Spent => Objection::Spent(c.0),
        Arrived::Counted => Objection::Counted(c.0),
        Arrived::Early => Objection::Early(c.0),
        Arrived::Fire => Objection::Fires(c.0),
    }
}

/// An arrival that is counted, at a completer.
pub fn may_count(ledger: &Ledger, c: Serial) -> Result<(), Objection>
    ensures { IsOk result ↔ (Allowed ledger.now.pool ledger.now.events (Dec c) × (is_completer ledger.now.events c ≡ true)) }
{
    let Some(record) = ledger.find(c) else {
        return Err(Objection::Released(c.0));
    };
    if !record.kind.is_completer() {
        return Err(Objection::Plain(c.0));
    }
    match record.arrival() {
        Arrived::Counted => Ok(()),
        other => Err(arrives(c, other)),
    }
}

/// An arrival that fires, at a completer, or passes it.
pub fn may_fire(ledger: &Ledger, c: Serial) -> Result<(), Objection>
    ensures { IsOk result ↔ (Allowed ledger.now.pool ledger.now.events (Pass c) × (is_completer ledger.now.events c ≡ true)) }
{
    let Some(record) = ledger.find(c) else {
        return Err(Objection::Released(c.0));
    };
    if !record.kind.is_completer() {
        return Err(Objection::Plain(c.0));
    }
    match record.arrival() {
        Arrived::Fire => Ok(()),
        other => Err(arrives(c, other)),
    }
}

/// A firing by the end of a body, if this is what has just ended.
pub fn may_complete(ledger: &Ledger, c: Serial, ended: bool) -> Result<(), Objection>
    requires { ended ≡ ends_task c (newest ledger.now.events) }
    ensures { IsOk result ↔ (Allowed ledger.now.pool ledger.now.events (Fire c Complete) × (is_completer ledger.now.events c ≡ true)) }
{
    let Some(record) = ledger.find(c) else {
        return Err(Objection::Released(c.0));
    };
    if !record.kind.is_completer() {
        return Err(Objection::Plain(c.0));
    }
    if record.is_spent() {
        return Err(Objection::Spent(c.0));
    }
    if !ended {
        return Err(Objection::NotJustEnded(c.0));
    }
    Ok(())
}
