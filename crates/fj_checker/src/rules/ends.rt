//! Ends of bodies.
ghost use Rattle.std.specs.Prelude.{◌↔◌, IsOk};
ghost use Rattle.fj_rules.specs.declared.event.Event.TheVariants.{End};
ghost use Rattle.fj_rules.specs.Allowed.{Allowed};

use crate::objection::Objection;
use fj_ledger::Ledger;
use fj_rules::{Serial, WorkerId};

/// The end of a body: the task is the running one of the worker, whose hand is free.
pub fn may_end(ledger: &Ledger, t: Serial, w: WorkerId) -> Result<(), Objection>
    ensures { IsOk result ↔ Allowed ledger.now.pool ledger.now.events (End t w) }
{
    if !ledger.has_worker(w) {
        return Err(Objection::NoWorker(w.0));
    }
    if let Some(hook) = ledger.hook(w) {
        return Err(Objection::HookInHand(w.0, hook.completer.0));
    }
    let running = ledger.running(w);
    if running == Some(t) {
        return Ok(());
    }
    match running {
        Some(u) => Err(Objection::Runs(w.0, u.0)),
        None => Err(Objection::RunsNothing(w.0)),
    }
}
