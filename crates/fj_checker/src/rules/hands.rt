//! Completion actions in hands.
ghost use Rattle.std.specs.Prelude.{◌≡◌, ◌↔◌, ◌<◌, ℕ, IsTrue, Some, MatchOption};
ghost use Rattle.fj_rules.specs.Hooks.{hand};
ghost use Rattle.fj_rules.specs.Pasts.{limit};
ghost use Rattle.fj_ledger.specs.Holds.{IsLawful};

use fj_ledger::Ledger;
use fj_rules::{Serial, WorkerId};

/// The worker in whose hand the completion action of a completer is. None if it is in no hand, and so may not end.
pub fn holder(ledger: &Ledger, c: Serial) -> Option<WorkerId>
    ensures { MatchOption result ((v : ℕ) → hand ledger.now.events v ≡ Some c → ⊥) (λ w. (w < ledger.now.pool.limits.workers) × (hand ledger.now.events w ≡ Some c)) }
{
    for w in 0..ledger.limits().workers() {
        if holds(ledger, WorkerId(w), c) {
            return Some(WorkerId(w));
        }
    }
    // For the proof: the history of a ledger is lawful.
    let _lawful = ledger.is_stopped();
    None
}

/// Whether it is in this worker's hand. Precondition: there is such a worker.
fn holds(ledger: &Ledger, w: WorkerId, c: Serial) -> bool
    requires { w < ledger.now.pool.limits.workers }
    ensures held { IsTrue result ↔ (hand ledger.now.events w ≡ Some c) }
    ensures lawful { IsLawful ledger.now.pool (limit ledger.now) ledger.now.events }
{
    match ledger.hook(w) {
        Some(hook) => hook.completer == c,
        None => false,
    }
}
