//! Where climbs without completion actions end.
ghost use Rattle.std.specs.Prelude.{◌≡◌, ◌^◌, ◌≤◌, ◌∷◌, [], ◌++◌, true};
ghost use Rattle.fj_rules.specs.declared.event.Event.TheVariants.{End};
ghost use Rattle.fj_rules.specs.Tasks.{is_completer};
ghost use Rattle.fj_rules.specs.Allowed.{Allowed};
ghost use Rattle.fj_ledger.specs.Climbing.{Climbs};

use crate::ledger::Ledger;
use fj_rules::WorkerId;
use fj_tree::{Handle, PassEnd};

impl Ledger {
    /// Where a climb from a running completer ends, once its body has ended.
    ///
    /// Precondition: the end of its body may follow the history.
    pub fn pass_look(&self, t: Handle, w: WorkerId) -> PassEnd
        requires may { Allowed self.now.pool self.now.events (End t.serial w) }
        requires completer { is_completer self.now.events t.serial ≡ true }
        ensures climbs { Climbs (self.now.events ++ End t.serial w ∷ []) t.serial result }
        ensures few { result.passed ≤ 2 ^ 63 }
    {
        // Only the precondition needs the worker.
        let _ = w;
        self.tree.pass_look(self.tree.renew(t).unwrap())
    }
}
