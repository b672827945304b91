//! Tasks get their status.
ghost use Rattle.std.specs.Prelude.{◌≡◌, ◌<◌, ◌∷◌, [], length};
ghost use Rattle.fj_rules.specs.declared.event.Event.TheVariants.{Settle};
ghost use Rattle.fj_rules.specs.Allowed.{Allowed};
ghost use Rattle.fj_rules.specs.Pasts.{limit};
ghost use Rattle.fj_rules.specs.Runs.{grown};

use crate::ledger::Ledger;
use crate::ledger::close::close;
use crate::ledger::hook::keep_status;
use fj_rules::{Event, Status};
use fj_tree::Handle;

impl Ledger {
    /// An undone task gets its status: the event `Settle`. If the task is kept, its record has the status now. If it was released while
    /// its completion action is in a hand, the status is kept with the action.
    ///
    /// Precondition: the event may follow the history, and there is room for it.
    #[inline(always)]
    pub fn settle(&mut self, t: Handle, status: Status)
        requires may { Allowed self.old.pool self.old.events (Settle t.serial status) }
        requires fits { length self.old.events < limit self.old }
        ensures { self.new ≡ grown self.old (Settle t.serial status ∷ []) }
    {
        self.log.push(Event::Settle(t.serial, status));
        if let Some(h) = self.tree.renew(t) {
            self.tree.set_status(h, status);
            close(&mut self.tree, &mut self.open_tasks, &mut self.gone, h);
        } else {
            keep_status(self.hands.as_mut_slice(), t.serial, status);
        }
    }
}
