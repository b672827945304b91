//! Tasks are forgotten.
ghost use Rattle.std.specs.Prelude.{◌≡◌, ◌<◌, ◌∷◌, [], true, length};
ghost use Rattle.fj_rules.specs.declared.event.Event.TheVariants.{Rel};
ghost use Rattle.fj_rules.specs.Tasks.{is_kept};
ghost use Rattle.fj_rules.specs.Allowed.{Allowed, has_kept_child};
ghost use Rattle.fj_rules.specs.Pasts.{limit};
ghost use Rattle.fj_rules.specs.Runs.{grown};

use crate::ledger::Ledger;
use crate::ledger::hook::keep_status;
use fj_rules::Event;
use fj_tree::Handle;

impl Ledger {
    /// Whether a kept task names this one as its parent. Precondition: this one is kept.
    #[inline(always)]
    pub fn has_children(&self, t: Handle) -> bool
        requires kept { is_kept self.now.events t.serial ≡ true }
        ensures { result ≡ has_kept_child self.now.events t.serial }
    {
        let h = self.tree.renew(t).unwrap();
        self.tree.get(h).unwrap().children > 0
    }

    /// A task is released: the event `Rel`. If its completion action is in a hand, its status is kept there.
    ///
    /// Precondition: the event may follow the history, and there is room for it.
    #[inline(always)]
    pub fn release(&mut self, t: Handle)
        requires may { Allowed self.old.pool self.old.events (Rel t.serial) }
        requires fits { length self.old.events < limit self.old }
        ensures { self.new ≡ grown self.old (Rel t.serial ∷ []) }
    {
        let h = self.tree.renew(t).unwrap();
        let status = self.tree.get(h).unwrap().status;
        self.log.push(Event::Rel(t.serial));
        self.tree.release(h).unwrap();
        keep_status(self.hands.as_mut_slice(), t.serial, status);
    }
}
