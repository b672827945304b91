//! Bodies and completion actions end.
ghost use Rattle.std.specs.Prelude.{◌≡◌, ◌<◌, ◌&&◌, ◌∷◌, [], Some, length, not};
ghost use Rattle.fj_rules.specs.declared.event.Event.TheVariants.{End, Hooked};
ghost use Rattle.fj_rules.specs.Tasks.{is_completer_kind};
ghost use Rattle.fj_rules.specs.Hooks.{hand};
ghost use Rattle.fj_tree.specs.Arrivals.{is_spent};
ghost use Rattle.fj_rules.specs.Allowed.{Allowed};
ghost use Rattle.fj_rules.specs.Pasts.{limit};
ghost use Rattle.fj_rules.specs.Runs.{grown};

use crate::ledger::Ledger;
use fj_rules::{Event, Place, WorkerId};
use fj_tree::{Handle, Record};

impl Ledger {
    /// The body of a worker's running task ends: the event `End`. A completer that is not spent becomes open, any other task gone.
    ///
    /// Precondition: there is such a worker, the event may follow the history, and there is room for it.
    #[inline(always)]
    pub fn end_body(&mut self, t: Handle, w: WorkerId)
        requires worker { w < self.old.pool.limits.workers }
        requires may { Allowed self.old.pool self.old.events (End t.serial w) }
        requires fits { length self.old.events < limit self.old }
        ensures { self.new ≡ grown self.old (End t.serial w ∷ []) }
    {
        let h = self.tree.renew(t).unwrap();
        let stays = stays_open(self.tree.get(h).unwrap());
        self.log.push(Event::End(t.serial, w));
        self.stacks.take_last(w.0 as usize);
        if stays {
            self.tree.set_place(h, Place::Open);
            self.open_tasks.push(t.serial, h.key);
        } else {
            self.tree.set_place(h, Place::Gone);
            self.gone.push_reserved(t.serial);
        }
    }

    /// The completion action in a worker's hand ends: the event `Hooked`.
    ///
    /// Precondition: there is such a worker, that action is in its hand, and there is room for the event.
    pub fn end_hook(&mut self, c: Handle, w: WorkerId)
        requires worker { w < self.old.pool.limits.workers }
        requires hand { hand self.old.events w ≡ Some c.serial }
        requires fits { length self.old.events < limit self.old }
        ensures { self.new ≡ grown self.old (Hooked c.serial ∷ []) }
    {
        self.log.push(Event::Hooked(c.serial));
        self.hands[w.0 as usize] = None;
    }
}

/// Whether a task becomes open as its body ends: a completer that is not spent.
#[inline(always)]
fn stays_open(kept: &Record) -> bool
    ensures { result ≡ (is_completer_kind (Some kept.now.kind) && not (is_spent kept.now)) }
{
    kept.kind.is_completer() && !kept.is_spent()
}
