//! Pending counts change, and completers are fired and passed.
ghost use Rattle.std.specs.Prelude.{◌≡◌, ◌<◌, ◌∷◌, [], None, Some, true, length};
ghost use Rattle.fj_rules.specs.declared.event.Event.TheVariants.{Add, Dec, Fire, Pass};
ghost use Rattle.fj_rules.specs.Hooks.{hand};
ghost use Rattle.fj_rules.specs.Tasks.{is_kept, is_completer};
ghost use Rattle.fj_rules.specs.Allowed.{Allowed};
ghost use Rattle.fj_rules.specs.Pasts.{limit};
ghost use Rattle.fj_rules.specs.Runs.{grown};
ghost use Rattle.fj_rules.specs.Hooks.{goes_to};

use crate::ledger::Ledger;
use crate::ledger::close::close;
use crate::ledger::hook::Hook;
use fj_rules::{Event, How, WorkerId};
use fj_tree::Handle;

impl Ledger {
    /// Raises the pending count of a completer: the event `Add`.
    ///
    /// Precondition: the event may follow the history, and there is room for it.
    pub fn raise(&mut self, c: Handle, n: u32)
        requires may { Allowed self.old.pool self.old.events (Add c.serial n) }
        requires fits { length self.old.events < limit self.old }
        ensures { self.new ≡ grown self.old (Add c.serial n ∷ []) }
    {
        let h = self.tree.renew(c).unwrap();
        self.log.push(Event::Add(c.serial, n));
        self.tree.add(h, n).unwrap();
    }

    /// Lowers the pending count of a completer by one: the event `Dec`.
    ///
    /// Precondition: it is a kept completer, the event may follow the history, and there is room for it.
    pub fn count_down(&mut self, c: Handle)
        requires kept { is_kept self.old.events c.serial ≡ true }
        requires completer { is_completer self.old.events c.serial ≡ true }
        requires may { Allowed self.old.pool self.old.events (Dec c.serial) }
        requires fits { length self.old.events < limit self.old }
        ensures { self.new ≡ grown self.old (Dec c.serial ∷ []) }
    {
        let h = self.tree.renew(c).unwrap();
        self.log.push(Event::Dec(c.serial));
        self.tree.arrive(h);
    }

    /// Fires a completer: the event `Fire`. Its completion action goes into the hand of the worker.
    ///
    /// Precondition: it is a kept completer, the history gives its action to this worker, whose hand is free, the event may follow the
    /// history, and there is room for it.
    pub fn fire(&mut self, c: Handle, w: WorkerId, how: How)
        requires worker { w < self.old.pool.limits.workers }
        requires kept { is_kept self.old.events c.serial ≡ true }
        requires completer { is_completer self.old.events c.serial ≡ true }
        requires free { hand self.old.events w ≡ None }
        requires given { goes_to self.old.events c.serial ≡ Some w }
        requires may { Allowed self.old.pool self.old.events (Fire c.serial how) }
        requires fits { length self.old.events < limit self.old }
        ensures { self.new ≡ grown self.old (Fire c.serial how ∷ []) }
    {
        let h = self.tree.renew(c).unwrap();
        let parent = self.tree.get(h).unwrap().kind.parent();
        self.log.push(Event::Fire(c.serial, how));
        self.tree.fire(h);
        close(&mut self.tree, &mut self.open_tasks, &mut self.gone, h);
        self.hands[w.0 as usize] = Some(Hook {
            completer: c.serial,
            parent,
            how,
            released: None,
        });
    }

    /// Passes a completer, which is spent without its completion action: the event `Pass`.
    ///
    /// Precondition: it is a kept completer, the event may follow the history, and there is room for it.
    pub fn pass(&mut self, c: Handle)
        requires kept { is_kept self.old.events c.serial ≡ true }
        requires completer { is_completer self.old.events c.serial ≡ true }
        requires may { Allowed self.old.pool self.old.events (Pass c.serial) }
        requires fits { length self.old.events < limit self.old }
        ensures { self.new ≡ grown self.old (Pass c.serial ∷ []) }
    {
        let h = self.tree.renew(c).unwrap();
        self.log.push(Event::Pass(c.serial));
        self.tree.fire(h);
        close(&mut self.tree, &mut self.open_tasks, &mut self.gone, h);
    }
}
