//! The pool is shut.
ghost use Rattle.std.specs.Prelude.{◌≡◌, ◌≤◌, ◌<◌, ◌+◌, ◌∷◌, [], ◌++◌, List, ℕ, length, vec_capacity, IsPermutation};
ghost use Rattle.std.specs.List.Sorted.{IsNonDecreasing};
ghost use Rattle.fj_rules.specs.declared.event.Event.TheVariants.{Close, Stop};
ghost use Rattle.fj_rules.specs.Allowed.{Allowed};
ghost use Rattle.fj_rules.specs.Pasts.{limit};
ghost use Rattle.fj_rules.specs.Runs.{grown};

use crate::ledger::Ledger;
use crate::ledger::hook::cancel_released;
use fj_queues::OpenTasks;
use fj_rules::{Event, Serial};

impl Ledger {
    /// Submissions are refused from now on: the event `Close`.
    ///
    /// Precondition: the event may follow the history, and there is room for it.
    pub fn close_pool(&mut self)
        requires may { Allowed self.old.pool self.old.events Close }
        requires fits { length self.old.events < limit self.old }
        ensures { self.new ≡ grown self.old (Close ∷ []) }
    {
        self.log.push(Event::Close);
    }

    /// Each undone task is cancelled, the open ones become gone, and no task is accepted from now on: the event `Stop`. Queues and stacks
    /// stay as they are.
    ///
    /// Precondition: the event may follow the history, and there is room for it.
    pub fn stop_pool(&mut self)
        requires may { Allowed self.old.pool self.old.events Stop }
        requires fits { length self.old.events < limit self.old }
        ensures { self.new ≡ grown self.old (Stop ∷ []) }
    {
        self.log.push(Event::Stop);
        self.tree.cancel_undone();
        self.tree.close_open();
        cancel_released(self.hands.as_mut_slice());
        move_sorted(&mut self.open_tasks, &mut self.gone);
    }
}

/// Moves all open tasks to the end of a list, by rising number, since one event moves them all.
fn move_sorted(from: &mut OpenTasks, to: &mut Vec<Serial>)
    requires room { length to.old.items + length from.old.list ≤ vec_capacity to.old }
    ensures moved { (sorted : List ℕ) × IsPermutation from.old.list sorted × IsNonDecreasing sorted × (to.new.items ≡ to.old.items ++ sorted) }
    ensures left { from.new.list ≡ [] }
    ensures from_room { from.new.room ≡ from.old.room }
    ensures to_room { vec_capacity to.new ≡ vec_capacity to.old }
{
    let before = to.len();
    append(to, from.as_slice());
    from.clear();
    // allocates nothing
    to.slice_mut(before..).sort_unstable_by_key(|t| t.0);
}

/// Puts all numbers at the end of a list.
fn append(to: &mut Vec<Serial>, more: &[Serial])
    requires room { length to.old.items + length more.now ≤ vec_capacity to.old }
    ensures items { to.new.items ≡ to.old.items ++ more.now }
    ensures room { vec_capacity to.new ≡ vec_capacity to.old }
{
    for t in more {
        to.push_reserved(*t);
    }
}
