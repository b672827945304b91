//! A task is taken from its queue.
ghost use Rattle.std.specs.Prelude.{◌≡◌, ◌<◌, None, MatchOption, length};
ghost use Rattle.fj_rules.specs.Bounds.{queues_in};
ghost use Rattle.fj_rules.specs.Choices.{choice};
ghost use Rattle.fj_rules.specs.Allowed.{AllowedFrom};
ghost use Rattle.fj_rules.specs.Answers.{taking, taking_says};
ghost use Rattle.fj_rules.specs.Pasts.{limit};
ghost use Rattle.fj_rules.specs.Runs.{grown};
ghost use Rattle.fj_ledger.specs.Sources.{IsChosenFrom, queue_of, task_at, tasks_there};

use crate::ledger::Ledger;
use crate::queue_end::{QueueEnd, take_from};
use fj_rules::{Event, Mode, Owner, Place, Said, Serial, WorkerId};

impl Ledger {
    /// Where the worker's next task is: at the mode's end of its own queue, or at the old end of the first queue with a task in the scan
    /// from `r`. None if all queues are empty. Precondition: there is such a worker.
    #[inline(always)]
    pub fn chosen(&self, w: WorkerId, r: u32) -> Option<QueueEnd>
        requires { w < self.now.pool.limits.workers }
        ensures { MatchOption result (choice self.now.pool self.now.events w r ≡ None) (IsChosenFrom self.now w r) }
    {
        let own = self.limits.queue_number(Owner::Work(w));
        if self.queues.len(own) > 0 {
            return match self.mode {
                Mode::Async => Some(QueueEnd::Oldest(own)),
                Mode::Joining => Some(QueueEnd::Newest(own)),
            };
        }
        match self.queues.first_from(r as usize) {
            None => None,
            Some(q) => Some(QueueEnd::Oldest(q)),
        }
    }

    /// The task there, which stays in its queue. None if the queue is empty. Precondition: there is such a queue.
    pub fn task_at(&self, source: QueueEnd) -> Option<Serial>
        requires { queue_of source < queues_in self.now.pool.limits }
        ensures { result ≡ task_at self.now source }
    {
        match source {
            QueueEnd::Oldest(q) => self.queues.oldest(q),
            QueueEnd::Newest(q) => self.queues.newest(q),
        }
    }

    /// Takes a queued task: it is handed out if it is undone (the event `Out`), otherwise skipped (the event `Skip`).
    ///
    /// Precondition: there is such a worker, a task is there, the event may follow the history, and there is room for it.
    #[inline(always)]
    pub fn take(&mut self, w: WorkerId, source: QueueEnd) -> Said
        requires worker { w < self.old.pool.limits.workers }
        requires fits { length self.old.events < limit self.old }
        requires queue { queue_of source < queues_in self.old.pool.limits }
        requires filled { 0 < length (tasks_there self.old source) }
        requires may { AllowedFrom self.old.pool self.old.events (taking self.old.events w (task_at self.old source)) }
        ensures said { result ≡ taking_says self.old.events (task_at self.old source) }
        ensures events { self.new ≡ grown self.old (taking self.old.events w (task_at self.old source)) }
    {
        let t = take_from(&mut self.queues, source);
        let h = self.tree.find(t).unwrap();
        if !self.tree.get(h).unwrap().status.is_undone() {
            self.log.push(Event::Skip(t, w));
            self.tree.set_place(h, Place::Gone);
            self.gone.push_reserved(t);
            return Said::Skip(t);
        }
        self.log.push(Event::Out(t, w));
        self.tree.set_place(h, Place::Held(w));
        self.stacks.push(w.0 as usize, t);
        Said::Run(t)
    }
}
