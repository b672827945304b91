//! What each event adds to a timeline.
use crate::mark::{Mark, What};
use crate::task::{Fork, TaskStory};
use crate::timeline::Timeline;
use fj_history::Entry;
use fj_rules::{Event, Kind, Owner, Serial, Status};
use std::alloc::AllocError;

impl Timeline {
    /// Follows the next entry of a history. An error only if out of memory.
    pub fn tell(&mut self, entry: &Entry) -> Result<(), AllocError> {
        match entry {
            Entry::Event(event) => self.follow(event),
            Entry::Seal => self.mark(What::Sealed),
        }
    }

    /// Follows one more event.
    fn follow(&mut self, event: &Event) -> Result<(), AllocError> {
        self.now = self.now.next();
        match event {
            Event::Acc(t, owner, kind) => self.accept(*t, owner, kind),
            Event::Make(t, kind) => self.make(*t, kind),
            Event::Out(t, w) => self.take(*t, *w),
            Event::Fire(c, how) => self.fire(*c, how),
            Event::Close => self.mark(What::Closed),
            Event::Stop => self.stop(),
            _ => {
                self.change(event);
                Ok(())
            }
        }
    }

    /// Follows an event that allocates nothing.
    fn change(&mut self, event: &Event) {
        match event {
            Event::Skip(t, w) => self.skip(*t, *w),
            Event::End(t, w) => self.end(*t, *w),
            Event::Hooked(c) => self.hooked(*c),
            Event::Settle(t, status) => self.settle(*t, *status),
            _ => {}
        }
    }

    /// The task got this status.
    fn settle(&mut self, t: Serial, status: Status) {
        if let Some(task) = self.known(t) {
            task.status = status;
        }
    }

    /// The task, to be changed.
    pub(crate) fn known(&mut self, t: Serial) -> Option<&mut TaskStory> {
        self.tasks.get_mut(t.0 as usize)
    }

    /// Something happened to the whole pool.
    fn mark(&mut self, what: What) -> Result<(), AllocError> {
        self.marks.push(Mark { at: self.now, what })?;
        Ok(())
    }

    /// Whether this is the number of the next task.
    fn is_next(&self, t: Serial) -> bool {
        t.0 == self.tasks.len() as u64
    }

    /// The next task was accepted into this queue.
    fn accept(&mut self, t: Serial, owner: &Owner, kind: &Kind) -> Result<(), AllocError> {
        if !self.is_next(t) {
            return Ok(());
        }
        let forked = match owner {
            Owner::Work(w) => self.fork_at(w.0 as usize),
            Owner::Sub(_) => None,
        };
        self.tasks
            .push(TaskStory::accepted(self.now, kind, Some(*owner), forked))?;
        self.queues.push(owner, self.now);
        Ok(())
    }

    /// The body that forks at this worker.
    fn fork_at(&self, w: usize) -> Option<Fork> {
        let worker = self.workers.get(w)?;
        Some(Fork {
            stretch: worker.top?,
            after: worker.last,
        })
    }

    /// The next task was made, a trigger.
    fn make(&mut self, t: Serial, kind: &Kind) -> Result<(), AllocError> {
        if !self.is_next(t) {
            return Ok(());
        }
        self.tasks
            .push(TaskStory::accepted(self.now, kind, None, None))?;
        Ok(())
    }

    /// The pool was stopped: every undone task is cancelled.
    fn stop(&mut self) -> Result<(), AllocError> {
        self.mark(What::Stopped)?;
        for task in self.tasks.iter_mut() {
            if task.status.is_undone() {
                task.status = Status::Cancelled;
            }
        }
        Ok(())
    }
}
