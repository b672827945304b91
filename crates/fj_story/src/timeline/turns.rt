//! What workers begin and end: bodies and completion actions.
use crate::stretch::{Ended, Stretch, Work};
use crate::task::{Fired, Taken};
use crate::timeline::Timeline;
use fj_rules::{How, Serial, WorkerId};
use std::alloc::AllocError;

impl Timeline {
    /// A worker begins this work. Answers the number of the stretch, or None at a worker that the pool does not have.
    fn begin(&mut self, w: usize, work: Work) -> Result<Option<usize>, AllocError> {
        let Some(worker) = self.workers.get(w).copied() else {
            return Ok(None);
        };
        let place = self.stretches.len();
        self.stretches.push(Stretch {
            worker: w,
            work,
            depth: worker.depth,
            outer: worker.top,
            begun: self.now,
            before: worker.last,
            ended: None,
        })?;
        if let Some(worker) = self.workers.get_mut(w) {
            worker.begin(self.now, place, work);
        }
        Ok(Some(place))
    }

    /// The stretch of this number ends.
    fn finish(&mut self, place: usize) {
        let Some(stretch) = self.stretches.get_mut(place) else {
            return;
        };
        if let Some(worker) = self.workers.get_mut(stretch.worker) {
            stretch.ended = Some(Ended {
                at: self.now,
                after: worker.last,
            });
            worker.end(self.now, place, stretch.work, stretch.outer);
        }
    }

    /// The task left its queue, taken by the worker.
    fn leave(&mut self, t: Serial, w: usize, stretch: Option<usize>) {
        let now = self.now;
        let Some(task) = self.tasks.get_mut(t.0 as usize) else {
            return;
        };
        let mut stolen_from = None;
        if stretch.is_some() {
            stolen_from = task.home().filter(|home| *home != w);
        }
        task.taken = Some(Taken {
            at: now,
            worker: w,
            stolen_from,
            stretch,
        });
        if let Some(owner) = &task.queue {
            self.queues.pop(owner);
        }
        if let Some(home) = stolen_from {
            self.steal(home, w);
        }
    }

    /// A worker took a task from the queue of another one to run it.
    fn steal(&mut self, home: usize, thief: usize) {
        if let Some(worker) = self.workers.get_mut(home) {
            worker.lost = worker.lost.saturating_add(1);
        }
        if let Some(worker) = self.workers.get_mut(thief) {
            worker.stole = worker.stole.saturating_add(1);
        }
    }

    /// The body of the task began at the worker.
    pub(crate) fn take(&mut self, t: Serial, w: WorkerId) -> Result<(), AllocError> {
        let w = w.0 as usize;
        let stretch = self.begin(w, Work::Body(t.0))?;
        self.leave(t, w, stretch);
        Ok(())
    }

    /// The worker took the task and did not run it.
    pub(crate) fn skip(&mut self, t: Serial, w: WorkerId) {
        self.leave(t, w.0 as usize, None);
    }

    /// The body of the task ended at the worker.
    pub(crate) fn end(&mut self, t: Serial, w: WorkerId) {
        let w = w.0 as usize;
        let now = self.now;
        let mut top = None;
        if let Some(worker) = self.workers.get(w) {
            top = worker.top;
        }
        if let Some(place) = top {
            self.finish(place);
        }
        self.just_ended = Some((now, t.0, w));
    }

    /// The worker that gets the completion action: where its body ended just before, otherwise where an action ended last.
    fn receiver(&self, c: Serial) -> Option<usize> {
        match self.just_ended {
            Some((at, t, w)) if t == c.0 && at.next() == self.now => Some(w),
            _ => self.last_worker,
        }
    }

    /// The completion action of the completer was handed out.
    pub(crate) fn fire(&mut self, c: Serial, how: &How) -> Result<(), AllocError> {
        let now = self.now;
        let mut stretch = None;
        if let Some(w) = self.receiver(c) {
            stretch = self.begin(w, Work::Hook(c.0))?;
        }
        if let Some(task) = self.known(c) {
            task.fired = Some(Fired {
                at: now,
                how: *how,
                stretch,
            });
        }
        Ok(())
    }

    /// The completion action of the completer ended.
    pub(crate) fn hooked(&mut self, c: Serial) {
        let mut hook = None;
        if let Some(task) = self.known(c) {
            if let Some(fired) = task.fired {
                hook = fired.stretch;
            }
        }
        self.last_worker = None;
        if let Some(place) = hook {
            self.finish(place);
            self.last_worker = self.stretches.get(place).map(|stretch| stretch.worker);
        }
    }
}
