use fj_rules::{Owner, Serial};
use std::alloc::{AllocError, Global};
use std::mem;

/// A task after the events so far.
#[derive(Drop)]
struct Task {
    /// The queue that it is in.
    queue: Option<Owner>,
    /// Whether it is not released yet.
    is_live: bool,
}

/// The tasks that were accepted or made so far. Their serials rise by one each, so a serial gives the index.
#[derive(Drop)]
pub struct Tasks {
    /// The serial of the first one.
    first: u64,
    tasks: Vec<Task>,
    live: usize,
    /// The most of them that were live at once.
    pub most_live: usize,
}

impl Tasks {
    /// Before the first event.
    pub fn new(alloc: Global) -> Tasks {
        Tasks {
            first: 0,
            tasks: Vec::new(alloc),
            live: 0,
            most_live: 0,
        }
    }

    /// The task was accepted into this queue; or made, and is in none.
    pub fn accept(&mut self, t: Serial, queue: Option<Owner>) -> Result<(), AllocError> {
        if self.tasks.is_empty() {
            self.first = t.0;
        }
        self.tasks.push(Task {
            queue,
            is_live: true,
        })?;
        self.live = self.live.saturating_add(1);
        self.most_live = self.most_live.max(self.live);
        Ok(())
    }

    /// The task was taken. Answers out of which queue, if it was in one.
    pub fn take(&mut self, t: Serial) -> Option<Owner> {
        self.find(t)?.queue.take()
    }

    /// The task was released.
    pub fn release(&mut self, t: Serial) {
        if let Some(task) = self.find(t) {
            if mem::replace(&mut task.is_live, false) {
                self.live = self.live.saturating_sub(1);
            }
        }
    }

    /// The task. None where it was accepted before the first event, or never.
    fn find(&mut self, t: Serial) -> Option<&mut Task> {
        let place = t.0.checked_sub(self.first)?;
        self.tasks.get_mut(place as usize)
    }
}
