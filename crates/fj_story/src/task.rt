use crate::moment::Moment;
use crate::stretch::Turn;
use fj_rules::{How, Kind, Owner, Status};

/// Which body forked a task.
#[derive(Clone, Copy, Debug)]
pub struct Fork {
    /// The stretch of the body.
    pub stretch: usize,
    /// The worker's last turn before.
    pub after: Option<Turn>,
}

/// How a task left its queue.
#[derive(Clone, Copy, Debug)]
pub struct Taken {
    pub at: Moment,
    pub worker: usize,
    /// The worker from whose queue it was stolen to be run.
    pub stolen_from: Option<usize>,
    /// The stretch of its body. None where it was skipped.
    pub stretch: Option<usize>,
}

/// The completion action of a completer.
#[derive(Clone, Copy, Debug)]
pub struct Fired {
    pub at: Moment,
    pub how: How,
    /// The stretch in which it ran.
    pub stretch: Option<usize>,
}

/// What a history says of a task.
#[derive(Drop)]
pub struct TaskStory {
    pub kind: Kind,
    /// Into whose queue it was accepted. None for a trigger.
    pub queue: Option<Owner>,
    pub accepted: Moment,
    pub forked: Option<Fork>,
    pub taken: Option<Taken>,
    pub fired: Option<Fired>,
    pub status: Status,
}

impl TaskStory {
    /// A task that is accepted now.
    pub(crate) fn accepted(
        at: Moment,
        kind: &Kind,
        queue: Option<Owner>,
        forked: Option<Fork>,
    ) -> TaskStory {
        TaskStory {
            kind: *kind,
            queue,
            accepted: at,
            forked,
            taken: None,
            fired: None,
            status: Status::Undone,
        }
    }

    /// The worker from whose queue another one took it to run it.
    pub fn stolen_from(&self) -> Option<usize> {
        self.taken?.stolen_from
    }

    /// Whether a worker ran it that took it from the queue of another one.
    pub fn is_stolen(&self) -> bool {
        self.stolen_from().is_some()
    }

    /// Whether a worker took it and did not run it.
    pub fn is_skipped(&self) -> bool {
        match self.taken {
            Some(taken) => taken.stretch.is_none(),
            None => false,
        }
    }

    /// The stretch of its body, if that has begun.
    pub fn stretch(&self) -> Option<usize> {
        self.taken?.stretch
    }

    /// The worker in whose queue it was, if it was in one's.
    pub fn home(&self) -> Option<usize> {
        match &self.queue {
            Some(Owner::Work(w)) => Some(w.0 as usize),
            Some(Owner::Sub(_)) | None => None,
        }
    }

    /// `plain`, `completer` or `trigger`.
    pub fn kind_word(&self) -> &'static str {
        if !self.kind.is_completer() {
            "plain"
        } else if self.queue.is_none() {
            "trigger"
        } else {
            "completer"
        }
    }
}
