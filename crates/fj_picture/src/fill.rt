use fj_rules::{Owner, Status};
use fj_story::{Story, Stretch, TaskStory, Work};

/// Why a box has its colour.
#[derive(Clone, Copy, Debug, PartialEq)]
pub enum Fill {
    /// The body of a submitted task.
    Submitted,
    /// The body of a task from the worker's own queue.
    Own,
    /// The body of a task from another worker's queue.
    Stolen,
    /// A completion action.
    Hook,
    /// The body of a task that failed.
    Failed,
    /// The body of a task that was cancelled.
    Cancelled,
}

/// In the order of the legend.
pub static FILLS: [Fill; 6] = [
    Fill::Submitted,
    Fill::Own,
    Fill::Stolen,
    Fill::Hook,
    Fill::Failed,
    Fill::Cancelled,
];

impl Fill {
    /// Why the box of a stretch has its colour: how its task went, otherwise where it came from.
    pub fn of(story: &Story, stretch: &Stretch) -> Fill {
        let Work::Body(t) = stretch.work else {
            return Fill::Hook;
        };
        match story.task(t) {
            Some(task) => of_task(task),
            None => Fill::Own,
        }
    }

    /// Its colour.
    pub fn colour(self) -> &'static str {
        match self {
            Fill::Submitted => "#3f8f5f",
            Fill::Own => "#3b73b9",
            Fill::Stolen => "#d9770f",
            Fill::Hook => "#8a4fbf",
            Fill::Failed => "#c9343c",
            Fill::Cancelled => "#8b95a3",
        }
    }
}

/// The same of the body of a task.
fn of_task(task: &TaskStory) -> Fill {
    match &task.status {
        Status::Exceptional(_) => return Fill::Failed,
        Status::Cancelled => return Fill::Cancelled,
        Status::Undone | Status::Normal => {}
    }
    if task.is_stolen() {
        return Fill::Stolen;
    }
    match &task.queue {
        Some(Owner::Sub(_)) => Fill::Submitted,
        Some(Owner::Work(_)) | None => Fill::Own,
    }
}
