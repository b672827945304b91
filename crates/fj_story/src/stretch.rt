use crate::moment::Moment;

/// What a worker did from one event to another.
#[derive(Clone, Copy, Debug, PartialEq)]
pub enum Work {
    /// It ran the body of this task.
    Body(u64),
    /// It ran the completion action of this completer.
    Hook(u64),
}

impl Work {
    /// Whose body or action it was.
    pub fn task(self) -> u64 {
        match self {
            Work::Body(t) => t,
            Work::Hook(c) => c,
        }
    }

    /// Whether it was the body of a task.
    pub fn is_body(self) -> bool {
        match self {
            Work::Body(_) => true,
            Work::Hook(_) => false,
        }
    }
}

/// A worker began a stretch, or ended one.
#[derive(Clone, Copy, Debug)]
pub struct Turn {
    pub at: Moment,
    /// The number of the stretch.
    pub stretch: usize,
    pub is_end: bool,
}

/// A stretch of a worker's time: from `out` to `end`, or from `fire` to `hooked`.
#[derive(Clone, Copy, Debug)]
pub struct Stretch {
    pub worker: usize,
    pub work: Work,
    /// How many bodies lie below it on the worker's stack.
    pub depth: u64,
    /// The number of the stretch below it.
    pub outer: Option<usize>,
    pub begun: Moment,
    /// The worker's last turn before it began.
    pub before: Option<Turn>,
    /// The worker's last turn before it ended, and when that was. None while it goes on.
    pub ended: Option<Ended>,
}

/// How a stretch ended.
#[derive(Clone, Copy, Debug)]
pub struct Ended {
    pub at: Moment,
    /// The worker's last turn before: it began this stretch, or ended one inside it.
    pub after: Option<Turn>,
}
