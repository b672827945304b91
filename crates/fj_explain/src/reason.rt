use crate::tasks::{QueueOf, TaskName};
use fj_rules::{Place, Status, SubId, WorkerId};
use std::fmt::{self, Display, Formatter, Write};

/// Why nothing was done: who is in the way, and where.
#[derive(Clone, Copy)]
pub enum Reason<'a> {
    NoSubmitter(SubId, u32),
    NoWorker(WorkerId, u32),
    Worker(WorkerId, WorkerReason<'a>),
    Task(TaskName<'a>, TaskReason),
    /// The first task is a kept child of the second one.
    HasChild(TaskName<'a>, TaskName<'a>),
    Unnamed,
    NameTaken,
    Closed,
    Stopped,
    CountTooLarge,
    NoRoom(usize),
    Full(usize, u32),
    NothingQueued,
}

/// What is in the way at a worker.
#[derive(Clone, Copy)]
pub enum WorkerReason<'a> {
    /// It polls while it runs this task.
    Polls(TaskName<'a>),
    /// It has this action in its hand, so no step but `hook` is for it.
    HasHook(TaskName<'a>),
    /// The pool is not quiescent: it runs a task.
    Runs(TaskName<'a>),
    /// The same: it has this action in its hand.
    Acts(TaskName<'a>),
    RunsNothing,
    NoHook,
}

/// What is in the way at a task.
#[derive(Clone, Copy)]
pub enum TaskReason {
    /// The pool is not quiescent: it waits.
    Waits(QueueOf),
    NeverAccepted(u64),
    Released,
    IsCompleter,
    IsPlain,
    NoCompleter,
    NotGone(Place),
    /// It is on the stack of the worker that joins it.
    OnOwnStack(WorkerId),
    IsDone(Status),
    Fired,
    SpentAsReleased,
    Early(Place),
    NotRun(Status),
}

/// A place as the end of a sentence about a task.
#[derive(Clone, Copy)]
struct At(Place);

impl Display for At {
    fn fmt<W: Write>(&self, f: &mut Formatter<W>) -> fmt::Result {
        match self.0 {
            Place::Queued(owner) => write!(f, "waits in {}", QueueOf(owner)),
            Place::Held(w) => write!(f, "is held by worker {}", w.0),
            Place::Open => write!(f, "is open"),
            Place::Gone => write!(f, "is gone"),
        }
    }
}

impl Display for Reason<'_> {
    fn fmt<W: Write>(&self, f: &mut Formatter<W>) -> fmt::Result {
        match self {
            Reason::NoSubmitter(s, count) => write!(
                f,
                "there is no submitter {}: the heading has {count}, counted from 0",
                s.0
            ),
            Reason::NoWorker(w, count) => write!(
                f,
                "there is no worker {}: the heading has {count}, counted from 0",
                w.0
            ),
            Reason::Worker(w, reason) => reason.write(*w, f),
            Reason::Task(t, reason) => write!(f, "{t} {reason}"),
            Reason::HasChild(child, t) => {
                write!(f, "{child}, which is kept, has {t} as its parent")
            }
            Reason::Unnamed => f.write_str("the name belongs to no task"),
            Reason::NameTaken => f.write_str("the name belongs to a task already"),
            Reason::Closed => {
                f.write_str("a shutdown came before: nothing more is accepted from submitters")
            }
            Reason::Stopped => f.write_str("a stop came before: nothing more is accepted"),
            Reason::CountTooLarge => f.write_str("the pending count would be above 65535"),
            Reason::NoRoom(live) => write!(
                f,
                "{live} tasks are kept, as many as the heading allows: a release makes room"
            ),
            Reason::Full(events, most) => write!(
                f,
                "the history has {events} of at most {most} events, and those of this step do not fit"
            ),
            Reason::NothingQueued => f.write_str("all queues are empty"),
        }
    }
}

impl WorkerReason<'_> {
    /// A sentence about this worker.
    fn write<W: Write>(&self, w: WorkerId, f: &mut Formatter<W>) -> fmt::Result {
        write!(f, "worker {} ", w.0)?;
        match self {
            WorkerReason::Polls(t) => write!(
                f,
                "runs {t}, and only a worker that holds nothing polls: help is for a running task"
            ),
            WorkerReason::HasHook(c) => write!(
                f,
                "has the hook of {c} in its hand, and its only step is hook {}",
                w.0
            ),
            WorkerReason::Runs(t) => write!(f, "runs {t}: the pool is not quiescent"),
            WorkerReason::Acts(c) => write!(
                f,
                "has the hook of {c} in its hand: the pool is not quiescent"
            ),
            WorkerReason::RunsNothing => f.write_str("runs no task"),
            WorkerReason::NoHook => f.write_str("has no hook in its hand"),
        }
    }
}

/// As the end of a sentence about the task.
impl Display for TaskReason {
    fn fmt<W: Write>(&self, f: &mut Formatter<W>) -> fmt::Result {
        match self {
            TaskReason::Waits(queue) => write!(f, "waits in {queue}: the pool is not quiescent"),
            TaskReason::NeverAccepted(accepted) => {
                write!(f, "was never accepted: there were {accepted} so far")
            }
            TaskReason::Released => f.write_str("was released"),
            TaskReason::IsCompleter => f.write_str("is a completer, and ok is for plain tasks"),
            TaskReason::IsPlain => f.write_str("is plain: it ends by ok or fail"),
            TaskReason::NoCompleter => f.write_str("is plain, and no completer"),
            TaskReason::NotGone(place) => write!(f, "is not gone: it {}", At(*place)),
            TaskReason::OnOwnStack(w) => write!(
                f,
                "is on worker {}'s own stack: it would wait for itself",
                w.0
            ),
            TaskReason::IsDone(status) => write!(f, "is {status} already"),
            TaskReason::Fired => f.write_str("fired, or was passed, before"),
            TaskReason::SpentAsReleased => f.write_str("was released, and so is spent"),
            TaskReason::Early(place) => write!(
                f,
                "{}: nothing is counted, and its own body fires it",
                At(*place)
            ),
            TaskReason::NotRun(status) => write!(
                f,
                "is {status}: it became so while it waited, and is not run"
            ),
        }
    }
}
