use fj_rules::Status;
use std::fmt::{self, Display, Formatter, Write};
use thiserror::Error;

/// Why an event, or a seal, does not follow: the first fact that it needs and that does not hold. Tasks, workers and submitters are told
/// by their numbers.
#[derive(Clone, Copy, Debug, Error)]
pub enum Objection {
    /// There are as many events since the last seal as the heading allows.
    Full(u32),
    /// Tasks are numbered in order of acceptance, and the next has this number.
    NextIs(u64),
    /// As many tasks are kept as the heading allows.
    TooManyTasks(u32),
    /// A pending count would pass the largest.
    CountTooLarge,
    /// There is no such submitter.
    NoSubmitter(u32),
    /// There is no such worker.
    NoWorker(u32),
    /// A submitter's task after a shutdown or a stop, or a second shutdown.
    Closed,
    /// A task, a shutdown or a stop after a stop.
    Stopped,
    /// The task was never accepted.
    Unknown(u64),
    /// The task was released.
    Released(u64),
    /// The task is plain, where a completer is needed.
    Plain(u64),
    /// What is made in no queue is a completer without a parent.
    NoTrigger,
    /// The worker has a completion action in its hand.
    HookInHand(u32, u64),
    /// The task is in no queue.
    NotQueued(u64),
    /// The task is queued, and the worker takes another one first, wherever its scan begins.
    NotFirst(u64, u32),
    /// A task that is done is not handed out.
    Done(u64, Status),
    /// An undone task is not skipped.
    Undone(u64),
    /// The worker runs no task.
    RunsNothing(u32),
    /// The worker runs this task.
    Runs(u32, u64),
    /// An arrival at a spent completer changes nothing.
    Spent(u64),
    /// An arrival is counted.
    Counted(u64),
    /// An arrival comes too early.
    Early(u64),
    /// An arrival fires the completer.
    Fires(u64),
    /// The newest event is not the end of its body.
    NotJustEnded(u64),
    /// The completion action is in no hand.
    InNoHand(u64),
    /// The step of no worker can have fired the completer.
    NobodyFires(u64),
    /// A status is never taken back.
    ToUndone,
    /// The task has its first status, which stays.
    Settled(u64, Status),
    /// A stop cancelled the task.
    CancelledByStop(u64),
    /// A plain task becomes normal right behind the end of its body.
    PlainNotEnded,
    /// A completer with a parent becomes normal only so.
    NotHooked(u64),
    /// The task is queued, held or open.
    NotGone(u64),
    /// A kept task names it as its parent.
    HasChild(u64),
    /// A part is sealed only in a quiescent pool.
    NotQuiescent,
    /// The history has as many events and seals as can be counted.
    TooManySeals,
}

/// A value in a text.
#[derive(Clone, Copy)]
enum Value {
    None,
    Number(u64),
    Status(Status),
}

impl Display for Value {
    fn fmt<W: Write>(&self, f: &mut Formatter<W>) -> fmt::Result {
        match self {
            Value::None => Ok(()),
            Value::Number(n) => write!(f, "{n}"),
            Value::Status(status) => write!(f, "{status}"),
        }
    }
}

impl Objection {
    /// The text, with a `#` for each value.
    fn text(self) -> &'static str {
        match self {
            Objection::Full(_) =>
                "there are # events since the last seal, as many as the heading allows",
            Objection::NextIs(_) =>
                "tasks are numbered in the order in which they are accepted, and the next is #",
            Objection::TooManyTasks(_) => "# tasks are kept, as many as the heading allows",
            Objection::CountTooLarge => "the pending count would pass 65535",
            Objection::NoSubmitter(_) => "there is no submitter #",
            Objection::NoWorker(_) => "there is no worker #",
            Objection::Closed => "a shutdown or a stop came before",
            Objection::Stopped => "a stop came before",
            Objection::Unknown(_) => "task # was not accepted before",
            Objection::Released(_) => "task # was released before",
            Objection::Plain(_) => "task # is plain, and no completer",
            Objection::NoTrigger => "a trigger is a completer without a parent",
            Objection::HookInHand(_, _) => "worker # has the hook of # in its hand",
            Objection::NotQueued(_) => "task # is in no queue",
            Objection::NotFirst(_, _) => "worker # takes another task before #",
            Objection::Done(_, _) => "task # is #, so it is skipped and not handed out",
            Objection::Undone(_) => "task # is undone, so it is handed out and not skipped",
            Objection::RunsNothing(_) => "worker # runs nothing",
            Objection::Runs(_, _) => "worker # runs #",
            Objection::Spent(_) => "completer # is spent: it fired, was passed or is done",
            Objection::Counted(_) => "the pending count of # is above 0, so an arrival is counted",
            Objection::Early(_) => "completer # is queued or held, so an arrival comes too early",
            Objection::Fires(_) => "the pending count of # is 0, so an arrival fires it",
            Objection::NotJustEnded(_) => "the event before is not the end of the body of #",
            Objection::InNoHand(_) => "the hook of # is in no hand",
            Objection::NobodyFires(_) =>
                "no worker can have fired #: its body did not end just before, and no hook has ended",
            Objection::ToUndone => "no task becomes undone",
            Objection::Settled(_, _) => "task # is # already, and the first status stays",
            Objection::CancelledByStop(_) =>
                "task # was cancelled by the stop, and the first status stays",
            Objection::PlainNotEnded =>
                "a plain task becomes normal right behind the end of its body",
            Objection::NotHooked(_) =>
                "completer # has a parent: it becomes normal right behind the end of its hook, if it was fired by complete",
            Objection::NotGone(_) => "task # is queued, held or open, and not gone",
            Objection::HasChild(_) => "a kept task names # as its parent",
            Objection::NotQuiescent =>
                "a task is queued or held, or a hook is in a hand: a part is sealed in a quiescent pool",
            Objection::TooManySeals => "there are as many events and seals as can be counted",
        }
    }

    /// The values, in the order of the text.
    fn values(self) -> (Value, Value) {
        match self {
            Objection::CountTooLarge
            | Objection::Closed
            | Objection::Stopped
            | Objection::NoTrigger
            | Objection::ToUndone
            | Objection::PlainNotEnded
            | Objection::NotQuiescent
            | Objection::TooManySeals => (Value::None, Value::None),
            Objection::Full(n)
            | Objection::TooManyTasks(n)
            | Objection::NoSubmitter(n)
            | Objection::NoWorker(n)
            | Objection::RunsNothing(n) => (Value::Number(n.into()), Value::None),
            Objection::NextIs(n)
            | Objection::Unknown(n)
            | Objection::Released(n)
            | Objection::Plain(n)
            | Objection::NotQueued(n)
            | Objection::Undone(n)
            | Objection::Spent(n)
            | Objection::Counted(n)
            | Objection::Early(n)
            | Objection::Fires(n)
            | Objection::NotJustEnded(n)
            | Objection::InNoHand(n)
            | Objection::NobodyFires(n)
            | Objection::CancelledByStop(n)
            | Objection::NotHooked(n)
            | Objection::NotGone(n)
            | Objection::HasChild(n) => (Value::Number(n), Value::None),
            Objection::HookInHand(w, t) | Objection::Runs(w, t) | Objection::NotFirst(t, w) => (
                Value::Number(w.into()),
                Value::Number(t),
            ),
            Objection::Done(t, status) | Objection::Settled(t, status) => (
                Value::Number(t),
                Value::Status(status),
            ),
        }
    }
}

impl Display for Objection {
    fn fmt<W: Write>(&self, f: &mut Formatter<W>) -> fmt::Result {
        let text = self.text();
        let (first, second) = self.values();
        let (before, rest) = text.split_once('#').unwrap_or((text, ""));
        let (between, after) = rest.split_once('#').unwrap_or((rest, ""));
        write!(f, "{before}{first}{between}{second}{after}")
    }
}
