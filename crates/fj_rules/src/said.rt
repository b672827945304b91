use crate::ids::Serial;
use crate::place::Place;
use crate::refusal::Refusal;
use crate::status::Status;

/// What the machine replies to a step.
#[derive(Clone, Copy, Debug, PartialEq)]
pub enum Said {
    /// The task was accepted under this number.
    Task(Serial),
    /// There is no task to take.
    None,
    /// The task is handed out to run.
    Run(Serial),
    /// The task was done already: it left its queue and is not run.
    Skip(Serial),
    /// The step was made.
    Done,
    /// The pending count of this completer fell by one.
    Counted(Serial),
    /// The completion action of this completer is handed out: its `CountedCompleter.onCompletion` is to be called.
    Hook(Serial),
    /// This completer had fired, was passed or is done: nothing changed at it.
    Spent(Serial),
    /// This completer is still queued or held: nothing changed at it.
    Early(Serial),
    /// This completer without a parent became normal.
    Root(Serial),
    /// The new pending count.
    Count(u32),
    /// The pool is quiescent; or the task was undone and has got the status asked for (Cancel: or was cancelled already).
    Yes,
    /// The pool is not quiescent; or the task was done and nothing changed.
    No,
    /// The joined task is done, without a fault.
    Normal,
    /// The joined task is done, with a fault of this code.
    Exceptional(u32),
    /// The joined task is cancelled.
    Cancelled,
    /// The step was refused and changed nothing.
    Refused(Refusal),
    /// Where the task is, and how far it has come.
    State(Place, Status),
}
