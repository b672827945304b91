use crate::ids::{Serial, SubId, WorkerId};
use crate::kind::{Kind, SubmittedKind};

/// How the body of a running task ends.
#[derive(Clone, Copy, Debug, PartialEq)]
pub enum Ending {
    /// The end of a plain task's body, which completes it.
    Ok,
    /// The end of a completer's body, which completes nothing.
    Quiet,
    /// `CountedCompleter.tryComplete`.
    Try,
    /// `CountedCompleter.propagateCompletion`.
    Pass,
    /// `CountedCompleter.complete`.
    Complete,
    /// The body failed, with this code.
    Fail(u32),
}

/// A request to the machine.
///
/// The steps are in eight groups. Code, definitions and tests of the steps of a group are named after it.
#[derive(Clone, Copy, Debug, PartialEq)]
pub enum Step {
    // accept: a task enters the pool
    /// A submitter submits a task of this kind: `ForkJoinPool.submit`.
    Submit { s: SubId, kind: SubmittedKind },
    /// The running task of a worker forks a task: `ForkJoinTask.fork`.
    Fork { w: WorkerId, kind: Kind },
    /// The running task of a worker makes a completer with this count and no parent, which is never queued.
    Trigger { w: WorkerId, count: u32 },
    // take: a worker takes a task from a queue
    /// An idle worker asks for its next task. `r`, modulo the number of queues, is where its scan begins.
    Poll { w: WorkerId, r: u32 },
    /// A running task helps: one turn of `ForkJoinTask.helpQuiesce`.
    Help { w: WorkerId, r: u32 },
    /// A running task joins another one: replies its status if it is done, else its worker takes a task, as by `Poll`. One turn of
    /// `ForkJoinTask.join`.
    Join { w: WorkerId, t: Serial, r: u32 },
    // end: a body or a completion action ends
    /// The body of a worker's running task ends.
    End { w: WorkerId, ending: Ending },
    /// The completion action in a worker's hand ends: `CountedCompleter.onCompletion` returns.
    HookDone { w: WorkerId },
    // completer: a count is raised, or a root made normal
    /// `CountedCompleter.addToPendingCount`.
    Add { w: WorkerId, c: Serial, n: u32 },
    /// `CountedCompleter.quietlyCompleteRoot`.
    QuietRoot { w: WorkerId, t: Serial },
    // settle: a task gets a status
    /// `ForkJoinTask.completeExceptionally`, with a code.
    Fault { t: Serial, code: u32 },
    /// `ForkJoinTask.cancel`.
    Cancel { t: Serial },
    // shut: no more is accepted
    /// `ForkJoinPool.shutdown`.
    Shutdown,
    /// `ForkJoinPool.shutdownNow`.
    Stop,
    // query: nothing changes
    /// `ForkJoinPool.isQuiescent`.
    IsQuiescent,
    /// Where a task is and how far it has come.
    State { t: Serial },
    // release: a task is forgotten
    /// Forgets a task that is gone and that no kept task has as its parent.
    Release { t: Serial },
}
