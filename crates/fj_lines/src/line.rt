//! The parsed line of a script.
use crate::name::Name;
use fj_rules::{Ending, SubId, SubmittedKind, WorkerId};

/// What a forked task is: as [`Kind`](fj_rules::Kind), with a `T` where that has the number of a task.
#[derive(Drop)]
pub enum ForkedKind<T> {
    /// A task with a result.
    Plain,
    /// A task with a completion action.
    Completer {
        /// Whether its fault code is passed on to its parent.
        relay: bool,
        /// The initial pending count.
        count: u32,
        /// The completer at which it arrives once its completion action has ended.
        parent: Option<T>,
    },
}

/// What a line of a script asks for: a step, as [`Step`](fj_rules::Step), with a `T` where that has the number of a task, and an `N` for a
/// new task; or a seal; or the state of the present epoch.
///
/// The lines are in the groups of the steps, and one more. In version 1 a `T` is a number and an `N` empty; in version 2 both are names.
#[derive(Drop)]
pub enum Line<T, N> {
    // accept: a task enters the pool, under this name
    /// A submitter submits a task of this kind.
    Submit {
        name: N,
        s: SubId,
        kind: SubmittedKind,
    },
    /// The running task of a worker forks a task.
    Fork {
        name: N,
        w: WorkerId,
        kind: ForkedKind<T>,
    },
    /// The running task of a worker makes a completer with this count and no parent, which is never queued.
    Trigger {
        name: N,
        w: WorkerId,
        count: u32,
    },
    // take: a worker takes a task from a queue
    /// An idle worker asks for its next task. `r` is where its scan of the queues begins.
    Poll {
        w: WorkerId,
        r: u32,
    },
    /// A running task helps.
    Help {
        w: WorkerId,
        r: u32,
    },
    /// A running task joins another one.
    Join {
        w: WorkerId,
        t: T,
        r: u32,
    },
    // end: a body or a completion action ends
    /// The body of a worker's running task ends.
    End {
        w: WorkerId,
        ending: Ending,
    },
    /// The completion action in a worker's hand ends.
    HookDone {
        w: WorkerId,
    },
    // completer: a count is raised, or a root made normal
    /// The pending count of this completer is raised.
    Add {
        w: WorkerId,
        c: T,
        n: u32,
    },
    /// The root above this completer becomes normal.
    QuietRoot {
        w: WorkerId,
        t: T,
    },
    // settle: a task gets a status
    /// A task becomes exceptional, with this code.
    Fault {
        t: T,
        code: u32,
    },
    /// A task is cancelled.
    Cancel {
        t: T,
    },
    // shut: no more is accepted
    /// Nothing more is accepted from submitters.
    Shutdown,
    /// Every undone task is cancelled, and nothing more is accepted.
    Stop,
    // query: nothing changes
    /// Whether the pool is quiescent.
    IsQuiescent,
    /// Where a task is and how far it has come.
    State {
        t: T,
    },
    // release: a task is forgotten
    /// Forgets a task that is gone. Its name is not reused.
    Release {
        t: T,
    },
    // epoch: the history in parts
    /// Ends the epoch: its events are handed out, and the history begins anew.
    Seal,
    /// Which epoch it is, and how many events it has so far.
    Epoch,
}

/// What a line of a script of version 2 asks for: there tasks have names.
pub type Line2 = Line<Name, Name>;

/// What a forked task is, with a name for its parent.
pub type NamedKind = ForkedKind<Name>;
