use crate::ids::{Serial, WorkerId};
use crate::kind::Kind;
use crate::owner::Owner;
use crate::status::Status;

/// Why a completion action was handed out.
#[derive(Clone, Copy, Debug)]
pub enum How {
    /// An arrival found the pending count at zero.
    Zero,
    /// The body ended by `Complete`.
    Complete,
}

/// One entry of a history. A history is a list of these, the oldest first.
#[derive(Clone, Copy, Debug)]
pub enum Event {
    /// The task was accepted into this owner's queue.
    Acc(Serial, Owner, Kind),
    /// The trigger was made.
    Make(Serial, Kind),
    /// The task left its queue and was handed to the worker to run.
    Out(Serial, WorkerId),
    /// The task left its queue, taken by the worker, without being run.
    Skip(Serial, WorkerId),
    /// The body of the task ended at the worker.
    End(Serial, WorkerId),
    /// This was added to the completer's pending count.
    Add(Serial, u32),
    /// The pending count of the completer fell by one.
    Dec(Serial),
    /// The completion action of the completer was handed out: its `CountedCompleter.onCompletion`.
    Fire(Serial, How),
    /// A climb passed the completer without its completion action.
    Pass(Serial),
    /// The completion action of the completer ended.
    Hooked(Serial),
    /// The task, undone so far, got this status.
    Settle(Serial, Status),
    /// Shutdown: nothing more is accepted from submitters.
    Close,
    /// Stop: cancels every task that was accepted before and is undone.
    Stop,
    /// The task was released.
    Rel(Serial),
}
