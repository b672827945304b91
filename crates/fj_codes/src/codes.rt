//! The codes of replies, as `fj.h` names them. The refusals of a step have the numbers 1 to 14 of `Refusal::number`.

/// The step was made.
pub const DONE: u32 = 0;

/// There is no machine at the handle.
pub const NO_MACHINE: u32 = 17;

/// A number stands for no mode, ending or owner.
pub const BAD_ARGUMENT: u32 = 18;

/// There is a machine already.
pub const IN_USE: u32 = 19;

/// There is nothing at this place.
pub const NO_PLACE: u32 = 20;

/// The text does not fit.
pub const TOO_SMALL: u32 = 21;

/// The line is no line of a history, or does not end.
pub const BAD_LINE: u32 = 22;

/// The event of the line does not follow those before it, or a seal may not stand there.
pub const BAD_EVENT: u32 = 23;

/// The task was accepted.
pub const TASK: u32 = 32;

/// There is no task.
pub const NONE: u32 = 33;

/// The task is handed out to run.
pub const RUN: u32 = 34;

/// The task was done already, and is not run.
pub const SKIP: u32 = 35;

/// The pending count fell by one.
pub const COUNTED: u32 = 36;

/// The completion action is handed out.
pub const HOOK: u32 = 37;

/// The completer had fired, was passed or is done.
pub const SPENT: u32 = 38;

/// The completer is still queued or held.
pub const EARLY: u32 = 39;

/// The root became normal.
pub const ROOT: u32 = 40;

/// A number.
pub const COUNT: u32 = 41;

/// Yes.
pub const YES: u32 = 42;

/// No.
pub const NO: u32 = 43;

/// The joined task is done, without a fault.
pub const NORMAL: u32 = 44;

/// The joined task is done, with a fault.
pub const EXCEPTIONAL: u32 = 45;

/// The joined task is cancelled.
pub const CANCELLED: u32 = 46;

/// The task is in the queue of a submitter.
pub const SUBMITTED: u32 = 47;

/// The task is in the queue of a worker.
pub const FORKED: u32 = 48;

/// The task is on the stack of a worker.
pub const HELD: u32 = 49;

/// The task is open.
pub const OPEN: u32 = 50;

/// The task is gone.
pub const GONE: u32 = 51;

/// The number of a fault's status is this one and its code.
pub const STATUS_FAULT: u64 = 4_294_967_296;

/// No task, where a parent is asked for or told.
pub const NO_TASK: u64 = u64::MAX;

/// Event: a submitter's task was accepted.
pub const ACC_SUB: u32 = 64;

/// Event: a worker's task was accepted.
pub const ACC_WORK: u32 = 65;

/// Event: a trigger was made.
pub const MAKE: u32 = 66;

/// Event: a task was handed to a worker to run.
pub const OUT: u32 = 67;

/// Event: a done task left its queue.
pub const SKIPPED: u32 = 68;

/// Event: a body ended.
pub const END: u32 = 69;

/// Event: a pending count was raised.
pub const ADD: u32 = 70;

/// Event: a pending count fell by one.
pub const DEC: u32 = 71;

/// Event: a completion action was handed out at pending count zero.
pub const FIRE_ZERO: u32 = 72;

/// Event: a completion action was handed out by the ending Complete.
pub const FIRE_COMPLETE: u32 = 73;

/// Event: a climb passed a completer.
pub const PASSED: u32 = 74;

/// Event: a completion action ended.
pub const HOOKED: u32 = 75;

/// Event: a task got a status.
pub const SETTLE: u32 = 76;

/// Event: shutdown.
pub const CLOSE: u32 = 77;

/// Event: stop.
pub const STOPPED: u32 = 78;

/// Event: a task was released.
pub const REL: u32 = 79;

/// A plain task.
pub const PLAIN: u32 = 0;

/// A completer that keeps its fault.
pub const COMPLETER: u32 = 1;

/// A completer that passes its fault on to its parent.
pub const RELAYING: u32 = 2;
