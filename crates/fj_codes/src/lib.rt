//! What a machine is asked and says, as numbers for programs in other languages.
//!
//! [`Reply`] is a code with two numbers, [`Happened`] an event. The definitions are in `specs/`; `include/fj.h` has the same codes.
#![tactic(auto)]

mod asked;
mod codes;
mod events;
mod replies;

pub use asked::{ending_of, mode_of, parent_of};
pub use codes::{
    ACC_SUB, ACC_WORK, ADD, BAD_ARGUMENT, BAD_EVENT, BAD_LINE, CANCELLED, CLOSE, COMPLETER, COUNT,
    COUNTED, DEC, DONE, EARLY, END, EXCEPTIONAL, FIRE_COMPLETE, FIRE_ZERO, FORKED, GONE, HELD,
    HOOK, HOOKED, IN_USE, MAKE, NO, NO_MACHINE, NO_PLACE, NO_TASK, NONE, NORMAL, OPEN, OUT, PASSED,
    PLAIN, REL, RELAYING, ROOT, RUN, SETTLE, SKIP, SKIPPED, SPENT, STATUS_FAULT, STOPPED,
    SUBMITTED, TASK, TOO_SMALL, YES,
};
pub use events::Happened;
pub use replies::Reply;
