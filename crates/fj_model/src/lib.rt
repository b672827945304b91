//! The public names of `fj_rules` and `fj_lines` in one crate: types of histories and steps, and the lines of scripts.
#![tactic(auto)]

pub use fj_lines::{
    ForkedKind, LINE_FEED, Line, Line2, LineFault, MAX_LINE, MAX_LINE2, MAX_NAME, Name, NamedKind,
    REPLY_ROOM, Reply, count_and_relay, first_word, next_number, next_word, no_more, one_number,
    read_head, read_line2, read_number, read_step, two_numbers,
};
pub use fj_rules::{
    Answer, Ending, Event, How, Kind, Limits, MAX_EVENTS, MAX_EVENTS_AND_SEALS, MAX_PENDING,
    MAX_SUBMITTERS, MAX_TASKS, MAX_WORKERS, Mode, Move, OutOfMemory, Owner, Place, Refusal, Said,
    Sealed, Serial, Status, Step, SubId, SubmittedKind, WorkerId,
};
