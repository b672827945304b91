//! The lines of scripts of a fork-join pool, and of its replies: their grammar, reader and printer.
#![tactic(auto)]

mod line;
mod name;
mod read;
mod reply;
mod write;

pub use line::{ForkedKind, Line, Line2, NamedKind};
pub use name::{MAX_NAME, Name};
pub use read::{
    LINE_FEED, LineFault, MAX_LINE, MAX_LINE2, count_and_relay, first_word, next_number, next_word,
    no_more, one_number, read_head, read_line2, read_number, read_step, two_numbers,
};
pub use reply::Reply;
pub use write::REPLY_ROOM;
