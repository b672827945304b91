//! The reader of lines.
mod accept;
mod completer;
mod end;
mod fault;
mod head;
mod line;
mod line2;
mod number;
mod numbers;
mod query;
mod release;
mod settle;
mod step;
mod take;
mod task;
mod words;

pub use accept::count_and_relay;
pub use fault::LineFault;
pub use head::read_head;
pub use line2::{MAX_LINE2, read_line2};
pub use number::read_number;
pub use numbers::{one_number, two_numbers};
pub use step::read_step;
pub use words::{first_word, next_number, next_word, no_more};

/// The byte that ends a line.
pub const LINE_FEED: u8 = b'\n';

/// The most bytes of a line, without its line feed: no step and no heading has a longer one.
pub const MAX_LINE: usize = 64;
