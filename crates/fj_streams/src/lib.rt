//! Readers and writers whose contracts may count failed calls, and a loop over the lines of a reader.
//!
//! Any `Read` is a [`Source`], any `Write` a [`Sink`], with nothing known of its calls. Of a [`Watched`] one, and of one that
//! keeps a [`CallCount`] of its own, contracts see how many calls failed, and after how many the caller has to call again.
//!
//! [`filter`] writes a text for each line, and stops at the first line that may not stand where it does. What is done at a line is a
//! [`LineFilter`]: a state, and what a line means there, which contracts see as its `rules`.
#![tactic(auto)]

mod call_count;
mod fault;
mod in_memory;
mod line_buffer;
mod line_filter;
mod read_loop;
mod streams;
mod watched;
mod writes;
mod writing;

pub use call_count::CallCount;
pub use fault::{FilterFault, LineStop};
pub use in_memory::InMemory;
pub use line_filter::LineFilter;
pub use read_loop::filter;
pub use streams::{Sink, Source};
pub use watched::Watched;
pub use writes::{flush_whole, write_whole};
pub use writing::write_all;
