//! Writes histories as text: [`trace`] that of a script's run, [`write_history`] that of a machine, with the parts that were sealed.
#![tactic(auto)]

mod fault;
mod history;
mod parts;
mod trace_script;
mod trace_stage;
mod tracer;
mod writing;

pub use fault::WriteFault;
pub use history::write_history;
pub use trace_script::trace;
pub use writing::write_text;
