//! The machine of `fj_machine` for C: an exported function for each of its calls.
//!
//! C holds a `Handle`, the address of a machine or null; contracts see its past, if there is one. A call takes the machine out of its handle, asks
//! it, and puts it back. C does not pass a parameter of type `Global`, which takes no bytes. `include/fj.h` has the calls for C, and `docs/C.md`
//! what a caller must uphold.
#![tactic(auto)]

mod checks;
mod history;
mod life;
mod lists;
mod loose;
mod pointer;
mod steps;
mod text;
