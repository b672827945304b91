//! The events of a trace, by the letters of their phases.
use crate::chrome::times::Micros;
use serde::{Described, Serialize, Serializer};
use std::alloc::Global;
use std::fmt;

/// The one process of a trace.
pub const POOL: u64 = 1;

/// The thread of the first submitter. Those of workers have lower numbers.
const SUBMITTERS: u64 = 100;

/// The thread of a submitter.
pub fn submitter_thread(s: u32) -> u64 {
    SUBMITTERS.saturating_add(u64::from(s))
}

/// What is displayed, as a text.
#[derive(Drop)]
pub struct Text<D>(pub D);

impl<D> Described for Text<D> {}

impl<D: fmt::Display> Serialize for Text<D> {
    fn serialize<S: Serializer>(&self, out: &mut S) -> Result<(), S::Error> {
        out.collect_str(&self.0)
    }
}

/// A piece of text about the process or a thread: phase `M`.
#[derive(Drop, Serialize)]
pub struct Metadata<A> {
    pub ph: &'static str,
    pub name: &'static str,
    pub pid: u64,
    pub tid: u64,
    pub args: A,
}

/// The name of a process or a thread.
#[derive(Drop, Serialize)]
pub struct NameArgs<N> {
    pub name: N,
}

/// The place of a thread among the others.
#[derive(Drop, Serialize)]
pub struct SortArgs {
    pub sort_index: u64,
}

/// Something with a length: phase `X`.
#[derive(Drop, Serialize)]
pub struct Slice<N, A> {
    pub ph: &'static str,
    pub name: N,
    pub cat: &'static str,
    pub pid: u64,
    pub tid: u64,
    pub ts: Micros,
    pub dur: Micros,
    pub args: A,
}

/// Something without a length: phase `i`, of a thread, the process or all.
#[derive(Drop, Serialize)]
pub struct Instant<N> {
    pub ph: &'static str,
    pub name: N,
    pub cat: &'static str,
    pub s: &'static str,
    pub pid: u64,
    pub tid: u64,
    pub ts: Micros,
}

/// An end of an arrow: phase `s` where it begins, `f` where it ends, and then `bp` is `e`, for the slice around it.
#[derive(Drop, Serialize)]
pub struct Flow {
    pub ph: &'static str,
    #[serde(skip_serializing_if = "Option::is_none")]
    pub bp: Option<&'static str>,
    pub name: &'static str,
    pub cat: &'static str,
    pub id: u64,
    pub pid: u64,
    pub tid: u64,
    pub ts: Micros,
}

/// Writes an event behind another one. An error where the writer fails, or if out of memory.
pub fn push_event<W: fmt::Write, E: Serialize>(
    alloc: Global,
    event: &E,
    out: &mut W,
) -> fmt::Result {
    out.write_str(",\n")?;
    push_first(alloc, event, out)
}

/// Writes the first event. An error where the writer fails, or if out of memory.
pub fn push_first<W: fmt::Write, E: Serialize>(
    alloc: Global,
    event: &E,
    out: &mut W,
) -> fmt::Result {
    match serde_json::to_string(alloc, event) {
        Ok(text) => out.write_str(text.as_str()),
        Err(_) => Err(fmt::Error),
    }
}
