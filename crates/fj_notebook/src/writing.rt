//! The notes of a run, as text.
ghost use Rattle.std.specs.Prelude.{◌<◌, ◌≤◌, ◌^◌, OnOk, string_bytes};
ghost use Rattle.fj_notebook.specs.Writes.{PushesNotes, WritesNotes};

use crate::notebook::Notebook;
use fj_notes::{Milestone, Note};
use fj_record::{WriteFault, write_text};
use fj_rules::Serial;
use fj_streams::Sink;
use std::alloc::{AllocError, Global};
use std::rt::Clock;

/// The most tasks of a write, 65 KB.
const CHUNK: u64 = 256;

/// Writes the notes of a run as text, by task: its name, and the times of its milestones. It does not flush. At an error a beginning of such a
/// text was written. Where the run goes on meanwhile, some of its later notes are in it.
///
/// `Memory` if a buffer of 65 KB cannot be allocated. `Write` if a write failed.
pub fn write_notes<C: Clock, W: Sink>(
    notebook: &Notebook<C>,
    alloc: Global,
    w: &mut W,
) -> Result<(), WriteFault>
    // The lines of some notes, each of which is read again.
    ensures { WritesNotes result (W.contents w.old) (W.contents w.new) (W.calls w.old) (W.calls w.new) }
{
    let mut text = String::new(alloc);
    let tasks = notebook.tasks();
    let mut from = 0;
    while from < tasks {
        let to = tasks.min(from + CHUNK);
        write_chunk(notebook, from, to, &mut text, w)?;
        from = to;
    }
    Ok(())
}

/// Writes the notes of the tasks from the one number to before the other.
fn write_chunk<C: Clock, W: Sink>(
    notebook: &Notebook<C>,
    from: u64,
    to: u64,
    text: &mut String,
    w: &mut W,
) -> Result<(), WriteFault>
    requires { to ≤ 2 ^ 32 }
    ensures { WritesNotes result (W.contents w.old) (W.contents w.new) (W.calls w.old) (W.calls w.new) }
{
    text.clear();
    match push_tasks(notebook, from, to, text) {
        Ok(()) => write_text(text.as_str(), w),
        Err(_) => Err(WriteFault::Memory),
    }
}

/// Appends the lines of the tasks from the one number to before the other.
fn push_tasks<C: Clock>(
    notebook: &Notebook<C>,
    from: u64,
    to: u64,
    text: &mut String,
) -> Result<(), AllocError>
    requires { to ≤ 2 ^ 32 }
    ensures { OnOk result (PushesNotes (string_bytes text.old) (string_bytes text.new)) }
{
    for t in from..to {
        push_task(notebook, Serial(t), text)?;
    }
    Ok(())
}

/// Appends the lines of a task.
fn push_task<C: Clock>(
    notebook: &Notebook<C>,
    t: Serial,
    text: &mut String,
) -> Result<(), AllocError>
    requires { t < 2 ^ 32 }
    ensures { OnOk result (PushesNotes (string_bytes text.old) (string_bytes text.new)) }
{
    push_name(notebook, t, text)?;
    push_time(notebook, t, Milestone::Begin, text)?;
    push_time(notebook, t, Milestone::End, text)?;
    push_time(notebook, t, Milestone::Fire, text)?;
    push_time(notebook, t, Milestone::Hooked, text)
}

/// Appends the line of a task's label, if it has one.
fn push_name<C: Clock>(
    notebook: &Notebook<C>,
    t: Serial,
    text: &mut String,
) -> Result<(), AllocError>
    requires { t < 2 ^ 32 }
    ensures { OnOk result (PushesNotes (string_bytes text.old) (string_bytes text.new)) }
{
    match notebook.label_of(t) {
        Some(label) => {
            // For the proof: it is a label.
            let _bytes = label.as_bytes();
            Note::Name(t, label.copied()).push_line(text)
        }
        None => Ok(()),
    }
}

/// Appends the line of a task's milestone, if it has come to it.
fn push_time<C: Clock>(
    notebook: &Notebook<C>,
    t: Serial,
    milestone: Milestone,
    text: &mut String,
) -> Result<(), AllocError>
    requires { t < 2 ^ 32 }
    ensures { OnOk result (PushesNotes (string_bytes text.old) (string_bytes text.new)) }
{
    match notebook.time_of(t, milestone) {
        Some(nanos) => Note::Time(t, milestone, nanos).push_line(text),
        None => Ok(()),
    }
}
