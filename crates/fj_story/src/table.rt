ghost use Rattle.std.specs.Prelude.{◌≡◌, ◌<◌, [], length, map, OnOk, OnErr, IfSome};
ghost use Rattle.std.specs.List.{range_with_len};
ghost use Rattle.fj_rules.specs.Tasks.{tasks};
ghost use Rattle.fj_check.specs.Entries.{MayCome, past_after};
ghost use Rattle.fj_story.specs.Rows.{rows};
ghost use Rattle.fj_story.specs.Changes.{FitsAdd, row_at, rows_after, rows_told, stopped, told_by};

use crate::row::TaskRow;
use fj_checker::Checker;
use fj_history::Entry;
use fj_rules::{Event, OutOfMemory, Serial};
use std::alloc::Global;
use std::marker::Model;
use std::snapshot::Snapshot;

/// The rows of all tasks that were accepted so far. Contracts see what has happened.
#[derive(Drop)]
pub struct TaskTable {
    rows: Vec<TaskRow>,
    /// How many events have happened.
    events: u64,
    // What has happened. Only proofs read it.
    told: Snapshot<Checker>,
}

impl Model for TaskTable {
    ghost use Rattle.fj_rules.specs.Pasts.{Past};
    ghost use Rattle.fj_story.specs.Tabled.{Tabled};

    ghost Value = { Past };

    ghost view = { λ t. t.told.value };

    ghost invariant = { λ t. Tabled t.told.value t.rows.items t.events };
}

impl TaskTable {
    /// A table without rows, before the first event.
    pub fn new(alloc: Global, checker: &Checker) -> TaskTable
        requires { checker.now.events ≡ [] }
        ensures { result ≡ checker.now }
    {
        TaskTable {
            rows: Vec::new(alloc),
            events: 0,
            told: Snapshot::of(checker),
        }
    }

    /// The rows of the accepted tasks, by number.
    pub fn rows(&self) -> &[TaskRow]
        ensures rows { result.now ≡ rows self.now.events }
        // The tasks are numbered from 0.
        ensures numbers { tasks self.now.events ≡ range_with_len 0 (length result.now) }
    {
        self.rows.as_slice()
    }

    /// Goes on by an entry, which has come to the checker. An error only if out of memory, or past 2^64 - 1 events. Precondition: it may come.
    pub fn tell(&mut self, entry: &Entry, checker: &Checker) -> Result<(), OutOfMemory>
        requires may { MayCome self.old entry.now }
        requires after { checker.now ≡ past_after self.old entry.now }
        ensures { OnOk result (self.new ≡ checker.now) }
    {
        match entry {
            Entry::Event(event) => {
                let Some(now) = self.events.checked_add(1) else {
                    return Err(OutOfMemory);
                };
                change_rows(&mut self.rows, event, now)?;
                self.events = now;
                self.told = Snapshot::of(checker);
            }
            Entry::Seal => self.told = Snapshot::of(checker),
        }
        Ok(())
    }
}

/// The rows after the event with this number. An error only if out of memory; then nothing has changed. Preconditions: the task of which
/// the event says something is there, and what it adds to a pending count fits.
fn change_rows(rows: &mut Vec<TaskRow>, event: &Event, now: u64) -> Result<(), OutOfMemory>
    requires there { IfSome (told_by event.now) (λ t. t < length rows.old.items) }
    requires fits { IfSome (told_by event.now) (λ t. FitsAdd (row_at rows.old.items t) event.now) }
    ensures ok { OnOk result (rows.new.items ≡ rows_after rows.old.items event.now now) }
    ensures stays { OnErr result (rows.new.items ≡ rows.old.items) }
{
    if let Some(t) = told_by(event) {
        change_row(rows, t.0 as usize, event, now);
        return Ok(());
    }
    match event {
        Event::Acc(_, owner, kind) => rows.push(TaskRow::accepted(kind, Some(*owner), now))?,
        Event::Make(_, kind) => rows.push(TaskRow::accepted(kind, None, now))?,
        Event::Stop => stop_rows(rows.as_mut_slice()),
        _ => {}
    }
    Ok(())
}

/// The task of which the event says something, if that is one that was accepted before.
fn told_by(event: &Event) -> Option<Serial>
    ensures { result ≡ told_by event.now }
{
    match event {
        Event::Out(t, _) | Event::Skip(t, _) | Event::End(t, _) => Some(*t),
        Event::Add(c, _) | Event::Dec(c) | Event::Fire(c, _) => Some(*c),
        Event::Pass(c) | Event::Hooked(c) => Some(*c),
        Event::Settle(t, _) | Event::Rel(t) => Some(*t),
        Event::Acc(_, _, _) | Event::Make(_, _) | Event::Close | Event::Stop => None,
    }
}

/// Changes the row of this task.
fn change_row(rows: &mut Vec<TaskRow>, t: usize, event: &Event, now: u64)
    requires there { t < length rows.old.items }
    requires fits { FitsAdd (row_at rows.old.items t) event.now }
    ensures { rows.new.items ≡ rows_told rows.old.items t event.now now }
{
    let mut row = rows[t];
    row.change(event, now);
    rows[t] = row;
}

/// Changes all rows by a stop.
fn stop_rows(rows: &mut [TaskRow])
    ensures { rows.new ≡ map stopped rows.old }
{
    for row in rows.iter_mut() {
        *row = row.stopped();
    }
}
