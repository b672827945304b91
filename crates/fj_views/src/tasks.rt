//! A line for each task. No cell has a space in it, so that a column can be cut out and sorted by.
ghost use Rattle.std.specs.Prelude.{◌≡◌, ◌++◌, ◌∷◌, [], Some, OnOk};
ghost use Rattle.std.specs.Fmt.{WritesInCalls, WritesOnOk};
ghost use Rattle.fj_rules.specs.Tasks.{parent_in};
ghost use Rattle.fj_views.specs.Tables.{begin_text, cell, end_text, kind_cell, line_text, lines_from, place_cell, queue_cell, status_cell, table_of, table_text, what_text, who_text};

use fj_rules::{Owner, Place, Serial, Status, WorkerId};
use fj_story::{Story, TaskMoments, TaskRow};
use std::fmt;

/// Writes a table with a line for each task, by number: what it is, how far it has come, who took it, and at which events it was accepted,
/// taken, ended, fired or passed, its action ended, and it was released. A dash stands for what is not there. An error where the writer
/// fails.
pub fn write_tasks<W: fmt::Write>(story: &Story, out: &mut W) -> fmt::Result
    ensures { OnOk result (WritesInCalls W.write_str_gives out.old (table_text story.now.events) out.new) }
{
    write!(out, "{}", Table(story.rows()))
}

/// The table of these rows.
#[derive(Drop)]
struct Table<'a>(&'a [TaskRow]);

impl fmt::Display for Table<'_> {
    ghost output = { λ t. Some (table_of t.0.now) };

    fn fmt<W: fmt::Write>(&self, f: &mut fmt::Formatter<W>) -> fmt::Result {
        f.write_str(
            "  task  kind       parent  count  place   status                  queue    worker",
        )?;
        f.write_str("     acc     out     end    fire    pass  hooked     rel\n")?;
        write_lines(f, self.0)
    }
}

/// The lines of tasks that are numbered from 0.
fn write_lines<W: fmt::Write>(f: &mut fmt::Formatter<W>, rows: &[TaskRow]) -> fmt::Result
    ensures { WritesOnOk W.write_str_gives f.old result (lines_from 0 rows.now) f.new }
{
    for (n, row) in rows.iter().enumerate() {
        write_line(f, n as u64, row)?;
    }
    Ok(())
}

/// The line of a task.
fn write_line<W: fmt::Write>(f: &mut fmt::Formatter<W>, n: u64, row: &TaskRow) -> fmt::Result
    ensures { WritesOnOk W.write_str_gives f.old result (line_text n row.now) f.new }
{
    write_what(f, n, row)?;
    write_who(f, row)?;
    write_begin(f, &row.at)?;
    write_end(f, &row.at)?;
    f.write_str("\n")
}

/// What the task is, and how far it has come.
fn write_what<W: fmt::Write>(f: &mut fmt::Formatter<W>, n: u64, row: &TaskRow) -> fmt::Result
    ensures { WritesOnOk W.write_str_gives f.old result (what_text n row.now) f.new }
{
    let kind = kind_cell(row);
    let parent = Cell(number_of(row.kind.parent()));
    let pending = row.pending;
    let place = place_cell(&row.place);
    write!(f, "{n:>6}  {kind}{parent}  {pending:>5}  {place}  ")?;
    write_status(f, &row.status)
}

/// `plain`, `completer` or `trigger`.
fn kind_cell(row: &TaskRow) -> &'static str
    ensures { result.now ≡ kind_cell row.now }
{
    if !row.kind.is_completer() {
        "plain    "
    } else if row.queue.is_none() {
        "trigger  "
    } else {
        "completer"
    }
}

/// The number of a task.
fn number_of(task: Option<Serial>) -> Option<u64>
    ensures { result ≡ task }
{
    match task {
        Some(t) => Some(t.0),
        None => None,
    }
}

fn place_cell(place: &Place) -> &'static str
    ensures { result.now ≡ place_cell place.now }
{
    match place {
        Place::Queued(_) => "queued",
        Place::Held(_) => "held  ",
        Place::Open => "open  ",
        Place::Gone => "gone  ",
    }
}

/// The status, in one word.
fn write_status<W: fmt::Write>(f: &mut fmt::Formatter<W>, status: &Status) -> fmt::Result
    ensures { WritesOnOk W.write_str_gives f.old result (status_cell status.now) f.new }
{
    match status {
        Status::Undone => f.write_str("undone                "),
        Status::Normal => f.write_str("normal                "),
        Status::Cancelled => f.write_str("cancelled             "),
        Status::Exceptional(code) => write!(f, "exceptional:{code:<10}"),
    }
}

/// Into whose queue it was accepted, and who took it.
fn write_who<W: fmt::Write>(f: &mut fmt::Formatter<W>, row: &TaskRow) -> fmt::Result
    ensures { WritesOnOk W.write_str_gives f.old result (who_text row.now) f.new }
{
    write_queue(f, &row.queue)?;
    write!(f, "{}", Cell(number_of_worker(row.worker)))
}

fn write_queue<W: fmt::Write>(f: &mut fmt::Formatter<W>, queue: &Option<Owner>) -> fmt::Result
    ensures { WritesOnOk W.write_str_gives f.old result (queue_cell queue.now) f.new }
{
    match queue {
        Some(Owner::Sub(s)) => write!(f, "  sub:{:<3}", s.0),
        Some(Owner::Work(w)) => write!(f, "  work:{:<2}", w.0),
        None => f.write_str("  -      "),
    }
}

fn number_of_worker(worker: Option<WorkerId>) -> Option<u64>
    ensures { result ≡ worker }
{
    match worker {
        Some(w) => Some(u64::from(w.0)),
        None => None,
    }
}

/// When it was accepted and taken, and its body ended.
fn write_begin<W: fmt::Write>(f: &mut fmt::Formatter<W>, at: &TaskMoments) -> fmt::Result
    ensures { WritesOnOk W.write_str_gives f.old result (begin_text at.now) f.new }
{
    write!(
        f,
        "{}{}{}",
        Cell(at.accepted),
        Cell(at.taken),
        Cell(at.ended)
    )
}

/// When it was fired or passed, its action ended, and it was released.
fn write_end<W: fmt::Write>(f: &mut fmt::Formatter<W>, at: &TaskMoments) -> fmt::Result
    ensures { WritesOnOk W.write_str_gives f.old result (end_text at.now) f.new }
{
    write!(
        f,
        "{}{}{}{}",
        Cell(at.fired),
        Cell(at.passed),
        Cell(at.hooked),
        Cell(at.released)
    )
}

/// A number, or a dash.
#[derive(Clone, Copy)]
struct Cell(Option<u64>);

impl fmt::Display for Cell {
    ghost output = { λ c. Some (cell c.0) };

    fn fmt<W: fmt::Write>(&self, f: &mut fmt::Formatter<W>) -> fmt::Result {
        match self.0 {
            Some(n) => write!(f, "  {n:>6}"),
            None => f.write_str("       -"),
        }
    }
}
