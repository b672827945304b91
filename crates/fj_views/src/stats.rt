//! Counts: one fact a line, a word and its numbers.
use fj_rules::{Owner, Status};
use fj_story::{Moment, Story, WorkerStory, share};
use std::fmt;

/// A number of hundredths, written with a point.
#[derive(Clone, Copy)]
struct Hundredths(u64);

impl fmt::Display for Hundredths {
    fn fmt<W: fmt::Write>(&self, f: &mut fmt::Formatter<W>) -> fmt::Result {
        let whole = self.0 / 100;
        let part = self.0 % 100;
        write!(f, "{whole}.{part:02}")
    }
}

/// Writes what a history comes to in numbers. An error where the writer fails.
pub fn write_stats<W: fmt::Write>(story: &Story, out: &mut W) -> fmt::Result {
    write_pool(story, out)?;
    write_tasks_by_origin(story, out)?;
    write_tasks_by_status(story, out)?;
    write_stretches(story, out)?;
    write_queues(story, out)?;
    write_steals(story, out)?;
    write_workers(story, out)
}

/// The mode and the size.
fn write_pool<W: fmt::Write>(story: &Story, out: &mut W) -> fmt::Result {
    writeln!(
        out,
        "mode {}\nworkers {}\nevents {}\ntasks {}",
        story.mode_word(),
        story.workers().len(),
        story.now(),
        story.tasks().len()
    )
}

/// Where tasks came from, and how many are completers.
fn write_tasks_by_origin<W: fmt::Write>(story: &Story, out: &mut W) -> fmt::Result {
    let mut submitted = 0u64;
    let mut forked = 0u64;
    let mut triggers = 0u64;
    let mut completers = 0u64;
    for task in story.tasks().iter() {
        match &task.queue {
            Some(Owner::Sub(_)) => submitted = submitted.saturating_add(1),
            Some(Owner::Work(_)) => forked = forked.saturating_add(1),
            None => triggers = triggers.saturating_add(1),
        }
        if task.kind.is_completer() {
            completers = completers.saturating_add(1);
        }
    }
    writeln!(
        out,
        "submitted {submitted}\nforked {forked}\ntriggers {triggers}\ncompleters {completers}"
    )
}

/// How far tasks have come.
fn write_tasks_by_status<W: fmt::Write>(story: &Story, out: &mut W) -> fmt::Result {
    let mut undone = 0u64;
    let mut normal = 0u64;
    let mut exceptional = 0u64;
    let mut cancelled = 0u64;
    for task in story.tasks().iter() {
        match &task.status {
            Status::Undone => undone = undone.saturating_add(1),
            Status::Normal => normal = normal.saturating_add(1),
            Status::Exceptional(_) => exceptional = exceptional.saturating_add(1),
            Status::Cancelled => cancelled = cancelled.saturating_add(1),
        }
    }
    writeln!(
        out,
        "undone {undone}\nnormal {normal}\nexceptional {exceptional}\ncancelled {cancelled}"
    )
}

/// Bodies, those inside another one, the deepest nesting, and completion actions.
fn write_stretches<W: fmt::Write>(story: &Story, out: &mut W) -> fmt::Result {
    let mut bodies = 0u64;
    let mut nested = 0u64;
    let mut deepest = 0u64;
    let mut hooks = 0u64;
    for stretch in story.stretches().iter() {
        if !stretch.work.is_body() {
            hooks = hooks.saturating_add(1);
            continue;
        }
        bodies = bodies.saturating_add(1);
        deepest = deepest.max(stretch.depth.saturating_add(1));
        if stretch.depth > 0 {
            nested = nested.saturating_add(1);
        }
    }
    writeln!(
        out,
        "bodies {bodies}\nnested {nested}\ndeepest {deepest}\nhooks {hooks}"
    )
}

/// How many waited at most, and after which event first.
fn write_queues<W: fmt::Write>(story: &Story, out: &mut W) -> fmt::Result {
    let longest = story.longest_queue();
    let most = story.most_queued();
    writeln!(
        out,
        "longest-queue {} at {}\nqueued {} at {}",
        longest.tasks, longest.at, most.tasks, most.at
    )
}

/// What was stolen, and what was not run.
fn write_steals<W: fmt::Write>(story: &Story, out: &mut W) -> fmt::Result {
    let steals = story.steals();
    let mut skipped = 0u64;
    for task in story.tasks().iter() {
        if task.is_skipped() {
            skipped = skipped.saturating_add(1);
        }
    }
    writeln!(out, "steals {steals}\nskipped {skipped}")
}

/// How many workers were busy on average, and what each did.
fn write_workers<W: fmt::Write>(story: &Story, out: &mut W) -> fmt::Result {
    let busy = Hundredths(story.busy_share(100));
    writeln!(out, "busy-workers {busy}")?;
    for (w, worker) in story.workers().iter().enumerate() {
        write_worker(w, worker, story.now(), out)?;
    }
    Ok(())
}

/// What a worker did up to this event, the newest one.
fn write_worker<W: fmt::Write>(
    w: usize,
    worker: &WorkerStory,
    now: Moment,
    out: &mut W,
) -> fmt::Result {
    let ran = worker.ran;
    let stole = worker.stole;
    let lost = worker.lost;
    let percent = share(worker.busy_at(now.next()), 100, now.0);
    writeln!(
        out,
        "worker {w} ran {ran} stole {stole} lost {lost} busy {percent}%"
    )
}
