ghost use Rattle.std.specs.Prelude.{◌≡◌, [], length, IfOk, OnOk};
ghost use Rattle.std.specs.List.{range_with_len};
ghost use Rattle.fj_rules.specs.Tasks.{tasks};
ghost use Rattle.fj_check.specs.Entries.{MayCome, past_after};
ghost use Rattle.fj_story.specs.Rows.{rows};

use crate::mark::Mark;
use crate::moment::Moment;
use crate::queues::Most;
use crate::ratio::share;
use crate::row::TaskRow;
use crate::stretch::{Stretch, Work};
use crate::table::TaskTable;
use crate::task::TaskStory;
use crate::timeline::Timeline;
use crate::worker::WorkerStory;
use fj_checker::Checker;
use fj_history::Entry;
use fj_notes::{Milestone, Notes};
use fj_rules::{Limits, Mode, OutOfMemory, Serial};
use std::alloc::Global;
use std::marker::Model;

/// What the events of a history say of each task and each worker, and when; and the notes beside it, none at first. Contracts see what has
/// happened.
#[derive(Drop)]
pub struct Story {
    table: TaskTable,
    timeline: Timeline,
    notes: Notes,
}

impl Model for Story {
    ghost use Rattle.fj_rules.specs.Pasts.{Past};

    ghost Value = { Past };

    ghost view = { λ s. s.table };
}

impl Story {
    /// Before the first event of a pool of this mode and these limits, of which the checker is. An error only if out of memory.
    pub fn new(
        alloc: Global,
        mode: Mode,
        limits: Limits,
        checker: &Checker,
    ) -> Result<Story, OutOfMemory>
        requires { checker.now.events ≡ [] }
        ensures { IfOk result (λ s. s ≡ checker.now) }
    {
        let timeline = Timeline::new(alloc, mode, limits)?;
        Ok(Story {
            table: TaskTable::new(alloc, checker),
            timeline,
            notes: Notes::new(alloc),
        })
    }

    /// Follows the next entry, by which the checker has just gone on. An error only if out of memory, or past 2^64 - 1 events.
    /// Precondition: the entry may come.
    pub fn tell(&mut self, entry: &Entry, checker: &Checker) -> Result<(), OutOfMemory>
        requires may { MayCome self.old entry.now }
        requires after { checker.now ≡ past_after self.old entry.now }
        ensures { OnOk result (self.new ≡ checker.now) }
    {
        self.timeline.tell(entry)?;
        self.table.tell(entry, checker)
    }

    /// How a task is called, if that is noted.
    pub fn label_of(&self, t: u64) -> Option<&str> {
        Some(self.notes.label_of(Serial(t))?.as_str())
    }

    /// When a task came to a milestone, in nanoseconds since the start of the notes, if that is noted.
    pub fn time_of(&self, t: u64, milestone: Milestone) -> Option<u64> {
        self.notes.time_of(Serial(t), milestone)
    }

    /// Puts these notes beside it, in place of those before.
    pub fn set_notes(&mut self, notes: Notes)
        ensures { self.new ≡ self.old }
    {
        self.notes = notes;
    }

    /// What the history says of each accepted task, by number.
    pub fn rows(&self) -> &[TaskRow]
        ensures rows { result.now ≡ rows self.now.events }
        // The tasks are numbered from 0.
        ensures numbers { tasks self.now.events ≡ range_with_len 0 (length result.now) }
    {
        self.table.rows()
    }

    /// The mode of the pool, as in the heading: `async` or `joining`.
    pub fn mode_word(&self) -> &'static str {
        match self.timeline.mode {
            Mode::Async => "async",
            Mode::Joining => "joining",
        }
    }

    /// The limits of the pool.
    pub fn limits(&self) -> &Limits {
        &self.timeline.limits
    }

    /// The newest event.
    pub fn now(&self) -> Moment {
        self.timeline.now
    }

    /// The accepted tasks, by number.
    pub fn tasks(&self) -> &[TaskStory] {
        self.timeline.tasks.as_slice()
    }

    /// What workers did, in the order in which it began.
    pub fn stretches(&self) -> &[Stretch] {
        self.timeline.stretches.as_slice()
    }

    /// The workers, by number.
    pub fn workers(&self) -> &[WorkerStory] {
        self.timeline.workers.as_slice()
    }

    /// The moments of the whole pool, the oldest first.
    pub fn marks(&self) -> &[Mark] {
        self.timeline.marks.as_slice()
    }

    /// The most tasks that waited in one queue.
    pub fn longest_queue(&self) -> Most {
        self.timeline.queues.longest
    }

    /// The most tasks that waited in all queues together.
    pub fn most_queued(&self) -> Most {
        self.timeline.queues.most
    }

    /// The task of this number, if it was accepted.
    pub fn task(&self, t: u64) -> Option<&TaskStory> {
        self.timeline.tasks.get(t as usize)
    }

    /// The stretch of this number.
    pub fn stretch(&self, place: usize) -> Option<&Stretch> {
        self.timeline.stretches.get(place)
    }

    /// When a stretch ended: one event after the last one if it has not.
    pub fn end_of(&self, stretch: &Stretch) -> Moment {
        match stretch.ended {
            Some(ended) => ended.at,
            None => self.now().next(),
        }
    }

    /// The task that forked this one.
    pub fn forker(&self, task: &TaskStory) -> Option<u64> {
        let fork = task.forked?;
        match self.stretch(fork.stretch)?.work {
            Work::Body(by) => Some(by),
            Work::Hook(_) => None,
        }
    }

    /// How many tasks a worker ran that it took from the queue of another one.
    pub fn steals(&self) -> usize {
        self.tasks().iter().filter(|task| task.is_stolen()).count()
    }

    /// How many workers had a body or an action, on average over the events, in such parts of one.
    pub fn busy_share(&self, parts: u64) -> u64 {
        let mut busy = 0u64;
        for worker in self.workers().iter() {
            busy = busy.saturating_add(worker.busy_at(self.now().next()));
        }
        share(busy, parts, self.now().0)
    }
}
