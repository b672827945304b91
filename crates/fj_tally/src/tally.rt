ghost use Rattle.std.specs.Prelude.{◌≡◌, IfOk};
ghost use Rattle.std.specs.List.{count_by};
ghost use Rattle.fj_tally.specs.Tallies.{is_submission, is_fork, is_trigger, is_beginning, is_skip, is_failure, is_cancellation, is_release};

use crate::counts::Counts;
use crate::progress::Progress;
use crate::worker_tally::WorkerTally;
use fj_rules::Event;
use std::alloc::{AllocError, Global};

/// The counts of a history, or of a part of one.
#[derive(Debug, Drop, PartialEq)]
pub struct Tally {
    /// Tasks accepted into the queue of a submitter.
    pub submitted: usize,
    /// Tasks accepted into the queue of a worker: its `ForkJoinTask.fork`.
    pub forked: usize,
    /// Triggers made.
    pub triggers: usize,
    /// Tasks handed to a worker to run.
    pub begun: usize,
    /// Tasks taken by a worker and not run, since they were done already.
    pub skipped: usize,
    /// Tasks that ended with a fault.
    pub failed: usize,
    /// Tasks cancelled one by one. A stop, which cancels all undone tasks, does not count.
    pub cancelled: usize,
    /// Tasks and triggers released.
    pub released: usize,
    /// What each worker did, by its number, up to the greatest number of a worker that occurs.
    pub workers: Vec<WorkerTally>,
    /// The most tasks and triggers that were live at once: accepted or made among these events, and not released yet.
    pub most_live: usize,
    /// The most tasks that were in one queue at once, of those accepted among these events.
    pub longest_queue: usize,
}

impl Tally {
    /// Counts these events, the oldest first, of a whole history or of a part, in one pass. An error only if out of memory.
    ///
    /// The queue of a task that was accepted before these events is not known: it counts as never stolen, and as in no queue. A body
    /// that began before them does not make another one nested.
    pub fn of(alloc: Global, events: &[Event]) -> Result<Tally, AllocError>
        ensures submitted { IfOk result (λ t. t.submitted ≡ count_by is_submission events.now) }
        ensures forked { IfOk result (λ t. t.forked ≡ count_by is_fork events.now) }
        ensures triggers { IfOk result (λ t. t.triggers ≡ count_by is_trigger events.now) }
        ensures begun { IfOk result (λ t. t.begun ≡ count_by is_beginning events.now) }
        ensures skipped { IfOk result (λ t. t.skipped ≡ count_by is_skip events.now) }
        ensures failed { IfOk result (λ t. t.failed ≡ count_by is_failure events.now) }
        ensures cancelled { IfOk result (λ t. t.cancelled ≡ count_by is_cancellation events.now) }
        ensures released { IfOk result (λ t. t.released ≡ count_by is_release events.now) }
    {
        let mut counts = Counts::none();
        let mut progress = Progress::new(alloc);
        for event in events {
            counts.count(event);
            progress.follow(event)?;
        }
        Ok(Tally {
            submitted: counts.submitted,
            forked: counts.forked,
            triggers: counts.triggers,
            begun: counts.begun,
            skipped: counts.skipped,
            failed: counts.failed,
            cancelled: counts.cancelled,
            released: counts.released,
            most_live: progress.tasks.most_live,
            longest_queue: progress.queues.longest,
            workers: progress.into_workers(),
        })
    }
}
