ghost use Rattle.std.specs.Prelude.{◌<◌, ◌^◌, IfSome};

use crate::labelled::Labelled;
use crate::page::Page;
use fj_body::Turnstile;
use fj_notes::{Label, Milestone};
use fj_rules::{Serial, WorkerId};
use std::alloc::{AllocError, Global};
use std::io;
use std::rt::Clock;
use std::time::Duration;

/// Notes of a run, by task: its label, and the times of its milestones. All room for times and labels is made beforehand; a note takes no lock
/// and does not allocate. Threads share it by reference.
///
/// As a turnstile it notes when each body begins and ends: pass it where `Open` stands, for bodies that are not [`Noted`](crate::Noted).
#[derive(Drop)]
pub struct Notebook<C> {
    clock: C,
    start: Duration,
    tasks: u32,
    pages: Vec<Page>,
}

impl<C: Clock> Notebook<C> {
    /// A notebook for the first `tasks` tasks of a run: what is noted of a later one is lost. A task takes some 130 bytes. Times count from now,
    /// by this clock: `&rt`, or that of a test.
    ///
    /// An error if out of memory, or if the clock cannot be read.
    pub fn new(alloc: Global, clock: C, tasks: u32) -> io::Result<Notebook<C>>
    where
        C: Drop,
    {
        let start = clock.monotonic()?;
        let pages = empty_pages(alloc, tasks)?;
        Ok(Notebook {
            clock,
            start,
            tasks,
            pages,
        })
    }

    /// How many tasks it has room for.
    pub fn tasks(&self) -> u64
        ensures { result < 2 ^ 32 }
    {
        u64::from(self.tasks)
    }

    /// How a task is called, if it is noted.
    pub fn label_of(&self, t: Serial) -> Option<&Label> {
        self.page(t)?.label()
    }

    /// When a task came to a milestone, in nanoseconds since the start, if it is noted.
    pub fn time_of(&self, t: Serial, milestone: Milestone) -> Option<u64>
        ensures { IfSome result (λ nanos. nanos < 2 ^ 64) }
    {
        self.page(t)?.time(milestone)
    }

    /// Notes that a task has come to a milestone now. Where the clock cannot be read, nothing is noted.
    pub(crate) fn note(&self, t: Serial, milestone: Milestone) {
        let Some(page) = self.page(t) else {
            return;
        };
        if let Ok(now) = self.clock.monotonic() {
            page.set_time(milestone, nanos(now.saturating_sub(self.start)));
        }
    }

    /// Notes how a task is called, unless its body writes nothing.
    pub(crate) fn note_label<B: Labelled>(&self, t: Serial, body: &B) {
        let Some(page) = self.page(t) else {
            return;
        };
        let mut label = Label::new();
        // What is written before an error stays.
        let _written = body.write_label(&mut label);
        if !label.as_str().is_empty() {
            page.set_label(label);
        }
    }

    fn page(&self, t: Serial) -> Option<&Page> {
        self.pages.get(usize::try_from(t.0).ok()?)
    }
}

impl<C: Clock> Turnstile for Notebook<C> {
    fn before(&self, _w: WorkerId, t: Serial) {
        self.note(t, Milestone::Begin);
    }

    fn after(&self, _w: WorkerId, t: Serial) {
        self.note(t, Milestone::End);
    }
}

/// So many empty pages.
fn empty_pages(alloc: Global, tasks: u32) -> Result<Vec<Page>, AllocError> {
    let mut pages = Vec::with_capacity(alloc, tasks as usize)?;
    for _ in 0..tasks {
        pages.push(Page::new())?;
    }
    Ok(pages)
}

/// Nanoseconds, fewer than 2^64 - 1.
fn nanos(time: Duration) -> u64 {
    let whole = time.as_secs().saturating_mul(1_000_000_000);
    whole
        .saturating_add(u64::from(time.subsec_nanos()))
        .min(u64::MAX - 1)
}
