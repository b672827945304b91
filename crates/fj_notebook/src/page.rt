ghost use Rattle.std.specs.Prelude.{◌<◌, ◌^◌, IfSome};

use fj_notes::{Label, Milestone};
use std::sync::OnceLock;
use std::sync::atomic::{AtomicU64, Ordering};

/// The time of a milestone to which the task has not come.
const NOT_YET: u64 = u64::MAX;

/// What is noted of one task. Any thread may write to it.
#[derive(Drop)]
pub struct Page {
    label: OnceLock<Label>,
    begin: AtomicU64,
    end: AtomicU64,
    fire: AtomicU64,
    hooked: AtomicU64,
}

impl Page {
    /// An empty page.
    pub fn new() -> Page {
        Page {
            label: OnceLock::new(),
            begin: AtomicU64::new(NOT_YET),
            end: AtomicU64::new(NOT_YET),
            fire: AtomicU64::new(NOT_YET),
            hooked: AtomicU64::new(NOT_YET),
        }
    }

    /// The label, if there is one.
    pub fn label(&self) -> Option<&Label> {
        self.label.get()
    }

    /// Notes the label, if there is none.
    pub fn set_label(&self, label: Label) {
        let _set = self.label.try_set(label);
    }

    /// The time of a milestone, if it is noted.
    pub fn time(&self, milestone: Milestone) -> Option<u64>
        ensures { IfSome result (λ nanos. nanos < 2 ^ 64) }
    {
        let nanos = self.cell(milestone).load(Ordering::SeqCst);
        if nanos == NOT_YET { None } else { Some(nanos) }
    }

    /// Notes the time of a milestone. The latest possible time counts as none.
    pub fn set_time(&self, milestone: Milestone, nanos: u64) {
        self.cell(milestone).store(nanos, Ordering::SeqCst);
    }

    fn cell(&self, milestone: Milestone) -> &AtomicU64 {
        match milestone {
            Milestone::Begin => &self.begin,
            Milestone::End => &self.end,
            Milestone::Fire => &self.fire,
            Milestone::Hooked => &self.hooked,
        }
    }
}
