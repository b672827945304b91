use crate::label::Label;
use crate::milestone::Milestone;
use crate::note::Note;
use fj_rules::Serial;
use std::alloc::{AllocError, Global};
use std::collections::BTreeMap;

/// What is noted of one task.
#[derive(Drop)]
struct TaskNotes {
    label: Option<Label>,
    begin: Option<u64>,
    end: Option<u64>,
    fire: Option<u64>,
    hooked: Option<u64>,
}

/// Notes that were read, by task. Of two that say the same of a task, the later one holds.
#[derive(Drop)]
pub struct Notes {
    tasks: BTreeMap<u64, TaskNotes>,
}

impl TaskNotes {
    /// Nothing yet.
    fn new() -> TaskNotes {
        TaskNotes {
            label: None,
            begin: None,
            end: None,
            fire: None,
            hooked: None,
        }
    }

    /// The time of a milestone, if it is noted.
    fn time(&self, milestone: Milestone) -> Option<u64> {
        match milestone {
            Milestone::Begin => self.begin,
            Milestone::End => self.end,
            Milestone::Fire => self.fire,
            Milestone::Hooked => self.hooked,
        }
    }

    /// Notes the time of a milestone.
    fn set_time(&mut self, milestone: Milestone, nanos: u64) {
        let time = Some(nanos);
        match milestone {
            Milestone::Begin => self.begin = time,
            Milestone::End => self.end = time,
            Milestone::Fire => self.fire = time,
            Milestone::Hooked => self.hooked = time,
        }
    }
}

impl Notes {
    /// No notes yet.
    pub fn new(alloc: Global) -> Notes {
        Notes {
            tasks: BTreeMap::new(alloc),
        }
    }

    /// Takes a note in. An error if out of memory; then nothing has changed.
    pub fn tell(&mut self, note: Note) -> Result<(), AllocError> {
        match note {
            Note::Name(t, label) => {
                let task = self.tasks.entry(t.0)?.or_insert(TaskNotes::new());
                task.label = Some(label);
            }
            Note::Time(t, milestone, nanos) => {
                let task = self.tasks.entry(t.0)?.or_insert(TaskNotes::new());
                task.set_time(milestone, nanos);
            }
        }
        Ok(())
    }

    /// How a task is called, if it is noted.
    pub fn label_of(&self, t: Serial) -> Option<&Label> {
        self.tasks.get(&t.0)?.label.as_ref()
    }

    /// When a task came to a milestone, in nanoseconds since the start of the notes, if it is noted.
    pub fn time_of(&self, t: Serial, milestone: Milestone) -> Option<u64> {
        self.tasks.get(&t.0)?.time(milestone)
    }
}
