use fj_rules::{Owner, Serial};
use std::alloc::AllocError;
use std::fmt::{self, Display, Formatter, Write};

/// What is known of the tasks of a script beside its machine: how many there were, and their names in version 2.
#[derive(Drop)]
pub struct Tasks {
    pub accepted: u64,
    pub names: Vec<String>,
}

impl Tasks {
    /// Adds a task that was accepted, with its name in version 2.
    pub fn add(&mut self, name: Option<String>) -> Result<(), AllocError> {
        if let Some(name) = name {
            self.names.push(name)?;
        }
        self.accepted = self.accepted.saturating_add(1);
        Ok(())
    }

    /// The name of a task, or its number.
    pub fn name(&self, t: Serial) -> TaskName<'_> {
        let name = usize::try_from(t.0).ok().and_then(|k| self.names.get(k));
        match name {
            Some(name) => TaskName::Name(name.as_str()),
            None => TaskName::Number(t),
        }
    }
}

/// A task as a script calls it.
#[derive(Clone, Copy)]
pub enum TaskName<'a> {
    Number(Serial),
    Name(&'a str),
}

impl Display for TaskName<'_> {
    fn fmt<W: Write>(&self, f: &mut Formatter<W>) -> fmt::Result {
        match self {
            TaskName::Number(t) => write!(f, "task {}", t.0),
            TaskName::Name(name) => write!(f, "task {name}"),
        }
    }
}

/// A queue, by its owner.
#[derive(Clone, Copy)]
pub struct QueueOf(pub Owner);

impl Display for QueueOf {
    fn fmt<W: Write>(&self, f: &mut Formatter<W>) -> fmt::Result {
        match self.0 {
            Owner::Sub(s) => write!(f, "submitter {}'s queue", s.0),
            Owner::Work(w) => write!(f, "worker {}'s queue", w.0),
        }
    }
}
