//! How tasks are called.
use fj_story::Story;
use std::fmt;

/// The number of a task, and its label if it has one: `3`, or `3 core.o`.
#[derive(Clone, Copy)]
pub struct Named<'a> {
    pub story: &'a Story,
    pub t: u64,
}

impl fmt::Display for Named<'_> {
    fn fmt<W: fmt::Write>(&self, f: &mut fmt::Formatter<W>) -> fmt::Result {
        write!(f, "{}", self.t)?;
        match self.story.label_of(self.t) {
            Some(label) => write!(f, " {label}"),
            None => Ok(()),
        }
    }
}
