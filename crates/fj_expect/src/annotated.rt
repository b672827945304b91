use crate::fault::TestFault;
use fj_replay::ReplayFault;
use std::alloc::{AllocError, Global};

/// The first line of a script of version 2.
const TITLE: &str = "fj 2\n";

/// A line of a script, as it was written.
#[derive(Clone, Copy)]
pub struct Written<'a> {
    /// Its number, counted from 1.
    pub number: u64,
    /// The reply behind it.
    pub reply: Option<&'a str>,
}

/// A script with replies.
#[derive(Drop)]
pub struct Annotated<'a> {
    /// Its lines as a replay reads them: without comments and replies, with single spaces.
    pub script: String,
    /// The same lines as they were written.
    pub lines: Vec<Written<'a>>,
    /// The number of the line behind the last one.
    end: u64,
}

impl<'a> Annotated<'a> {
    /// Reads the lines of a text. `Line` for a line with a reply and no step.
    pub fn read(alloc: Global, text: &'a str) -> Result<Annotated<'a>, TestFault> {
        let mut read = Annotated {
            script: String::new(alloc),
            lines: Vec::new(alloc),
            end: 1,
        };
        for line in text.lines() {
            let (words, reply) = parted(line);
            read.add(words, reply)?;
            if words.is_empty() && reply.is_some() {
                return Err(TestFault::Line(read.end));
            }
            read.end = read.end.saturating_add(1);
        }
        Ok(read)
    }

    /// Adds a line, if it has words.
    fn add(&mut self, words: &'a str, reply: Option<&'a str>) -> Result<(), AllocError> {
        if words.is_empty() {
            return Ok(());
        }
        self.lines.push(Written {
            number: self.end,
            reply,
        })?;
        for (k, word) in words.split_whitespace().enumerate() {
            self.script.push_str(if k == 0 { "" } else { " " })?;
            self.script.push_str(word)?;
        }
        self.script.push_str("\n")
    }

    /// Whether it is one of version 2: its heading is the second line.
    pub fn is_titled(&self) -> bool {
        self.script.as_str().starts_with(TITLE)
    }

    /// Whether a reply is expected of its heading.
    pub fn foresees_refusal(&self) -> bool {
        let heading = self.lines.get(usize::from(self.is_titled()));
        heading.is_some_and(|line| line.reply.is_some())
    }

    /// The fault of a replay, told by the line that was written.
    pub fn fault(&self, fault: ReplayFault) -> TestFault {
        match fault {
            ReplayFault::Line(number) => TestFault::Line(self.number_of(number)),
            ReplayFault::Limits => TestFault::Limits,
            // A write to a vector fails only if out of memory.
            ReplayFault::Memory | ReplayFault::Read | ReplayFault::Write => TestFault::Memory,
        }
    }

    /// The number by which this line was written, counted from 1.
    fn number_of(&self, line: u64) -> u64 {
        let before = usize::try_from(line.saturating_sub(1)).unwrap_or(usize::MAX);
        self.lines.get(before).map_or(self.end, |line| line.number)
    }
}

/// What a line asks for, and the reply behind it. What follows `#` is a comment.
fn parted(line: &str) -> (&str, Option<&str>) {
    let (line, _) = line.split_once('#').unwrap_or((line, ""));
    match line.split_once('>') {
        Some((words, reply)) => (words.trim(), Some(reply.trim())),
        None => (line.trim(), None),
    }
}
