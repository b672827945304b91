use crate::moment::Moment;
use crate::stretch::{Turn, Work};

/// What a worker did so far.
#[derive(Clone, Copy, Debug)]
pub struct WorkerStory {
    /// The stretch of the body that it runs: the innermost one.
    pub top: Option<usize>,
    /// How many bodies are on its stack.
    pub depth: u64,
    /// The stretch of the completion action in its hand.
    pub hand: Option<usize>,
    /// What it began or ended last.
    pub last: Option<Turn>,
    /// Since when it has had a body or an action.
    busy_since: Option<Moment>,
    /// For how many events it had one, until it was idle last.
    busy: u64,
    /// How many bodies it began.
    pub ran: u64,
    /// How many of these it took from the queue of another worker.
    pub stole: u64,
    /// How many tasks other workers took from its queue and ran.
    pub lost: u64,
}

impl WorkerStory {
    /// It has done nothing yet.
    pub(crate) fn idle() -> WorkerStory {
        WorkerStory {
            top: None,
            depth: 0,
            hand: None,
            last: None,
            busy_since: None,
            busy: 0,
            ran: 0,
            stole: 0,
            lost: 0,
        }
    }

    /// It begins a stretch.
    pub(crate) fn begin(&mut self, at: Moment, stretch: usize, work: Work) {
        if self.busy_since.is_none() {
            self.busy_since = Some(at);
        }
        self.last = Some(Turn {
            at,
            stretch,
            is_end: false,
        });
        if work.is_body() {
            self.top = Some(stretch);
            self.depth = self.depth.saturating_add(1);
            self.ran = self.ran.saturating_add(1);
        } else {
            self.hand = Some(stretch);
        }
    }

    /// It ends a stretch, below which this one lies.
    pub(crate) fn end(&mut self, at: Moment, stretch: usize, work: Work, outer: Option<usize>) {
        self.last = Some(Turn {
            at,
            stretch,
            is_end: true,
        });
        if work.is_body() {
            self.top = outer;
            self.depth = self.depth.saturating_sub(1);
        } else {
            self.hand = None;
        }
        if self.top.is_none() && self.hand.is_none() {
            self.busy = self.busy_at(at);
            self.busy_since = None;
        }
    }

    /// For how many events it had a body or an action, until this moment.
    pub fn busy_at(&self, at: Moment) -> u64 {
        match self.busy_since {
            Some(since) => self.busy.saturating_add(at.since(since)),
            None => self.busy,
        }
    }
}
