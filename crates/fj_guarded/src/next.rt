use fj_body::{Body, Heard};
use fj_rules::{Refusal, Serial};
use std::alloc::{AllocError, Global};

/// What a worker does after releasing the lock.
#[derive(Drop)]
pub enum Next<B: Body> {
    /// The hook, or else the running body, takes a turn, in which it hears this.
    Turn(Heard<B>),
    /// The body of this task takes its first turn.
    Begin(Serial),
    /// It asks for the lock again.
    Again,
    /// It waits until something has changed: what it joined is undone, and no task is queued.
    Wait,
    /// It rests: there is nothing to do. It looks again after a while.
    Rest,
    /// It is done.
    Leave(Result<(), Refusal>),
}

/// The most tasks that are skipped in one holding of the lock.
pub(crate) const MOST_SKIPPED: usize = 16;

/// Bodies that are not needed any more. They are dropped once the lock is free.
#[derive(Drop)]
pub struct Unneeded<B> {
    /// A body that has ended.
    ended: Option<B>,
    /// Bodies that were skipped.
    skipped: Vec<B>,
}

impl<B: Drop> Unneeded<B> {
    /// No bodies. An error only if out of memory.
    pub fn new(alloc: Global) -> Result<Unneeded<B>, AllocError> {
        Ok(Unneeded {
            ended: None,
            skipped: Vec::with_capacity(alloc, MOST_SKIPPED)?,
        })
    }

    /// A body has ended, if there is one. If not, one that ended before in the same holding of the lock stays.
    #[inline(always)]
    pub(crate) fn add_ended(&mut self, body: Option<B>) {
        if body.is_some() {
            self.ended = body;
        }
    }

    /// A body was skipped.
    pub(crate) fn add_skipped(&mut self, body: B) {
        // There is room: no more are skipped before this is cleared.
        if self.skipped.len() < self.skipped.capacity() {
            self.skipped.push_reserved(body);
        }
    }

    /// Drops the bodies. Mostly there are none, and then nothing is written.
    #[inline(always)]
    pub fn clear(&mut self) {
        if self.ended.is_some() {
            self.ended = None;
        }
        if !self.skipped.is_empty() {
            self.skipped.clear();
        }
    }
}
