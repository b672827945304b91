ghost use Rattle.std.specs.Prelude.{◌≡◌, ◌≤◌, ◌↔◌, IsTrue, IsOk, IfOk, OnErr, MatchOption};
ghost use Rattle.fj_rules.specs.Bounds.{AreNumbers};

use crate::owner::Owner;
use crate::refusal::Refusal;
use std::marker::Model;

/// The largest pending count of a completer. Java has no such bound.
pub const MAX_PENDING: u64 = 65_535;

/// The most workers of a pool.
pub const MAX_WORKERS: u32 = 32;

/// The most submitters of a pool.
pub const MAX_SUBMITTERS: u32 = 32;

/// The most tasks that a pool may keep at once.
pub const MAX_TASKS: u32 = 4_096;

/// The most events of a history between two seals.
pub const MAX_EVENTS: u32 = 1_048_576;

/// The limits of a pool, each from 1 to its constant `MAX_..`.
#[derive(Clone, Copy, Debug, PartialEq)]
pub struct Limits {
    workers: u32,
    submitters: u32,
    tasks: u32,
    events: u32,
}

impl Model for Limits {
    ghost use Rattle.fj_rules.specs.Bounds.{Bounds, IsWithin};

    ghost Value = { Bounds };

    ghost view = { λ l. record {
      workers = l.workers;
      submitters = l.submitters;
      tasks = l.tasks;
      events = l.events;
    } };

    ghost invariant = { λ l. IsWithin l.workers l.submitters l.tasks l.events };

    ghost inverse = { λ b. record {
      workers = b.workers;
      submitters = b.submitters;
      tasks = b.tasks;
      events = b.events;
    } };
}

impl Limits {
    ghost use Rattle.fj_rules.specs.Bounds.{IsWithin, IsOwner, bounds, queue_number};

    /// The limits. `BadLimits` if one is out of its range.
    pub fn new(workers: u32, submitters: u32, tasks: u32, events: u32) -> Result<Limits, Refusal>
        ensures valid { IsOk result ↔ IsWithin workers submitters tasks events }
        ensures value { IfOk result (λ l. l ≡ bounds workers submitters tasks events) }
        ensures err { OnErr result (result ≡ Err Refusal.BadLimits) }
        // The largest of each, written out.
        ensures numbers { AreNumbers }
    {
        if is_from_1_to(workers, MAX_WORKERS)
            && is_from_1_to(submitters, MAX_SUBMITTERS)
            && is_from_1_to(tasks, MAX_TASKS)
            && is_from_1_to(events, MAX_EVENTS)
        {
            Ok(Limits {
                workers,
                submitters,
                tasks,
                events,
            })
        } else {
            Err(Refusal::BadLimits)
        }
    }

    /// How many workers there are.
    pub fn workers(&self) -> u32
        ensures number { result ≡ self.now.workers }
        ensures within { IsWithin self.now.workers self.now.submitters self.now.tasks self.now.events }
    {
        self.workers
    }

    /// How many submitters there are.
    pub fn submitters(&self) -> u32
        ensures number { result ≡ self.now.submitters }
    {
        self.submitters
    }

    /// How many tasks may be kept.
    pub fn tasks(&self) -> u32
        ensures number { result ≡ self.now.tasks }
    {
        self.tasks
    }

    /// How many events there may be between two seals of a history.
    pub fn events(&self) -> u32
        ensures number { result ≡ self.now.events }
    {
        self.events
    }

    /// The number of an owner's queue: first the submitters', then the workers'.
    pub fn queue_number(&self, owner: Owner) -> usize
        ensures { result ≡ queue_number self.now owner }
    {
        match owner {
            Owner::Sub(s) => s.0 as usize,
            Owner::Work(w) => self.submitters as usize + w.0 as usize,
        }
    }

    /// The number of an owner's queue. None if the owner is not one of the pool's.
    pub fn find_queue(&self, owner: Owner) -> Option<usize>
        ensures { MatchOption result (¬ IsOwner self.now owner) (λ n. IsOwner self.now owner × (n ≡ queue_number self.now owner)) }
    {
        match owner {
            Owner::Sub(s) if s.0 < self.submitters => Some(s.0 as usize),
            Owner::Work(w) if w.0 < self.workers => Some(self.submitters as usize + w.0 as usize),
            Owner::Sub(_) | Owner::Work(_) => None,
        }
    }
}

/// Whether a number is from 1 to this one.
fn is_from_1_to(n: u32, most: u32) -> bool
    ensures { IsTrue result ↔ ((1 ≤ n) × (n ≤ most)) }
{
    (1..=most).contains(&n)
}
