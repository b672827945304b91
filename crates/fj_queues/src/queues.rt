ghost use Rattle.std.specs.Prelude.{◌≡◌, ◌+◌, ◌%◌, ◌<◌, ◌∷◌, [], ◌++◌, length, replicate, IfOk, IfSome, IfNone, MatchOption};
ghost use Rattle.fj_queues.specs.Queues.{queue_at, with_queue, total, without_first, without_last, first_filled, places_from};
ghost use Rattle.fj_rules.specs.Lists.{first_of, last_of};

use crate::cells::{Cell, Cells};
use crate::ends::Ends;
use crate::numbers::Numbers;
use fj_rules::{OutOfMemory, Serial};
use std::alloc::Global;
use std::marker::Model;

/// A queue of task numbers for each owner, all allocated in [`Queues::new`].
///
/// Precondition of each call that takes an owner: it is below the number of owners.
#[derive(Drop)]
pub struct Queues {
    cells: Cells,
    ends: Vec<Ends>,
    room: usize,
    /// How many numbers are in all queues: kept, so that lengths need not be summed.
    total: usize,
}

impl Model for Queues {
    ghost use Rattle.std.specs.Prelude.{◌≡◌, ◌≤◌, [], length, vec_capacity};
    ghost use Rattle.fj_queues.specs.Queues.{Lists, all_in};
    ghost use Rattle.fj_queues.specs.Tables.{lists_of, IsTable};

    ghost Value = { Lists };

    ghost view = { λ q. record { lists = lists_of q.cells.table.items q.ends.items; room = q.room } };

    ghost invariant = { λ q. record {
      table : IsTable q.cells.table.items q.cells.free q.ends.items [];
      counted : q.total ≡ all_in (lists_of q.cells.table.items q.ends.items);
      within : length q.cells.table.items ≤ q.room;
      reserved : q.room ≤ vec_capacity q.cells.table;
    } };
}

/// `place` modulo `places`. Precondition: it is below twice `places`.
fn round(place: usize, places: usize) -> usize
    requires { place < places + places }
    ensures { result ≡ place % places }
{
    // A division would take longer than all else that is done for a place.
    if place < places {
        place
    } else {
        place - places
    }
}

impl Queues {
    /// So many empty queues, with room for `room` numbers in all, however they are spread. An error only if out of memory.
    pub fn new(alloc: Global, owners: usize, room: usize) -> Result<Queues, OutOfMemory>
        ensures { IfOk result (λ q. q ≡ record { lists = replicate owners []; room = room }) }
    {
        let cells = Cells::with_capacity(alloc, room)?;
        let mut ends = Vec::with_capacity(alloc, owners)?;
        for _owner in 0..owners {
            ends.push(Ends::EMPTY)?;
        }
        Ok(Queues {
            cells,
            ends,
            room,
            total: 0,
        })
    }

    /// How many owners have a queue.
    pub fn owners(&self) -> usize
        ensures { result ≡ length self.now.lists }
    {
        self.ends.len()
    }

    /// How many numbers may be in all queues together.
    pub fn room(&self) -> usize
        ensures { result ≡ self.now.room }
    {
        self.room
    }

    /// How many numbers are in an owner's queue.
    pub fn len(&self, o: usize) -> usize
        requires { o < length self.now.lists }
        ensures { result ≡ length (queue_at self.now o) }
    {
        self.ends[o].len
    }

    /// How many numbers are in all queues.
    pub fn total(&self) -> usize
        ensures { result ≡ total self.now }
    {
        self.total
    }

    /// The numbers in an owner's queue, oldest first.
    pub fn numbers(&self, o: usize) -> Numbers<'_>
        requires { o < length self.now.lists }
        ensures { result ≡ queue_at self.now o }
    {
        let ends = self.ends[o];
        Numbers {
            table: self.cells.table.as_slice(),
            next: ends.oldest,
            left: ends.len,
        }
    }

    /// The oldest number of an owner's queue, which stays there. None if the queue is empty.
    pub fn oldest(&self, o: usize) -> Option<Serial>
        requires { o < length self.now.lists }
        ensures { result ≡ first_of (queue_at self.now o) }
    {
        let cell = self.ends[o].oldest?;
        Some(self.cells.table[cell].serial)
    }

    /// The newest number of an owner's queue, which stays there. None if the queue is empty.
    pub fn newest(&self, o: usize) -> Option<Serial>
        requires { o < length self.now.lists }
        ensures { result ≡ last_of (queue_at self.now o) }
    {
        let cell = self.ends[o].newest?;
        Some(self.cells.table[cell].serial)
    }

    /// Puts a number at the new end of an owner's queue. Precondition: there is room. Allocates nothing.
    pub fn push(&mut self, o: usize, serial: Serial)
        requires owner { o < length self.old.lists }
        requires room { total self.old < self.old.room }
        ensures pushed { self.new ≡ with_queue self.old o (queue_at self.old o ++ serial ∷ []) }
        ensures counted { total self.new ≡ total self.old + 1 }
    {
        let number = self.cells.fill(Cell::alone(serial));
        let mut ends = self.ends[o];
        ends.append(&mut self.cells, number);
        self.ends[o] = ends;
        self.total += 1;
    }

    /// Takes the oldest number of an owner's queue. None, with nothing changed, if the queue is empty.
    pub fn take_old(&mut self, o: usize) -> Option<Serial>
        requires { o < length self.old.lists }
        ensures taken { result ≡ first_of (queue_at self.old o) }
        ensures rest { self.new ≡ with_queue self.old o (without_first (queue_at self.old o)) }
        ensures stays { IfNone result (self.new ≡ self.old) }
        ensures counted { MatchOption result (total self.new ≡ total self.old) (λ _. total self.new + 1 ≡ total self.old) }
    {
        let mut ends = self.ends[o];
        let number = ends.detach_oldest(&mut self.cells)?;
        self.ends[o] = ends;
        self.total -= 1;
        Some(self.cells.give_back(number))
    }

    /// Takes the newest number of an owner's queue. None, with nothing changed, if the queue is empty.
    pub fn take_new(&mut self, o: usize) -> Option<Serial>
        requires { o < length self.old.lists }
        ensures taken { result ≡ last_of (queue_at self.old o) }
        ensures rest { self.new ≡ with_queue self.old o (without_last (queue_at self.old o)) }
        ensures stays { IfNone result (self.new ≡ self.old) }
        ensures counted { MatchOption result (total self.new ≡ total self.old) (λ _. total self.new + 1 ≡ total self.old) }
    {
        let mut ends = self.ends[o];
        let number = ends.detach_newest(&mut self.cells)?;
        self.ends[o] = ends;
        self.total -= 1;
        Some(self.cells.give_back(number))
    }

    /// The first owner whose queue is not empty, from owner `r` on, modulo the number of owners. None if all queues are empty.
    pub fn first_from(&self, r: usize) -> Option<usize>
        ensures scan { result ≡ first_filled self.now.lists (places_from (length self.now.lists) r) }
        ensures owner { IfSome result (λ o. o < length self.now.lists) }
        ensures filled { IfSome result (λ o. 0 < length (queue_at self.now o)) }
        ensures none { IfNone result (total self.now ≡ 0) }
    {
        let owners = self.ends.len();
        if owners == 0 {
            return None;
        }
        // `r` may be the largest `usize`, so it is reduced before anything is added to it.
        let start = r % owners;
        for i in 0..owners {
            let o = round(start + i, owners);
            if self.ends[o].len > 0 {
                return Some(o);
            }
        }
        None
    }
}
