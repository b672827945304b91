ghost use Rattle.std.specs.Prelude.{◌≡◌, ◌<◌, ◌≤◌, ◌++◌, ◌∷◌, [], IfOk, false, length, vec_capacity};
ghost use Rattle.fj_rules.specs.Lists.{is_in, times_in, without};

use crate::serial_map::SerialMap;
use fj_rules::Serial;
use std::alloc::{AllocError, Global};
use std::marker::Model;

/// Task numbers in the order of insertion, each once, with a fixed room that `new` allocates. A query for a number does not walk over the
/// others. Java has no counterpart.
#[derive(Drop)]
pub struct SerialSet {
    numbers: Vec<Serial>,
    /// Which numbers are there.
    marks: SerialMap<()>,
}

impl Model for SerialSet {
    ghost use Rattle.std.specs.Prelude.{◌≡◌, ◌≤◌, vec_capacity};
    ghost use Rattle.fj_slots.specs.Shelves.{entries};
    ghost use Rattle.fj_slots.specs.Marked.{AreMarked, SerialList};

    ghost Value = { SerialList };

    ghost view = { λ s. record { items = s.numbers.items; room = s.marks.room } };

    ghost invariant = { λ s. record {
      marked : AreMarked (entries s.marks) s.numbers.items;
      fits : s.marks.room ≤ vec_capacity s.numbers;
    } };
}

impl SerialSet {
    /// An empty set. An error only if out of memory. Precondition: `room` is at least 1.
    pub fn new(alloc: Global, room: usize) -> Result<SerialSet, AllocError>
        requires { 0 < room }
        ensures { IfOk result (λ s. s ≡ record { items = []; room = room }) }
    {
        Ok(SerialSet {
            numbers: Vec::with_capacity(alloc, room)?,
            marks: SerialMap::new(alloc, room)?,
        })
    }

    /// The numbers, the oldest first.
    pub fn as_slice(&self) -> &[Serial]
        ensures { result.now ≡ self.now.items }
    {
        self.numbers.as_slice()
    }

    /// Whether a number is there.
    pub fn has(&self, t: Serial) -> bool
        ensures { result ≡ is_in t self.now.items }
    {
        !self.numbers.is_empty() && self.marks.has(t)
    }

    /// Appends a number. Preconditions: it is not there, and there is room.
    pub fn push(&mut self, t: Serial)
        requires new { is_in t self.old.items ≡ false }
        requires room { length self.old.items < self.old.room }
        ensures { self.new ≡ record self.old { items = self.old.items ++ t ∷ [] } }
    {
        self.numbers.push_reserved(t);
        self.marks.put(t, ());
    }

    /// Removes a number, if it is there. It walks from the newest on. Precondition: it is there at most once.
    pub fn take_out(&mut self, t: Serial)
        requires { times_in t self.old.items ≤ 1 }
        ensures { self.new ≡ record self.old { items = without self.old.items (t ∷ []) } }
    {
        remove_last(&mut self.numbers, t);
        let _mark = self.marks.take(t);
    }
}

/// Removes a number from a list, if it is there. Precondition: it is there at most once.
fn remove_last(numbers: &mut Vec<Serial>, t: Serial)
    requires { times_in t numbers.old.items ≤ 1 }
    ensures items { numbers.new.items ≡ without numbers.old.items (t ∷ []) }
    ensures room { vec_capacity numbers.new ≡ vec_capacity numbers.old }
{
    let mut i = numbers.len();
    while i > 0 {
        i -= 1;
        if numbers[i] == t {
            let _gone = numbers.remove(i);
            return;
        }
    }
}
