ghost use Rattle.std.specs.Prelude.{[], ℕ, ◌≡◌, ◌<◌, IfOk, IfNone, None};
ghost use Rattle.fj_slots.specs.Shelves.{AreFewer, entries, is_there, no_entries, with_entry, without_entry, without_entries};

use crate::aside::Aside;
use crate::slots::Slots;
use fj_rules::Serial;
use std::alloc::{AllocError, Global};
use std::marker::Model;

/// A map from task numbers, with a fixed room that `new` allocates. Java has no counterpart: there an entry is a field of its task.
///
/// A direct-mapped table: an entry has the slot at its number modulo the room. If another number fills that slot, the entry goes to an
/// overflow list, which stays empty as long as no two numbers are as far apart as there is room.
#[derive(Drop)]
pub struct SerialMap<T> {
    slots: Slots<T>,
    aside: Aside<T>,
}

impl<T> Model for SerialMap<T> {
    ghost use Rattle.fj_slots.specs.Shelves.{Shelved};
    ghost use Rattle.fj_slots.specs.Slots.{IsShelf};

    ghost Value = { Shelved T };

    ghost view = { λ s. record { slots = s.slots; aside = s.aside.items; room = s.aside.room } };

    ghost invariant = { λ s. IsShelf s.slots s.aside.items };
}

impl<T: Drop> SerialMap<T> {
    /// An empty map. An error only if out of memory. Precondition: `room` is at least 1.
    pub fn new(alloc: Global, room: usize) -> Result<SerialMap<T>, AllocError>
        requires { 0 < room }
        ensures entries { IfOk result (λ s. entries s ≡ no_entries) }
        ensures room { IfOk result (λ s. s.room ≡ room) }
    {
        Ok(SerialMap {
            slots: Slots::new(alloc, room)?,
            aside: Aside::new(alloc, room)?,
        })
    }

    /// Whether there is an entry under a number.
    #[inline(always)]
    pub fn has(&self, number: Serial) -> bool
        ensures { result ≡ is_there (entries self.now) number }
    {
        let at = self.slots.guess(number);
        if self.slots.has_number(at, number) {
            return true;
        }
        self.aside.has(number)
    }

    /// Puts an entry under a number. Preconditions: there is none under it, and there is room.
    #[inline(always)]
    pub fn put(&mut self, number: Serial, item: T)
        requires free { entries self.old number ≡ None }
        requires room { AreFewer (entries self.old) self.old.room }
        ensures entries { entries self.new ≡ with_entry (entries self.old) number item }
        ensures room { self.new.room ≡ self.old.room }
    {
        let at = self.slots.guess(number);
        if self.slots.is_free(at) {
            self.slots.fill(at, number, item);
        } else {
            self.aside.put(number, item);
        }
    }

    /// Takes out the entry under a number, if there is one.
    #[inline(always)]
    pub fn take(&mut self, number: Serial) -> Option<T>
        ensures taken { result ≡ entries self.old number }
        ensures entries { entries self.new ≡ without_entry (entries self.old) number }
        ensures room { self.new.room ≡ self.old.room }
        ensures stays { IfNone result (self.new ≡ self.old) }
    {
        let at = self.slots.guess(number);
        if self.slots.has_number(at, number) {
            self.slots.clear(at)
        } else {
            self.aside.take(number)
        }
    }

    /// Drops the entries under these numbers.
    pub fn sweep(&mut self, numbers: &[Serial])
        ensures entries { entries self.new ≡ without_entries (entries self.old) numbers.now }
        ensures room { self.new.room ≡ self.old.room }
        ensures stays { numbers.now ≡ [] → self.new ≡ self.old }
    {
        for number in numbers {
            let _swept = self.take(*number);
        }
    }
}
