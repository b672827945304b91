ghost use Rattle.std.specs.Prelude.{◌≡◌, ◌+◌, ◌-◌, ◌<◌, ◌≤◌, ◌%◌, ◌++◌, ◌↔◌, IsTrue, length, IfOk, replicate, None, Some, slice_set as set, is_some, slice_get, option_map, slice_index_or as get_or, vec_capacity};
ghost use Rattle.fj_slots.specs.Slots.{in_slot};

use fj_rules::{MAX_TASKS, Serial};
use std::alloc::{AllocError, Global};
use std::marker::Model;

/// The usual number of slots: the most tasks that a pool may have. For this constant the modulo is a mask; any other needs a division.
const MOST_SLOTS: usize = MAX_TASKS as usize;

/// A row of slots, each of which is empty or has an entry. `new` allocates all its memory, which is touched as needed: slots behind the
/// last one that was ever filled have never been written.
#[derive(Drop)]
pub struct Slots<T> {
    count: usize,
    written: Vec<Option<(Serial, T)>>,
}

impl<T> Model for Slots<T> {
    ghost use Rattle.std.specs.Prelude.{ℕ, List, Option, None, ◌<◌, ◌≤◌, length, vec_capacity};
    ghost use Rattle.fj_slots.specs.Slots.{padded};

    ghost Value = { List (Option (ℕ × T)) };

    ghost view = { λ s. padded s.written.items s.count None };

    ghost invariant = { λ s. record {
      some : 0 < s.count;
      within : length s.written.items ≤ s.count;
      fits : s.count ≤ vec_capacity s.written;
    } };
}

impl<T: Drop> Slots<T> {
    /// `count` empty slots. An error only if out of memory. Precondition: `count` is at least 1.
    pub fn new(alloc: Global, count: usize) -> Result<Slots<T>, AllocError>
        requires { 0 < count }
        ensures { IfOk result (λ s. s ≡ replicate count None) }
    {
        Ok(Slots {
            count,
            written: Vec::with_capacity(alloc, count)?,
        })
    }

    /// The slot for an entry under this number.
    #[inline(always)]
    pub fn guess(&self, number: Serial) -> usize
        ensures guess { result ≡ number % length self.now }
        ensures within { result < length self.now }
    {
        if self.count == MOST_SLOTS {
            (number.0 % MOST_SLOTS as u64) as usize
        } else {
            (number.0 % self.count as u64) as usize
        }
    }

    /// Whether the slot is empty. Precondition: there is this slot.
    #[inline(always)]
    pub fn is_free(&self, at: usize) -> bool
        requires { at < length self.now }
        ensures { IsTrue result ↔ (slice_get self.now at ≡ Some None) }
    {
        at >= self.written.len() || self.written[at].is_none()
    }

    /// Whether the slot has the entry of this number. Precondition: there is this slot.
    #[inline(always)]
    pub fn has_number(&self, at: usize, number: Serial) -> bool
        requires { at < length self.now }
        ensures { result ≡ is_some (in_slot (slice_get self.now at) number) }
    {
        if at >= self.written.len() {
            return false;
        }
        match &self.written[at] {
            Some(entry) => entry.0 == number,
            None => false,
        }
    }

    /// Fills the slot with this entry, instead of what it had. Precondition: there is this slot.
    #[inline(always)]
    pub fn fill(&mut self, at: usize, number: Serial, item: T)
        requires { at < length self.old }
        ensures { self.new ≡ set self.old at (Some (number, item)) }
    {
        if at < self.written.len() {
            overwrite(&mut self.written, at, number, item);
        } else {
            write_up_to(&mut self.written, at);
            self.written.push_reserved(Some((number, item)));
        }
    }

    /// Takes out the entry of the slot, if it has one. Precondition: there is this slot.
    #[inline(always)]
    pub fn clear(&mut self, at: usize) -> Option<T>
        requires { at < length self.old }
        ensures taken { result ≡ option_map (λ x. x.1) (get_or self.old at None) }
        ensures rest { self.new ≡ set self.old at None }
    {
        if at >= self.written.len() {
            return None;
        }
        match self.written[at].take() {
            Some((_, item)) => Some(item),
            None => None,
        }
    }
}

/// Fills a slot that was written before. Precondition: it was.
#[inline(always)]
fn overwrite<T: Drop>(written: &mut Vec<Option<(Serial, T)>>, at: usize, number: Serial, item: T)
    requires { at < length written.old.items }
    ensures items { written.new.items ≡ set written.old.items at (Some (number, item)) }
    ensures capacity { vec_capacity written.new ≡ vec_capacity written.old }
{
    written[at] = Some((number, item));
}

/// Writes the empty slots below this one that were not written yet. Precondition: there is room.
#[inline(never)]
fn write_up_to<T: Drop>(written: &mut Vec<Option<(Serial, T)>>, at: usize)
    requires below { length written.old.items ≤ at }
    requires room { at ≤ vec_capacity written.old }
    ensures items { written.new.items ≡ written.old.items ++ replicate (at - length written.old.items) None }
    ensures capacity { vec_capacity written.new ≡ vec_capacity written.old }
{
    for _slot in written.len()..at {
        written.push_reserved(None);
    }
}
