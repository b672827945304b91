ghost use Rattle.std.specs.Prelude.{◌≡◌, ◌<◌, ◌+◌, ◌++◌, ◌∷◌, [], length, IfOk};
ghost use Rattle.std.specs.Ordering.{nat_cmp};
ghost use Rattle.fj_tree.specs.Kept.{IsAbove, IsRising, after_release, is_current, key_at, number_at};

use crate::probes::Probes;
use crate::record::Record;
use fj_rules::{OutOfMemory, Serial};
use slab::Slab;
use std::alloc::Global;
use std::cmp::Ordering;
use std::collections::VecDeque;
use std::marker::Model;

/// The numbers by which records are found, in rising order, each with the key of its record.
///
/// Numbers are given out in rising order, so a new one goes to the end, and a binary search finds one. The number of a released record
/// stays until the list is compacted, which removes all such numbers at once. Only [`Kept::probe`] reads a number.
#[derive(Drop)]
pub struct Kept {
    pairs: VecDeque<(u64, usize)>,
    /// How many records may be kept. There is room for twice as many numbers.
    room: usize,
    /// How many of the numbers are of records that were released.
    released: usize,
}

impl Model for Kept {
    ghost use Rattle.std.specs.Prelude.{◌≤◌, ◌+◌, ◌-◌};
    ghost use Rattle.std.specs.VecDeque.{deque_capacity};
    ghost use Rattle.fj_tree.specs.Kept.{IsRising, Numbers};

    ghost Value = { Numbers };

    ghost view = { λ k. record { pairs = k.pairs.items; room = k.room; released = k.released } };

    ghost invariant = { λ k. record {
      rising : IsRising k.pairs.items;
      fits : k.room + k.room ≤ deque_capacity k.pairs;
      released : k.released ≤ k.room - 1;
    } };
}

impl Kept {
    /// No numbers, with room for those of so many kept records. This is the only allocation. `OutOfMemory` where it fails.
    pub fn new(alloc: Global, room: usize) -> Result<Kept, OutOfMemory>
        ensures { IfOk result (λ k. k ≡ record { pairs = []; room = room; released = 0 }) }
    {
        let twice = room.checked_mul(2).ok_or(OutOfMemory)?;
        Ok(Kept {
            pairs: VecDeque::with_capacity(alloc, twice)?,
            room,
            released: 0,
        })
    }

    /// How many numbers there are.
    pub fn len(&self) -> usize
        ensures count { result ≡ length self.now.pairs }
        ensures rising { IsRising self.now.pairs }
    {
        self.pairs.len()
    }

    /// Compares the number at place `i` with the given one, and counts one probe. Precondition: `i < len()`.
    pub fn probe(&self, i: usize, serial: Serial, probes: &mut Probes) -> Ordering
        requires { i < length self.now.pairs }
        ensures compared { result ≡ nat_cmp (number_at self.now.pairs i) serial }
        ensures counted { probes.new ≡ probes.old + 1 }
    {
        probes.add_one();
        self.pairs[i].0.cmp(&serial.0)
    }

    /// The key at place `i`. Precondition: `i < len()`.
    pub fn key(&self, i: usize) -> usize
        requires { i < length self.now.pairs }
        ensures { result ≡ key_at self.now.pairs i }
    {
        self.pairs[i].1
    }

    /// Appends a number with the key of its record. Precondition: it is larger than all in the list, and fewer records are kept than there
    /// is room for.
    pub fn push(&mut self, serial: Serial, key: usize)
        requires above { IsAbove self.old.pairs serial }
        requires room { length self.old.pairs < self.old.room + self.old.released }
        ensures { self.new ≡ record self.old { pairs = self.old.pairs ++ (serial, key) ∷ [] } }
    {
        self.pairs.push_back_reserved((serial.0, key));
    }

    /// A record was released, and these are left. Once as many were released as there is room for, the list is compacted: amortized
    /// constant time.
    pub(crate) fn release(&mut self, records: &Slab<Record>)
        ensures left { self.new ≡ after_release records.now.slots self.old }
        ensures room { self.new.room ≡ self.old.room }
        ensures rising { IsRising self.old.pairs }
    {
        let released = self.released + 1;
        if released < self.room {
            self.released = released;
        } else {
            self.pairs.retain(|pair| is_kept(records, pair));
            self.released = 0;
        }
    }
}

/// Whether the record at a pair's key has its number.
fn is_kept(records: &Slab<Record>, pair: &(u64, usize)) -> bool
    ensures { result ≡ is_current records.now.slots pair.now }
{
    match records.get(pair.1) {
        Some(record) => record.serial.0 == pair.0,
        None => false,
    }
}
