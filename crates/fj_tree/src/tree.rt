ghost use Rattle.std.specs.Prelude.{◌≡◌, ◌⊎◌, ◌<◌, ◌≤◌, ◌+◌, ◌^◌, [], Some, None, IfOk, IfSome, IfNone, OnOk, OnErr, option_copied, option_and_then, option_map};
ghost use Rattle.fj_tree.specs.Records.{count, record_at, record_of, handle_of, IsSound, IsGood, IsCompleter, ChangesOthers, HasNone, changed, with_status, with_place, with_added, made_spent};
ghost use Rattle.fj_tree.specs.Makes.{IsRefusedBy, add_refusal, make_refusal, parent_refusal, fresh, with_child_of};
ghost use Rattle.fj_rules.specs.Tasks.{parent_in, count_in};
ghost use Rattle.fj_tree.specs.Arrivals.{arrival_at, arrived};
ghost use Rattle.fj_tree.specs.declared.arrive.Arrived.TheVariants.{Spent, Early};

mod cancels;
mod closes;
mod pass_look;
mod pass_up;
mod paths;
mod relays;
mod releases;

use crate::arrive::Arrived;
use crate::handle::Handle;
use crate::hints::Hints;
use crate::kept::Kept;
use crate::lookup::search;
use crate::probes::Probes;
use crate::record::Record;
use fj_rules::{Kind, MAX_PENDING, OutOfMemory, Place, Refusal, Serial, Status};
use slab::Slab;
use std::alloc::Global;
use std::marker::Model;

/// The records of the kept tasks, all allocated in [`Tree::new`].
#[derive(Drop)]
pub struct Tree {
    records: Slab<Record>,
    /// The numbers of the records, by which they are found.
    kept: Kept,
    /// Guesses of keys, by number.
    hints: Hints,
    /// How many records were made so far: the number of the next one.
    made: u64,
    room: usize,
}

impl Model for Tree {
    ghost use Rattle.std.specs.Prelude.{◌≤◌};
    ghost use Rattle.fj_tree.specs.Kept.{IsAbove, IsIndex};
    ghost use Rattle.fj_tree.specs.Records.{Records, IsSound};

    ghost Value = { Records };

    ghost view = { λ t. record { slots = t.records.slots; made = t.made; room = t.room } };

    ghost invariant = { λ t. record {
      sound : IsSound (record { slots = t.records.slots; made = t.made; room = t.room });
      records_fit : t.room ≤ t.records.capacity;
      numbers_fit : t.room ≤ t.kept.room;
      indexed : IsIndex t.records.slots t.kept;
      above : IsAbove t.kept.pairs t.made;
    } };
}

impl Tree {
    /// A tree without records, with room for so many. An error only if out of memory.
    pub fn new(alloc: Global, room: usize) -> Result<Tree, OutOfMemory>
        ensures { IfOk result (λ t. t ≡ record { slots = []; made = 0; room = room }) }
    {
        let records = Slab::with_capacity(alloc, room)?;
        let kept = Kept::new(alloc, room)?;
        let hints = Hints::new(alloc)?;
        Ok(Tree {
            records,
            kept,
            hints,
            made: 0,
            room,
        })
    }

    /// How many records are kept.
    pub fn len(&self) -> usize
        ensures kept { result ≡ count self.now }
        ensures sound { IsSound self.now }
    {
        self.records.len()
    }

    /// The record that a handle names. None if the handle is not good.
    #[inline(always)]
    pub fn get(&self, h: Handle) -> Option<&Record>
        ensures { option_copied result ≡ record_of self.now h }
    {
        let found = self.records.get(h.key)?;
        if found.serial == h.serial {
            Some(found)
        } else {
            None
        }
    }

    /// Sets the status of a task. Precondition: a good handle.
    #[inline(always)]
    pub fn set_status(&mut self, h: Handle, status: Status)
        requires { IsGood self.old h }
        ensures { self.new ≡ changed self.old h.key (with_status status) }
    {
        self.records[h.key].status = status;
    }

    /// Sets the place of a task. Precondition: a good handle.
    #[inline(always)]
    pub fn set_place(&mut self, h: Handle, place: Place)
        requires { IsGood self.old h }
        ensures { self.new ≡ changed self.old h.key (with_place place) }
    {
        self.records[h.key].place = place;
    }

    /// The kept record of a number. None if the number was never given out, or its record is not kept.
    #[inline(always)]
    pub fn find(&self, serial: Serial) -> Option<Handle>
        ensures found { result ≡ handle_of self.now serial }
        ensures good { IfSome result (IsGood self.now) }
        ensures absent { IfNone result (HasNone self.now serial) }
        ensures sound { IsSound self.now }
    {
        // For the proof: the invariant says that the records are sound.
        let _ = &self.records;
        let guess = Handle {
            key: self.hints.key(serial),
            serial,
        };
        if self.get(guess).is_some() {
            return Some(guess);
        }
        let key = search(&self.kept, serial, &mut Probes::new())?;
        let found = Handle { key, serial };
        if self.get(found).is_some() {
            Some(found)
        } else {
            None
        }
    }

    /// The kept record of a handle's number: the handle itself where it is good. None if that number is not kept.
    #[inline(always)]
    pub fn renew(&self, h: Handle) -> Option<Handle>
        ensures found { result ≡ handle_of self.now h.serial }
        ensures good { IfSome result (IsGood self.now) }
        ensures sound { IsSound self.now }
    {
        let _ = &self.records;
        if self.get(h).is_some() {
            Some(h)
        } else {
            self.find(h.serial)
        }
    }

    /// The record of a handle's number. None if that number is not kept.
    #[inline(always)]
    pub fn look(&self, h: Handle) -> Option<&Record>
        ensures found { option_copied result ≡ option_and_then (record_of self.now) (handle_of self.now h.serial) }
        ensures sound { IsSound self.now }
    {
        let _ = &self.records;
        if let Some(record) = self.get(h) {
            return Some(record);
        }
        let found = self.find(h.serial)?;
        self.get(found)
    }

    /// Makes a completer spent. Precondition: a good handle of a completer.
    pub fn fire(&mut self, h: Handle)
        requires { IsCompleter self.old h }
        ensures { self.new ≡ changed self.old h.key made_spent }
    {
        self.records[h.key].fired = true;
    }

    /// What an arrival at a completer would do: the answer of [`Tree::arrive`]. Precondition: a good handle of a completer.
    pub fn arrival(&self, h: Handle) -> Arrived
        requires { IsCompleter self.now h }
        ensures { Some result ≡ option_map arrival_at (record_of self.now h) }
    {
        self.records[h.key].arrival()
    }

    /// Arrives at a completer. Precondition: a good handle of one.
    ///
    /// A spent or done one stays as it is, a pending count above 0 falls by one, a queued or held one stays as it is, and otherwise
    /// the completer becomes spent: it fires. The first of these cases that applies is answered. Place and status stay.
    ///
    /// It is what `CountedCompleter.tryComplete` does at one completer. In Java no arrival is early.
    pub fn arrive(&mut self, h: Handle) -> Arrived
        requires { IsCompleter self.old h }
        ensures answer { Some result ≡ option_map arrival_at (record_of self.old h) }
        ensures arrived { self.new ≡ changed self.old h.key (arrived result) }
        ensures stays { (result ≡ Spent) ⊎ (result ≡ Early) → self.new ≡ self.old }
    {
        self.records[h.key].arrive()
    }

    /// Raises a completer's pending count, and answers the new one. Refused, with nothing changed, as `Unknown` if the handle is not
    /// good, `NotCompleter` if it names a plain task, and `CountTooLarge` if the count would exceed [`MAX_PENDING`], in this order. It is
    /// `CountedCompleter.addToPendingCount`, with a bound.
    pub fn add(&mut self, h: Handle, n: u32) -> Result<u32, Refusal>
        ensures refused { IsRefusedBy (add_refusal self.old h n) result }
        ensures added { OnOk result (self.new ≡ changed self.old h.key (with_added n)) }
        ensures count { IfOk result (λ count. option_map (λ r. r.pending + n) (record_of self.old h) ≡ Some count) }
        ensures stays { OnErr result (self.new ≡ self.old) }
    {
        let key = h.key;
        let count = self.raised(h, n)?;
        self.records[key].pending = count;
        Ok(count)
    }

    /// The pending count after an addition. Refused as in [`Tree::add`].
    fn raised(&self, h: Handle, n: u32) -> Result<u32, Refusal>
        ensures refused { IsRefusedBy (add_refusal self.now h n) result }
        ensures good { OnOk result (IsGood self.now h) }
        ensures count { IfOk result (λ count. option_map (λ r. r.pending + n) (record_of self.now h) ≡ Some count) }
        ensures within { IfOk result (λ count. count ≤ MAX_PENDING) }
    {
        let Some(record) = self.get(h) else {
            return Err(Refusal::Unknown);
        };
        if !record.kind.is_completer() {
            return Err(Refusal::NotCompleter);
        }
        let count = u64::from(record.pending) + u64::from(n);
        if count > MAX_PENDING {
            return Err(Refusal::CountTooLarge);
        }
        Ok(count as u32)
    }

    /// Makes a task, with the next number. Refused, with nothing changed, as `Unknown` if the parent in the kind is not kept,
    /// `NotCompleter` if it is a plain task, `CountTooLarge` if the pending count is above [`MAX_PENDING`], and `TooManyTasks` if there
    /// is no room, in this order. Precondition: fewer than 2^63 makes so far.
    pub fn make(&mut self, kind: Kind, place: Place) -> Result<Handle, Refusal>
        requires { self.old.made < 2 ^ 63 }
        ensures refused { IsRefusedBy (make_refusal self.old kind) result }
        ensures stays { OnErr result (self.new ≡ self.old) }
        ensures number { IfOk result (λ h. h.serial ≡ self.old.made) }
        ensures made { OnOk result (self.new.made ≡ self.old.made + 1) }
        ensures room { self.new.room ≡ self.old.room }
        ensures vacant { IfOk result (λ h. record_at self.old h.key ≡ None) }
        ensures record { IfOk result (λ h. record_of self.new h ≡ Some (fresh self.old.made kind place)) }
        ensures others { IfOk result (λ h. ChangesOthers self.old self.new h.key (with_child_of (parent_in (Some kind)))) }
        ensures kept { OnOk result (count self.new ≡ count self.old + 1) }
    {
        let parent = self.parent(&kind)?;
        if u64::from(kind.count()) > MAX_PENDING {
            return Err(Refusal::CountTooLarge);
        }
        if self.records.len() >= self.room {
            return Err(Refusal::TooManyTasks);
        }
        Ok(self.insert(kind, place, parent))
    }

    /// The parent in a kind, if there is one. `Unknown` if it is not kept, `NotCompleter` if it is a plain task.
    fn parent(&self, kind: &Kind) -> Result<Option<Handle>, Refusal>
        ensures refused { IsRefusedBy (parent_refusal self.now (parent_in (Some kind.now))) result }
        ensures completer { IfOk result (λ parent. IfSome parent (IsCompleter self.now)) }
        ensures named { IfOk result (λ parent. option_map (λ h. h.serial) parent ≡ parent_in (Some kind.now)) }
    {
        let Some(serial) = kind.parent() else {
            return Ok(None);
        };
        let Some(h) = self.find(serial) else {
            return Err(Refusal::Unknown);
        };
        if self.records[h.key].kind.is_completer() {
            Ok(Some(h))
        } else {
            Err(Refusal::NotCompleter)
        }
    }

    /// Makes a task under a parent that was found before, with the next number. Precondition: [`Tree::make`] would not refuse it.
    #[inline(always)]
    pub fn insert(&mut self, kind: Kind, place: Place, parent: Option<Handle>) -> Handle
        requires made { self.old.made < 2 ^ 63 }
        requires room { count self.old < self.old.room }
        requires pending { count_in (Some kind) ≤ MAX_PENDING }
        requires named { option_map (λ h. h.serial) parent ≡ parent_in (Some kind) }
        requires completer { IfSome parent (IsCompleter self.old) }
        ensures number { result.serial ≡ self.old.made }
        ensures made { self.new.made ≡ self.old.made + 1 }
        ensures room { self.new.room ≡ self.old.room }
        ensures vacant { record_at self.old result.key ≡ None }
        ensures record { record_at self.new result.key ≡ Some (fresh self.old.made kind place) }
        ensures others { ChangesOthers self.old self.new result.key (with_child_of (parent_in (Some kind))) }
        ensures kept { count self.new ≡ count self.old + 1 }
    {
        let serial = Serial(self.made);
        let pending = kind.count();
        let key = self.records.insert_reserved(Record {
            serial,
            kind,
            place,
            status: Status::Undone,
            pending,
            fired: false,
            children: 0,
        });
        self.kept.push(serial, key);
        self.hints.put(serial, key);
        self.made += 1;
        if let Some(p) = parent {
            self.records[p.key].children += 1;
        }
        Handle { key, serial }
    }
}
