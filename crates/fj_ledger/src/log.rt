ghost use Rattle.std.specs.Prelude.{◌≡◌, ◌<◌, ◌≤◌, ◌+◌, ◌∷◌, [], ◌++◌, length, nat_lt, vec_capacity, IfOk, OnOk, OnErr};
ghost use Rattle.fj_rules.specs.Allowed.{is_close, is_stop, is_closed, is_stopped};

use fj_rules::{Event, InnerTypes, MAX_EVENTS_AND_SEALS};
use std::alloc::{AllocError, Global};
use std::marker::Model;
use std::mem;
use std::snapshot::Snapshot;

/// A history with room for so many events since the last seal. Only these are in memory.
///
/// Sealed events were handed out. Only proofs read them here.
#[derive(Drop)]
pub struct Log {
    // the log before the last seal, of size zero
    before: Option<Snapshot<Log>>,
    events: Vec<Event>,
    room: usize,
    closed: bool,
    stopped: bool,
    // how many events were sealed, and how often
    sealed: u64,
    seals: u64,
}

impl Model for Log {
    ghost use Rattle.std.specs.Prelude.{◌≡◌, ◌≤◌, ◌+◌, ◌++◌, length, vec_capacity, option_map};
    ghost use Rattle.fj_rules.specs.declared.epoch.TheConstants.{MAX_EVENTS_AND_SEALS};
    ghost use Rattle.fj_rules.specs.Allowed.{is_closed, is_stopped};
    ghost use Rattle.fj_ledger.specs.Logs.{Logged, sealed_in, seals_in};

    ghost Value = { Logged };

    ghost view = { λ l. record {
      sealed = sealed_in (option_map (λ s. s.value) l.before);
      events = sealed_in (option_map (λ s. s.value) l.before) ++ l.events.items;
      room = l.room;
      seals = l.seals;
    } };

    ghost invariant = { λ l. record {
      fits : l.room ≤ vec_capacity l.events;
      closed : l.closed ≡ is_closed (sealed_in (option_map (λ s. s.value) l.before) ++ l.events.items);
      stopped : l.stopped ≡ is_stopped (sealed_in (option_map (λ s. s.value) l.before) ++ l.events.items);
      sealed : l.sealed ≡ length (sealed_in (option_map (λ s. s.value) l.before));
      seals : l.seals ≡ seals_in (option_map (λ s. s.value) l.before);
      few : l.sealed + l.seals ≤ MAX_EVENTS_AND_SEALS + 1;
    } };

    // a log that was sealed had fewer seals
    ghost size = { λ v. v.seals };
}

impl Log {
    /// A log without events, with room for so many.
    pub fn new(alloc: Global, room: usize) -> Result<Log, AllocError>
        ensures { IfOk result (λ l. l ≡ record { sealed = []; events = []; room = room; seals = 0 }) }
    {
        Ok(Log {
            before: None,
            events: Vec::with_capacity(alloc, room)?,
            room,
            closed: false,
            stopped: false,
            sealed: 0,
            seals: 0,
        })
    }

    /// How many events there were since the last seal.
    #[inline(always)]
    pub fn len(&self) -> usize
        ensures { length self.now.events ≡ length self.now.sealed + result }
    {
        self.events.len()
    }

    /// The events since the last seal, the first one first.
    pub fn events(&self) -> &[Event]
        ensures { self.now.events ≡ self.now.sealed ++ result.now }
    {
        self.events.as_slice()
    }

    /// How many seals there were.
    pub fn seals(&self) -> u64
        ensures { result ≡ self.now.seals }
    {
        self.seals
    }

    /// Whether the events and the seals are too many for one more seal.
    pub fn is_worn(&self) -> bool
        ensures { result ≡ nat_lt MAX_EVENTS_AND_SEALS (length self.now.events + self.now.seals) }
    {
        let before = self.sealed + self.seals;
        MAX_EVENTS_AND_SEALS < before || MAX_EVENTS_AND_SEALS - before < self.events.len() as u64
    }

    /// Seals all events: hands out those since the last seal. An error (out of memory) changes nothing. Precondition: not `is_worn`.
    pub fn seal(&mut self, alloc: Global) -> Result<Vec<Event>, AllocError>
        requires few { length self.old.events + self.old.seals ≤ MAX_EVENTS_AND_SEALS }
        ensures part { IfOk result (λ part. self.old.events ≡ self.old.sealed ++ part.items) }
        ensures sealed { OnOk result (self.new ≡ record self.old { sealed = self.old.events; seals = self.old.seals + 1 }) }
        ensures stays { OnErr result (self.new ≡ self.old) }
    {
        let before = Snapshot::of(&*self);
        let part = take_all(alloc, &mut self.events, self.room)?;
        self.sealed += part.len() as u64;
        self.seals += 1;
        self.before = Some(before);
        Ok(part)
    }

    /// Whether there was a shutdown.
    pub fn is_closed(&self) -> bool
        ensures { result ≡ is_closed self.now.events }
    {
        self.closed
    }

    /// Whether there was a stop.
    pub fn is_stopped(&self) -> bool
        ensures { result ≡ is_stopped self.now.events }
    {
        self.stopped
    }

    /// Appends an event. Precondition: there is room for it.
    #[inline(always)]
    pub fn push(&mut self, event: Event)
        requires { length self.old.events < length self.old.sealed + self.old.room }
        ensures { self.new ≡ record self.old { events = self.old.events ++ event ∷ [] } }
    {
        // For the proof: see `InnerTypes`.
        let _inside: Option<InnerTypes> = None;
        self.closed |= is_close(&event);
        self.stopped |= is_stop(&event);
        self.events.push_reserved(event);
    }
}

/// Takes all events out of a list, which keeps the same room. An error changes nothing.
///
/// A buffer more than half full is handed out itself; fewer events are copied. So no part has room for more than twice its events,
/// and at most half of a room is copied.
fn take_all(alloc: Global, events: &mut Vec<Event>, room: usize) -> Result<Vec<Event>, AllocError>
    requires { room ≤ vec_capacity events.old }
    ensures taken { IfOk result (λ part. part.items ≡ events.old.items) }
    ensures empty { OnOk result (events.new.items ≡ []) }
    ensures room { room ≤ vec_capacity events.new }
    ensures stays { OnErr result (events.new.items ≡ events.old.items) }
{
    if room / 2 < events.len() {
        let empty = Vec::with_capacity(alloc, room)?;
        return Ok(mem::replace(events, empty));
    }
    let part = Vec::from_slice(alloc, events.as_slice())?;
    events.clear();
    Ok(part)
}

/// Whether the event is a shutdown.
#[inline(always)]
fn is_close(event: &Event) -> bool
    ensures { result ≡ is_close event.now }
{
    matches!(event, Event::Close)
}

/// Whether the event is a stop.
#[inline(always)]
fn is_stop(event: &Event) -> bool
    ensures { result ≡ is_stop event.now }
{
    matches!(event, Event::Stop)
}
