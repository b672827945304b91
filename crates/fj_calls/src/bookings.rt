ghost use Rattle.std.specs.Prelude.{◌≡◌, ◌<◌, ◌∷◌, ◌++◌, [], length, true, IfOk, IsTrue, ◌↔◌, slice_get};
ghost use Rattle.fj_calls.specs.Booked.{HasTask, booked_under, marked};

use crate::booking::Booking;
use fj_gate::Ticket;
use fj_rules::{OutOfMemory, Serial};
use std::alloc::Global;
use std::marker::Model;

/// What was taken in, in order, indexed by ticket. Java has no counterpart: there a task is its own ticket.
#[derive(Drop)]
pub struct Bookings {
    list: Vec<Booking>,
    /// By ticket: the index of the first booking under it.
    first: Vec<Option<u32>>,
    room: u32,
}

impl Model for Bookings {
    ghost use Rattle.std.specs.Prelude.{◌≤◌, vec_capacity, length};
    ghost use Rattle.fj_calls.specs.Booked.{Booked, IsIndex};

    ghost Value = { Booked };

    ghost view = { λ b. record { bookings = b.list.items; room = b.room } };

    ghost invariant = { λ b. record {
      has_room : b.room ≤ vec_capacity b.list;
      within : length b.list.items ≤ b.room;
      index : IsIndex b.list.items b.first.items;
    } };
}

impl Bookings {
    /// No bookings, with room for `room` bookings, and for the tickets below that number. Refused only if out of memory.
    pub fn new(alloc: Global, room: u32) -> Result<Bookings, OutOfMemory>
        ensures { IfOk result (λ b. b ≡ record { bookings = []; room = room }) }
    {
        Ok(Bookings {
            list: Vec::with_capacity(alloc, room as usize)?,
            first: Vec::from_elem(alloc, None, room as usize)?,
            room,
        })
    }

    /// The number of bookings.
    pub fn len(&self) -> usize
        ensures { result ≡ length self.now.bookings }
    {
        self.list.len()
    }

    /// Whether there is room for one more.
    pub fn has_room(&self) -> bool
        ensures { IsTrue result ↔ (length self.now.bookings < self.now.room) }
    {
        self.list.len() < self.room as usize
    }

    /// Appends a booking. Precondition: there is room.
    pub fn push(&mut self, booking: Booking)
        requires { length self.old.bookings < self.old.room }
        ensures { self.new ≡ record self.old { bookings = self.old.bookings ++ booking ∷ [] } }
    {
        mark(&mut self.first, booking.ticket, self.list.len() as u32);
        self.list.push_reserved(booking);
    }

    /// The task that was taken in first under a ticket. None if none was.
    ///
    /// A gate of `room` admissions draws only tickets below `room`; others are found by a linear search.
    pub fn find(&self, ticket: Ticket) -> Option<Serial>
        ensures { result ≡ booked_under self.now.bookings ticket }
    {
        match entry(self.first.as_slice(), ticket) {
            Some(first) => {
                let place = first?;
                Some(self.list[place as usize].serial)
            }
            None => {
                let booking = self.list.iter().find(|booking| booking.ticket == ticket)?;
                Some(booking.serial)
            }
        }
    }

    /// Whether this task was taken in. It is found by binary search, since tasks are taken in by rising number.
    pub fn has_task(&self, t: Serial) -> bool
        ensures { result ≡ true → HasTask self.now.bookings t }
    {
        let place = self
            .list
            .as_slice()
            .partition_point(|booking| booking.serial.0 < t.0);
        match self.list.get(place) {
            Some(booking) => booking.serial == t,
            None => false,
        }
    }
}

/// The entry of the table for a ticket, if the table reaches it.
fn entry(first: &[Option<u32>], ticket: Ticket) -> Option<Option<u32>>
    ensures { result ≡ slice_get first.now ticket }
{
    first.get(ticket.0 as usize).copied()
}

/// Enters an index for a ticket, unless it has one or the table does not reach it.
fn mark(first: &mut Vec<Option<u32>>, ticket: Ticket, place: u32)
    ensures { first.new.items ≡ marked first.old.items ticket place }
{
    if let Some(known) = entry(first.as_slice(), ticket) {
        if known.is_none() {
            first[ticket.0 as usize] = Some(place);
        }
    }
}
