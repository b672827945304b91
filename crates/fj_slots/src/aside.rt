ghost use Rattle.std.specs.Prelude.{◌≡◌, ◌<◌, ◌∷◌, [], ◌++◌, length, IfOk, ◌==◌, is_some};
ghost use Rattle.std.specs.List.{position_from};
ghost use Rattle.fj_slots.specs.Aside.{Takes, entry_in};

use fj_rules::Serial;
use std::alloc::{AllocError, Global};
use std::marker::Model;

/// An association list for few entries, by number.
#[derive(Drop)]
pub struct Aside<T> {
    items: Vec<(Serial, T)>,
    room: usize,
}

impl<T> Model for Aside<T> {
    ghost use Rattle.std.specs.Prelude.{◌≤◌, vec_capacity};
    ghost use Rattle.fj_slots.specs.Aside.{Listed};

    ghost Value = { Listed T };

    ghost view = { λ s. record { items = s.items.items; room = s.room } };

    ghost invariant = { λ s. s.room ≤ vec_capacity s.items };
}

impl<T: Drop> Aside<T> {
    /// An empty list with room for `room` entries. An error only if out of memory.
    pub fn new(alloc: Global, room: usize) -> Result<Aside<T>, AllocError>
        ensures { IfOk result (λ s. s ≡ record { items = []; room = room }) }
    {
        Ok(Aside {
            items: Vec::with_capacity(alloc, room)?,
            room,
        })
    }

    /// Appends an entry. Precondition: there is room.
    pub fn put(&mut self, number: Serial, item: T)
        requires { length self.old.items < self.old.room }
        ensures { self.new ≡ record { items = self.old.items ++ (number, item) ∷ []; room = self.old.room } }
    {
        self.items.push_reserved((number, item));
    }

    /// Takes out the first entry under a number.
    pub fn take(&mut self, number: Serial) -> Option<T>
        ensures room { self.new.room ≡ self.old.room }
        ensures taken { Takes self.old number result self.new }
    {
        match self.find(number) {
            Some(at) => {
                let (_, item) = self.items.remove(at);
                Some(item)
            }
            None => None,
        }
    }

    /// Whether there is an entry under a number.
    pub fn has(&self, number: Serial) -> bool
        ensures { result ≡ is_some (entry_in self.now.items number) }
    {
        self.find(number).is_some()
    }

    /// The index of the first entry under this number.
    fn find(&self, number: Serial) -> Option<usize>
        ensures { result ≡ position_from (λ x. x.0 == number) 0 self.now.items }
    {
        self.items.iter().position(|item| item.0 == number)
    }
}
