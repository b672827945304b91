ghost use Rattle.std.specs.Prelude.{◌≡◌, ◌<◌, ◌≤◌, ◌∷◌, [], ◌++◌, length, drop, vec_capacity, IfOk};
ghost use Rattle.std.specs.List.{remove};

use std::alloc::{AllocError, Global};
use std::marker::Model;

/// A list with fixed room, allocated in `new`.
///
/// Removing the first or the last moves no other; removing one in the middle moves the shorter side.
#[derive(Drop)]
pub struct Window<T> {
    // the list is all but the first `first` of these
    cells: Vec<T>,
    first: usize,
    room: usize,
}

impl<T> Model for Window<T> {
    ghost use Rattle.std.specs.Prelude.{◌≤◌, drop, length, vec_capacity};
    ghost use Rattle.fj_queues.specs.Windows.{Listed};

    ghost Value = { Listed T };

    ghost view = { λ w. record { list = drop w.first w.cells.items; room = w.room } };

    ghost invariant = { λ w. record {
      within : w.first ≤ length w.cells.items;
      fits : w.room ≤ vec_capacity w.cells;
    } };
}

impl<T: Copy> Window<T> {
    /// An empty list with this room.
    pub fn new(alloc: Global, room: usize) -> Result<Window<T>, AllocError>
        ensures { IfOk result (λ w. w ≡ record { list = []; room = room }) }
    {
        Ok(Window {
            // Twice the room: so the list is moved at most once in `room` pushes.
            cells: Vec::with_capacity(alloc, room.saturating_mul(2))?,
            first: 0,
            room,
        })
    }

    /// The list.
    pub fn as_slice(&self) -> &[T]
        ensures { result.now ≡ self.now.list }
    {
        &self.cells.as_slice()[self.first..]
    }

    /// Appends one. Precondition: there is room.
    pub fn push(&mut self, x: T)
        requires { length self.old.list < self.old.room }
        ensures { self.new ≡ record { list = self.old.list ++ x ∷ []; room = self.old.room } }
    {
        if self.cells.len() == self.cells.capacity() {
            drop_first(&mut self.cells, self.first);
            self.first = 0;
        }
        self.cells.push_reserved(x);
    }

    /// Removes what is at place `i`. Precondition: `i` is below the length.
    pub fn remove(&mut self, i: usize)
        requires { i < length self.old.list }
        ensures { self.new ≡ record { list = remove self.old.list i; room = self.old.room } }
    {
        let at = self.first + i;
        if i < self.cells.len() - 1 - at {
            self.cells.copy_within(self.first..at, self.first + 1);
            self.first += 1;
        } else {
            let _gone = self.cells.remove(at);
        }
    }

    /// Removes all.
    pub fn clear(&mut self)
        ensures { self.new ≡ record { list = []; room = self.old.room } }
    {
        self.cells.clear();
        self.first = 0;
    }
}

/// Drops the first `first`, and moves the others to the front.
fn drop_first<T: Copy>(cells: &mut Vec<T>, first: usize)
    requires { first ≤ length cells.old.items }
    ensures items { cells.new.items ≡ drop first cells.old.items }
    ensures room { vec_capacity cells.new ≡ vec_capacity cells.old }
{
    let len = cells.len();
    cells.copy_within(first..len, 0);
    cells.truncate(len - first);
}
