ghost use Rattle.std.specs.Prelude.{◌≡◌, ◌==◌, ◌<◌, ◌≤◌, ◌∷◌, [], ◌++◌, length, false, IfOk, MatchOption, slice_get, Some};
ghost use Rattle.std.specs.List.{position};
ghost use Rattle.fj_rules.specs.Lists.{is_in, times_in, without};

use crate::stamps::Stamps;
use crate::window::Window;
use fj_rules::Serial;
use std::alloc::{AllocError, Global};
use std::marker::Model;

/// The numbers of the open tasks, in the order in which they became open. All memory is allocated in `new`.
///
/// A number is found without a walk. Mostly it is the first or the last one. Each also has a stamp, and the stamps rise along the list, so
/// a binary search for the last stamp of its key finds any other one. A record keeps its key while its task is open, so the number at
/// that place is the right one. No proof needs that: if another number were there, a walk would find the right one.
#[derive(Drop)]
pub struct OpenTasks {
    tasks: Window<Serial>,
    // their stamps, in the same order
    stamps: Window<u64>,
    given: Stamps,
}

impl Model for OpenTasks {
    ghost use Rattle.std.specs.Prelude.{ℕ, ◌≡◌, length};
    ghost use Rattle.fj_queues.specs.Windows.{Listed};

    ghost Value = { Listed ℕ };

    ghost view = { λ o. o.tasks };

    ghost invariant = { λ o. record {
      each_stamped : length o.stamps.list ≡ length o.tasks.list;
      same_room : o.stamps.room ≡ o.tasks.room;
    } };
}

impl OpenTasks {
    /// An empty list with room for so many, under keys below that number.
    pub fn new(alloc: Global, room: usize) -> Result<OpenTasks, AllocError>
        ensures { IfOk result (λ o. o ≡ record { list = []; room = room }) }
    {
        Ok(OpenTasks {
            tasks: Window::new(alloc, room)?,
            stamps: Window::new(alloc, room)?,
            given: Stamps::new(alloc, room)?,
        })
    }

    /// The numbers, in their order.
    pub fn as_slice(&self) -> &[Serial]
        ensures { result.now ≡ self.now.list }
    {
        self.tasks.as_slice()
    }

    /// Appends the number of a task, with the key of its record. Precondition: there is room.
    pub fn push(&mut self, t: Serial, key: usize)
        requires { length self.old.list < self.old.room }
        ensures { self.new ≡ record { list = self.old.list ++ t ∷ []; room = self.old.room } }
    {
        self.tasks.push(t);
        self.stamps.push(self.given.give(key));
    }

    /// Removes the number of a task, if it is there, by the key of its record. Precondition: it is there once at most.
    pub fn remove(&mut self, t: Serial, key: usize)
        requires { times_in t self.old.list ≤ 1 }
        ensures { self.new ≡ record { list = without self.old.list (t ∷ []); room = self.old.room } }
    {
        if let Some(i) = self.place(t, key) {
            self.tasks.remove(i);
            self.stamps.remove(i);
        }
    }

    /// Removes all numbers.
    pub fn clear(&mut self)
        ensures { self.new ≡ record { list = []; room = self.old.room } }
    {
        self.tasks.clear();
        self.stamps.clear();
    }

    /// The place of a number, if it is there.
    fn place(&self, t: Serial, key: usize) -> Option<usize>
        ensures { MatchOption result (is_in t self.now.list ≡ false) (λ i. slice_get self.now.list i ≡ Some t) }
    {
        let tasks = self.as_slice();
        if tasks.first() == Some(&t) {
            return Some(0);
        }
        if tasks.last() == Some(&t) {
            return Some(tasks.len() - 1);
        }
        if let Ok(i) = self.stamps.as_slice().binary_search(&self.given.last(key)) {
            if tasks.get(i) == Some(&t) {
                return Some(i);
            }
        }
        walk(tasks, t)
    }
}

/// The first place of a number.
fn walk(ts: &[Serial], t: Serial) -> Option<usize>
    ensures { result ≡ position (λ u. u == t) ts.now }
{
    ts.iter().position(|u| *u == t)
}
