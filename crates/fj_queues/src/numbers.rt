ghost use Rattle.std.specs.Prelude.{◌≡◌, ℕ, List, []};
ghost use Rattle.std.specs.Iterator.{YieldsFirst, item_count};

use crate::cells::Cell;
use fj_rules::Serial;
use std::marker::Model;

/// An iterator over the numbers of one queue, oldest first.
///
/// Contracts see the list of those that are left. In memory each has a cell of its own, linked to the next.
#[derive(Drop)]
pub struct Numbers<'a> {
    pub(crate) table: &'a [Cell],
    /// The cell of the first number left.
    pub(crate) next: Option<usize>,
    /// How many numbers are left.
    pub(crate) left: usize,
}

impl<'a> Model for Numbers<'a> {
    ghost use Rattle.std.specs.Prelude.{ℕ, List};
    ghost use Rattle.fj_queues.specs.Tables.{numbers_from, IsWalk};

    ghost Value = { List ℕ };

    ghost view = { λ n. numbers_from n.table.now n.left n.next };

    ghost invariant = { λ n. IsWalk n.table.now n.next n.left };
}

impl<'a> Numbers<'a> {
    /// No numbers, as for an unknown owner.
    pub fn none() -> Numbers<'a>
        ensures { result ≡ [] }
    {
        Numbers {
            table: &[],
            next: None,
            left: 0,
        }
    }
}

impl<'a> Iterator for Numbers<'a> {
    type Item = Serial;

    ghost next_gives = { YieldsFirst (λ (numbers : List ℕ). numbers) };

    ghost remaining = { item_count (λ (numbers : List ℕ). numbers) };

    fn next(&mut self) -> Option<Serial> {
        let cell = self.table[self.next?];
        self.next = cell.newer;
        self.left -= 1;
        Some(cell.serial)
    }

    fn size_hint(&self) -> (usize, Option<usize>) {
        (self.left, Some(self.left))
    }
}
