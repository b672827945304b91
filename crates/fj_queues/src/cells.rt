ghost use Rattle.std.specs.Prelude.{◌≡◌, ◌<◌, ◌≤◌, [], Some, None, length, IfOk, IfSome, vec_capacity};

use fj_rules::Serial;
use std::alloc::{AllocError, Global};

/// A node of a doubly linked list: a number in a queue, and the cells of its neighbours there.
///
/// A free cell still has the number that was taken out of it, and the next free cell as its newer neighbour.
#[derive(Clone, Copy)]
pub struct Cell {
    pub serial: Serial,
    pub older: Option<usize>,
    pub newer: Option<usize>,
}

/// The cells of all queues in one table, each named by its index.
///
/// The table is allocated for all cells at the start. A cell is written when it is first used, so a new table takes no time to fill.
#[derive(Drop)]
pub struct Cells {
    pub table: Vec<Cell>,
    /// The head of the free list: cells given back, which are reused first.
    pub free: Option<usize>,
}

impl Cell {
    /// A number without neighbours.
    pub fn alone(serial: Serial) -> Cell
        ensures { result ≡ record { serial = serial; older = None; newer = None } }
    {
        Cell {
            serial,
            older: None,
            newer: None,
        }
    }
}

impl Cells {
    ghost use Rattle.fj_queues.specs.Cells.{IsWritten, AreJoined, NextFree, freed, serial_at};

    /// No cells, with room for so many. An error only if out of memory.
    pub fn with_capacity(alloc: Global, room: usize) -> Result<Cells, AllocError>
        ensures empty { IfOk result (λ cells. cells.table.items ≡ []) }
        ensures free { IfOk result (λ cells. cells.free ≡ None) }
        ensures room { IfOk result (λ cells. room ≤ vec_capacity cells.table) }
    {
        Ok(Cells {
            table: Vec::with_capacity(alloc, room)?,
            free: None,
        })
    }

    /// Writes the first free cell, or a new one if none is free, and answers its number. Allocates nothing. Precondition: a cell is free,
    /// or there is room for a new one.
    pub fn fill(&mut self, cell: Cell) -> usize
        requires free { IfSome self.old.free (λ c. c < length self.old.table.items) }
        requires room { self.old.free ≡ None → length self.old.table.items < vec_capacity self.old.table }
        ensures written { IsWritten self.old.table.items self.new.table.items result cell }
        ensures next { NextFree self.old.table.items self.new.table.items self.old.free self.new.free result }
        ensures capacity { vec_capacity self.new.table ≡ vec_capacity self.old.table }
    {
        let Some(number) = self.free else {
            let number = self.table.len();
            self.table.push_reserved(cell);
            return number;
        };
        self.free = self.table[number].newer;
        self.table[number] = cell;
        number
    }

    /// Makes a cell the first free one, and answers the number in it.
    pub fn give_back(&mut self, number: usize) -> Serial
        requires { number < length self.old.table.items }
        ensures serial { result ≡ serial_at self.old.table.items number }
        ensures written { IsWritten self.old.table.items self.new.table.items number (freed self.old.table.items number self.old.free) }
        ensures len { length self.new.table.items ≡ length self.old.table.items }
        ensures first { self.new.free ≡ Some number }
        ensures capacity { vec_capacity self.new.table ≡ vec_capacity self.old.table }
    {
        self.table[number].newer = self.free;
        self.free = Some(number);
        self.table[number].serial
    }

    /// Links two cells as neighbours. Where one of them is none, the other is at that end of its queue.
    pub fn join(&mut self, older: Option<usize>, newer: Option<usize>)
        requires older { IfSome older (λ c. c < length self.old.table.items) }
        requires newer { IfSome newer (λ c. c < length self.old.table.items) }
        ensures joined { AreJoined self.old.table.items self.new.table.items older newer }
        ensures len { length self.new.table.items ≡ length self.old.table.items }
        ensures free { self.new.free ≡ self.old.free }
        ensures capacity { vec_capacity self.new.table ≡ vec_capacity self.old.table }
    {
        if let Some(number) = older {
            self.table[number].newer = newer;
        }
        if let Some(number) = newer {
            self.table[number].older = older;
        }
    }
}
