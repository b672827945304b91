use fj_rules::Serial;
use std::alloc::{AllocError, Global};

/// The number of cells of the table.
const CELLS: usize = 16_384;

/// Where to look first for the record of a number: the key of the last number put that is the same modulo `CELLS`.
///
/// It is a guess, which the record at the key confirms or not. So it needs no invariant.
#[derive(Drop)]
pub struct Hints {
    keys: Vec<u16>,
}

impl Hints {
    /// Nothing was put so far. An error only if out of memory.
    pub fn new(alloc: Global) -> Result<Hints, AllocError> {
        Ok(Hints {
            keys: Vec::from_elem(alloc, 0, CELLS)?,
        })
    }

    /// The key to look at first for a number.
    pub fn key(&self, serial: Serial) -> usize {
        match self.keys.get(cell_of(serial)) {
            Some(key) => usize::from(*key),
            None => 0,
        }
    }

    /// The record of this number was put at this key.
    pub fn put(&mut self, serial: Serial, key: usize) {
        if let Some(hint) = self.keys.get_mut(cell_of(serial)) {
            // Keys are below the room of a tree. One of more than 16 bits is truncated: a bad guess, which costs a search.
            *hint = (key % 65_536) as u16;
        }
    }
}

/// The cell of a number.
fn cell_of(serial: Serial) -> usize {
    (serial.0 % CELLS as u64) as usize
}
