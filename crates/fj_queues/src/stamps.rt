use std::alloc::{AllocError, Global};

/// Stamps that rise, and the last stamp of each key.
///
/// They only make guesses, which are checked. So they need no invariant.
#[derive(Drop)]
pub struct Stamps {
    of_keys: Vec<u64>,
    newest: u64,
}

impl Stamps {
    /// No stamp was given to the keys below this number.
    pub fn new(alloc: Global, keys: usize) -> Result<Stamps, AllocError> {
        Ok(Stamps {
            of_keys: Vec::from_elem(alloc, 0, keys)?,
            newest: 0,
        })
    }

    /// Gives this key the next stamp.
    pub fn give(&mut self, key: usize) -> u64 {
        self.newest = self.newest.wrapping_add(1);
        if let Some(stamp) = self.of_keys.get_mut(key) {
            *stamp = self.newest;
        }
        self.newest
    }

    /// The last stamp of this key; 0 if it has none.
    pub fn last(&self, key: usize) -> u64 {
        match self.of_keys.get(key) {
            Some(stamp) => *stamp,
            None => 0,
        }
    }
}
