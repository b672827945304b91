ghost use Rattle.std.specs.Prelude.{◌≡◌, false, slice_index_or};

use std::marker::Model;

/// The largest number of places.
pub const MAX_PLACES: usize = 32;

/// A set of places.
#[derive(Clone, Copy)]
pub struct Places {
    pub(crate) chosen: [bool; MAX_PLACES],
}

impl Model for Places {
    ghost use Rattle.std.specs.Prelude.{Bool, List};

    ghost Value = { List Bool };

    ghost view = { λ p. p.chosen };

    ghost inverse = { λ chosen. record { chosen = chosen } };
}

impl Places {
    /// Whether this place is in the set.
    #[inline(always)]
    pub fn has(&self, place: usize) -> bool
        ensures { result ≡ slice_index_or self.now place false }
    {
        place < MAX_PLACES && self.chosen[place]
    }
}
