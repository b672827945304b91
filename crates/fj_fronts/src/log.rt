use crate::naming::Naming;
use crate::word::Word;
use std::marker::{Model, PhantomData};

/// The log, which threads share by reference. It is one word that never changes.
pub struct Log<E, N: Naming> {
    pub(crate) word: Word<E>,
    pub(crate) of: PhantomData<N>,
}

// No ghost field says this: a struct with such a field could not be one of another struct under a name that a generic `impl` gives.
impl<E, N: Naming> Model for Log<E, N> {
    ghost use Rattle.std.specs.Prelude.{◌≡◌};
    ghost use Rattle.atomic_table.specs.Seated.{TableId};

    ghost Value = { TableId };

    ghost view = { λ l. l.word.shared.table_id };

    ghost invariant = { λ l. record {
      place : l.word.shared.table_id ≡ N.log;
      one_word : N.log.words ≡ 1;
    } };
}

// By hand, since a derive would need `E: Drop` too.
impl<E, N: Naming> Drop for Log<E, N> {
    fn drop(self) {
        let Log { word: _, of: _ } = self;
    }
}
