ghost use Rattle.std.specs.Prelude.{◌≡◌, []};

use crate::entry::Entry;
use crate::keeper::Keeper;
use crate::log::Log;
use crate::naming::Naming;
use crate::word::{Token, Word};
use std::alloc::{AllocError, Global};
use std::marker::{Model, PhantomData};

/// A new log, without an entry, that has no name yet. Contracts see which log it is.
pub struct Opened<E> {
    word: Word<E>,
    token: Token<E>,
}

impl<E> Model for Opened<E> {
    ghost use Rattle.std.specs.Prelude.{◌≡◌, []};
    ghost use Rattle.atomic_table.specs.Seated.{TableId};
    ghost use Rattle.fj_fronts.specs.Rule.{keeper_of};

    ghost Value = { TableId };

    ghost view = { λ o. o.token.table_id };

    ghost invariant = { λ o. record {
      place : o.word.shared.table_id ≡ o.token.table_id;
      one_word : o.token.table_id.words ≡ 1;
      knows : o.token.me ≡ (keeper_of [], []);
    } };
}

// By hand, since a derive would need `E: Drop` too.
impl<E> Drop for Opened<E> {
    fn drop(self) {
        let Opened { word: _, token: _ } = self;
    }
}

impl<E: Entry> Opened<E> {
    /// Opens a log. `AllocError` if an allocation fails; no other call of this crate allocates.
    pub fn new(alloc: Global) -> Result<Opened<E>, AllocError> {
        let (word, token) = Word::<E>::of_words(alloc, &[0], &())?;
        Ok(Opened { word, token })
    }

    /// The log under a name, and its keeper. Precondition: the name is that of this log.
    pub fn named<N: Naming>(self) -> (Log<E, N>, Keeper<E, N>)
        requires name { self ≡ N.log }
        ensures empty { result.1 ≡ [] }
    {
        let Opened { word, token } = self;
        let log = Log {
            word,
            of: PhantomData,
        };
        let keeper = Keeper {
            token,
            of: PhantomData,
        };
        (log, keeper)
    }
}
