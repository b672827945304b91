ghost use Rattle.std.specs.Prelude.{◌≡◌};
ghost use Rattle.fj_gate.specs.Ends.{Watched, ClosedBy};

use crate::look::Look;
use crate::word::{Close, CloserLook, Token, Word};
use std::marker::Model;
use std::sync::Arc;

/// The answer of a close: the closing number, which is the number of admissions before it, at most 2,097,152. Java's `shutdown` returns
/// nothing.
#[derive(Clone, Copy, Debug, PartialEq)]
pub enum Closing {
    /// This call has closed the gate.
    First(u64),
    /// An earlier call had closed it, at this number.
    Already(u64),
}

/// The end that closes a gate. There is one. Java has no counterpart: it lets any thread shut a pool down.
#[derive(Drop)]
pub struct Closer {
    pub(crate) table: Arc<Word>,
    pub(crate) token: Token,
    /// The closing number: it cannot be read off the word again.
    pub(crate) closed: Option<u64>,
}

impl Model for Closer {
    ghost use Rattle.std.specs.Prelude.{◌≡◌, ◌-◌, ◌≤◌, []};
    ghost use Rattle.std.specs.Arc.{arc_value};
    ghost use Rattle.fj_rules.specs.declared.limits.TheConstants.{MAX_SUBMITTERS};
    ghost use Rattle.fj_gate.specs.Ends.{CloserState};

    ghost Value = { CloserState };

    // The parts that it does not have are the entrants'.
    ghost view = { λ c. record { gate = c.token.table_id; closed = c.closed; seen = c.token.me.0.seen; submitters = MAX_SUBMITTERS - c.token.me.0.parts } };

    ghost invariant = { λ c. record {
      place : (arc_value c.table).shared.table_id ≡ c.token.table_id;
      one_word : c.token.table_id.words ≡ 1;
      first_seat : c.token.id ≡ 0;
      no_slot : c.token.me.1 ≡ [];
      parts : c.token.me.0.parts ≤ MAX_SUBMITTERS;
      draws_nothing : c.token.me.0.drawn ≡ [];
      closed : c.token.me.0.closed ≡ c.closed;
    } };
}

impl Closer {
    /// Closes the gate, by one `fetch_or`: from then on no ticket is drawn. It follows `ForkJoinPool.shutdown`.
    ///
    /// The first call returns `First` with the number of admissions so far, every later one `Already` with that number. It is at least the
    /// count that this end has seen.
    pub fn close(&mut self) -> Closing
        ensures stays { (self.new.gate ≡ self.old.gate) × (self.new.submitters ≡ self.old.submitters) }
        ensures answer { ClosedBy self.old result self.new }
    {
        // Before: 2n, and n is the closing number; after: odd, permanently. Or odd already: the word stays.
        let found = self.table.shared.fetch_or::<Close>(&mut self.token, 0, 1);
        match self.closed {
            None => {
                let count = found / 2;
                self.closed = Some(count);
                Closing::First(count)
            }
            Some(count) => Closing::Already(count),
        }
    }

    /// Queries the gate, by one load. Its `Closed` corresponds to `ForkJoinPool.isShutdown`.
    ///
    /// `Open` has the number of admissions, which is at least the count that this end has seen. `Closed` comes exactly after a close.
    pub fn look(&mut self) -> Look
        ensures stays { (self.new.gate ≡ self.old.gate) × (self.new.submitters ≡ self.old.submitters) × (self.new.closed ≡ self.old.closed) }
        ensures answer { Watched self.old result self.new }
    {
        // 2n: n were admitted. Or odd: closed. The word stays.
        let found = self.table.shared.load::<CloserLook>(&mut self.token, 0);
        if found % 2 == 0 {
            Look::Open(found / 2)
        } else {
            Look::Closed
        }
    }
}
