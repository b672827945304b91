ghost use Rattle.std.specs.Prelude.{◌≡◌, ◌<◌, true, length, IfOk, IfErr};
ghost use Rattle.fj_gate.specs.Ends.{Draws, Looked};

use crate::look::Look;
use crate::ticket::{Closed, Ticket};
use crate::word::{Admit, EntrantLook, Token, Word};
use std::marker::Model;
use std::sync::Arc;

/// A submitter's end of a gate. It draws tickets until the gate is closed. Java has no counterpart.
#[derive(Drop)]
pub struct Entrant {
    pub(crate) table: Arc<Word>,
    pub(crate) token: Token,
    /// How many tickets it may draw. No code reads it, only the precondition of `admit`.
    pub(crate) each: u32,
    /// Whether it has seen Closed: then it never asks the word for a ticket again.
    pub(crate) told: bool,
}

impl Model for Entrant {
    ghost use Rattle.std.specs.Prelude.{◌≡◌, ◌+◌, ◌<◌, ◌≤◌, true, false, []};
    ghost use Rattle.std.specs.Arc.{arc_value};
    ghost use Rattle.fj_gate.specs.declared.new_gate.TheConstants.{MAX_TICKETS};
    ghost use Rattle.fj_gate.specs.Ends.{EntrantState};

    ghost Value = { EntrantState };

    ghost view = { λ e. record { gate = e.token.table_id; drawn = e.token.me.0.drawn; told = e.told; seen = e.token.me.0.seen; each = e.each } };

    ghost invariant = { λ e. record {
      place : (arc_value e.table).shared.table_id ≡ e.token.table_id;
      one_word : e.token.table_id.words ≡ 1;
      no_slot : e.token.me.1 ≡ [];
      own_part : e.token.me.0.parts ≡ 1;
      most : e.each ≤ MAX_TICKETS;
      untold : e.told ≡ false → (e.token.me.0.told ≡ 0) × (e.token.me.0.heard ≡ 0);
      told : e.told ≡ true → 0 < e.token.me.0.told + e.token.me.0.heard;
    } };
}

impl Entrant {
    /// Draws the next ticket, by one `fetch_add`. No other entrant draws the same one.
    ///
    /// `Closed` if the gate was closed; if this entrant had seen that before, the word is not touched. Java's counterpart is
    /// `RejectedExecutionException` of `ForkJoinPool.submit` after a shutdown; Java has no tickets.
    ///
    /// Precondition: it has drawn fewer than `each` tickets. Refusals do not count.
    pub fn admit(&mut self) -> Result<Ticket, Closed>
        requires { length self.old.drawn < self.old.each }
        ensures stays { (self.new.gate ≡ self.old.gate) × (self.new.each ≡ self.old.each) }
        ensures ticket { IfOk result (λ t. Draws self.old t self.new) }
        ensures closed { IfErr result (λ _. self.new ≡ record self.old { told = true }) }
    {
        if self.told {
            return Err(Closed);
        }
        // Before: 2n, and this admission is number n. Or odd: closed, and the 2 only counts this refusal.
        let found = self.table.shared.fetch_add::<Admit>(&mut self.token, 0, 2);
        if found % 2 == 0 {
            Ok(Ticket(found / 2))
        } else {
            self.told = true;
            Err(Closed)
        }
    }

    /// Queries the gate, by one load. Its `Closed` corresponds to `ForkJoinPool.isShutdown`.
    ///
    /// `Open` has the number of admissions, which is at least the count that this entrant has seen, its own tickets included. After a
    /// `Closed` it never returns `Open`, and draws no ticket.
    pub fn look(&mut self) -> Look
        ensures stays { (self.new.gate ≡ self.old.gate) × (self.new.each ≡ self.old.each) × (self.new.drawn ≡ self.old.drawn) }
        ensures answer { Looked self.old result self.new }
    {
        // 2n: n were admitted. Or odd: closed. The word stays.
        let found = self.table.shared.load::<EntrantLook>(&mut self.token, 0);
        if found % 2 == 0 {
            Look::Open(found / 2)
        } else {
            self.told = true;
            Look::Closed
        }
    }
}
