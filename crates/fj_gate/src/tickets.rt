ghost use Rattle.std.specs.Prelude.{◌≡◌, ◌≤◌, ◌+◌, [], ◌++◌, false, All, IfSome, None, vec_len};
ghost use Rattle.std.specs.Arc.{arc_value};
ghost use Rattle.fj_gate.specs.Numbers.{IsNumbersBelow};
ghost use Rattle.fj_gate.specs.Ends.{drawn_by};

use crate::closer::Closer;
use crate::entrant::Entrant;
use crate::word::{LastLook, Part, Token, Word};
use std::sync::Arc;

/// The tickets of a gate and its closing number. Java has no counterpart.
#[derive(Clone, Copy, Debug, PartialEq)]
pub struct Tickets {
    /// How many tickets were drawn, from 0 to submitters times `each`, which is at most 2,097,152.
    pub drawn: u64,
    /// The number at which the gate was closed, if it was.
    pub closed: Option<u64>,
}

/// Takes all ends of a gate back. It allocates nothing and never blocks. Java has no counterpart.
///
/// The tickets that the entrants drew are the numbers below `drawn`, each once, and `drawn` is the closing number if the gate was
/// closed. If it was not, no entrant has seen Closed. No end had seen more admissions than `drawn`.
///
/// Precondition: these are ends of one gate, with as many entrants as were made.
pub fn meet(entrants: Vec<Entrant>, closer: Closer) -> Tickets
    requires same { All (λ e. e.gate ≡ closer.gate) entrants.items }
    requires all { vec_len entrants ≡ closer.submitters }
    ensures numbers { IsNumbersBelow result.drawn (drawn_by entrants.items) }
    ensures closed { result.closed ≡ closer.closed }
    ensures at_close { IfSome result.closed (λ n. result.drawn ≡ n) }
    ensures told { result.closed ≡ None → All (λ e. e.told ≡ false) entrants.items }
    ensures seen { (closer.seen ≤ result.drawn) × All (λ e. e.seen ≤ result.drawn) entrants.items }
{
    let Closer {
        table,
        mut token,
        closed,
    } = closer;
    for entrant in entrants {
        take_in(&table, &mut token, entrant);
    }
    // 2n: n were admitted. Or odd: the closing number is known, and the word counts refusals beyond it.
    let found = table.shared.load::<LastLook>(&mut token, 0);
    let drawn = match closed {
        Some(count) => count,
        None => found / 2,
    };
    Tickets { drawn, closed }
}

/// Joins an entrant's token, with what it drew and saw, to the closer's.
fn take_in(table: &Arc<Word>, token: &mut Token, entrant: Entrant)
    requires table { ((arc_value table.now).shared.table_id ≡ token.old.table_id) × (token.old.table_id.words ≡ 1) × (entrant.gate ≡ token.old.table_id) }
    requires token { (token.old.id ≡ 0) × (token.old.me.1 ≡ []) }
    ensures token { (token.new.table_id ≡ token.old.table_id) × (token.new.id ≡ 0) × (token.new.me.1 ≡ []) }
    ensures stays { (token.new.me.0.parts ≡ token.old.me.0.parts + 1) × (token.new.me.0.closed ≡ token.old.me.0.closed) }
    ensures drawn { token.new.me.0.drawn ≡ token.old.me.0.drawn ++ entrant.drawn }
    ensures seen { (token.old.me.0.seen ≤ token.new.me.0.seen) × (entrant.seen ≤ token.new.me.0.seen) }
    ensures told { token.new.me.0.told + token.new.me.0.heard ≡ 0 → (token.old.me.0.told + token.old.me.0.heard ≡ 0) × (entrant.told ≡ false) }
{
    let Entrant {
        table: _,
        token: other,
        each: _,
        told: _,
    } = entrant;
    table.shared.join_seat::<Part>(token, other);
}
