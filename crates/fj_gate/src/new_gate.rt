ghost use Rattle.std.specs.Prelude.{◌≡◌, ◌≤◌, ◌+◌, ℕ, [], All, IfOk, vec_len};
ghost use Rattle.std.specs.Arc.{arc_value};
ghost use Rattle.fj_rules.specs.declared.limits.TheConstants.{MAX_SUBMITTERS};
ghost use Rattle.fj_gate.specs.Ends.{new_entrant, new_closer};
ghost use Rattle.fj_gate.specs.Steps.{fresh, less_one};

use crate::closer::Closer;
use crate::entrant::Entrant;
use crate::word::{Part, Token, Word};
use fj_rules::OutOfMemory;
use std::alloc::{AllocError, Global};
use std::sync::Arc;

/// The most tickets that one entrant may draw.
pub const MAX_TICKETS: u32 = 65_536;

/// An open gate: an entrant for each submitter, and its closer. No ticket is drawn yet. Java has no counterpart.
///
/// `OutOfMemory` if an allocation fails, and no other error. No other call of this crate allocates.
///
/// Precondition: 1 to `MAX_SUBMITTERS` submitters, and `each`, the number of tickets that each of them may draw, from 1 to
/// [`MAX_TICKETS`].
pub fn gate(
    alloc: Global,
    submitters: u32,
    each: u32,
) -> Result<(Vec<Entrant>, Closer), OutOfMemory>
    requires submitters { (1 ≤ submitters) × (submitters ≤ MAX_SUBMITTERS) }
    requires each { (1 ≤ each) × (each ≤ MAX_TICKETS) }
    ensures most { MAX_TICKETS ≡ 65_536 }
    ensures closer { IfOk result (λ r. r.1 ≡ new_closer r.1.gate submitters) }
    ensures entrants { IfOk result (λ r. (vec_len r.0 ≡ submitters) × All (λ e. e ≡ new_entrant r.1.gate each) r.0.items) }
{
    let (word, mut token) = Word::of_words(alloc, &[0], &())?;
    let table = Arc::new(alloc, word)?;
    let mut entrants = Vec::with_capacity(alloc, submitters as usize)?;
    for _ in 0..submitters {
        let entrant = cut_off(&table, &mut token, each)?;
        entrants.push(entrant)?;
    }
    let closer = Closer {
        table,
        token,
        closed: None,
    };
    Ok((entrants, closer))
}

/// One more entrant: its part is split off the closer's token.
fn cut_off(table: &Arc<Word>, token: &mut Token, each: u32) -> Result<Entrant, AllocError>
    requires table { ((arc_value table.now).shared.table_id ≡ token.old.table_id) × (token.old.table_id.words ≡ 1) }
    requires token { (token.old.id ≡ 0) × (token.old.me.1 ≡ []) × ((parts : ℕ) × (token.old.me.0 ≡ fresh (parts + 1))) }
    requires each { each ≤ MAX_TICKETS }
    ensures token { IfOk result (λ e. (token.new.table_id ≡ token.old.table_id) × (token.new.id ≡ 0) × (token.new.me ≡ (less_one token.old.me.0, []))) }
    ensures entrant { IfOk result (λ e. e ≡ new_entrant token.old.table_id each) }
{
    let table = Arc::try_clone(table)?;
    let token = table.shared.split_seat::<Part>(token);
    Ok(Entrant {
        table,
        token,
        each,
        told: false,
    })
}
