ghost use Rattle.std.specs.Prelude.{◌≡◌, [], ◌++◌, IfErr, IfOk, IfSome, List, Some, length, true};
ghost use mathlib.Core.List.{IsPrefix};
ghost use Rattle.fj_calls.specs.Cores.{AreParts, CoreState};
ghost use Rattle.fj_rules.specs.Epochs.{IsPast};
ghost use Rattle.fj_submitter.specs.Lanes.{lanes_of};
ghost use Rattle.fj_parts.specs.Parts.{AreNew};
ghost use Rattle.fj_parts.specs.Winding.{AreEmpty, has_terminated, submissions, tickets_of};
ghost use Rattle.fj_run.specs.Playing.{IsLeftOf, RunningState};

use crate::crew::{Lead, PoolCrew, Ran};
use crate::play::Play;
use crate::settings::Settings;
use crate::types::{Parts, Pool};
use crate::unused::Unused;
use fj_body::{Body, Turnstile};
use fj_crew::{Shared, run_all};
use fj_guarded::{Front, Naming};
use fj_parts::{History, Record};
use fj_rules::Refusal;
use fj_submitter::Submitters;
use std::alloc::Global;
use std::marker::Brand;
use std::sync::Wait;
use std::thread::Threads;

/// The outcome of a play.
#[derive(Drop)]
pub struct Played<B: Body, P, O> {
    /// The player.
    pub player: P,
    /// What it returned.
    pub out: O,
    /// What is left of the pool.
    pub record: Record<B>,
}

/// Opens a pool, starts a thread for each worker, and plays. After the play the pool is always shut down. Once all that was submitted was
/// run it is wound up. Returns the result of the play, the player and the pool's record. No thread outlives the call. In Java, from 19
/// on, `try (ForkJoinPool pool = new ForkJoinPool(n)) { .. }`.
///
/// The turnstile is called before the first turn of each body: `Open` blocks nobody.
///
/// `OutOfMemory` if an allocation fails or a thread cannot be started; then nothing is played, and the player comes back.
pub fn with_pool<B: Body + Send, P: Play<B> + Drop, T: Turnstile + Sync, R: Threads + Wait + Sync>(
    rt: &R,
    alloc: Global,
    settings: Settings,
    player: P,
    turnstile: &T,
) -> Result<Played<B, P, P::Out>, (Refusal, P)>
where
    B::Key: Send,
    B::Out: Send,
    ensures run { IfOk result (λ r. IsPast r.record.machine) }
    // The machine has the mode and the limits of the settings.
    ensures pool { IfOk result (λ r. r.record.machine.pool ≡ record { mode = settings.mode; limits = settings.limits }) }
    // The parts that were handed out, and then those of the record, are the history up to the last seal.
    ensures history { IfOk result (λ r. AreParts (r.record.archive.handed ++ r.record.archive.kept) r.record.machine) }
    ensures at_close { IfOk result (λ r. IfSome r.record.closed (λ n. r.record.admitted ≡ n)) }
    // As many were taken in as the machine accepted.
    ensures taken_in { IfOk result (λ r. length r.record.bookings.bookings ≡ submissions r.record.machine) }
    ensures terminated { IfOk result (λ r. r.record.terminated ≡ has_terminated r.record.closed r.record.machine) }
    ensures emptied { IfOk result (λ r. r.record.terminated ≡ true → AreEmpty r.record.lanes.items) }
    // What the player tells at the end of its play, by what it has seen then. The history goes on from there, up to the record.
    ensures told { IfOk result (λ r. (last : RunningState B B.Key B.Out) × P.told last r.out × IsLeftOf last r.record) }
    ensures err { IfErr result (λ e. e.0 ≡ Refusal.OutOfMemory) }
{
    let places = settings.limits().tasks();
    match new_parts(alloc, settings) {
        Ok(parts) => open_and_play::<B, Brand, P, T, R>(
            rt, alloc, parts, places, player, turnstile,
        ),
        Err(_) => Err((Refusal::OutOfMemory, player)),
    }
}

/// The parts of a new pool with these settings. Refused as `Parts::new` is.
fn new_parts<B: Body>(alloc: Global, settings: Settings) -> Result<Parts<B>, Refusal>
    ensures { IfOk result (λ parts. AreNew settings.mode settings.limits settings.lane_capacity settings.start parts) }
{
    Parts::new(
        alloc,
        settings.mode(),
        settings.limits(),
        settings.lane_capacity(),
        settings.start(),
    )
}

/// The same as `with_pool` with these parts, under this name. Preconditions: the name is that of the parts; nothing was submitted yet.
fn open_and_play<
    B: Body + Send,
    N: Naming + Send + Sync,
    P: Play<B> + Drop,
    T: Turnstile + Sync,
    R: Threads + Wait + Sync,
>(
    rt: &R,
    alloc: Global,
    parts: Parts<B>,
    places: u32,
    player: P,
    turnstile: &T,
) -> Result<Played<B, P, P::Out>, (Refusal, P)>
where
    B::Key: Send,
    B::Out: Send,
    requires gate { N.gate ≡ parts.closer.gate }
    requires lanes { N.lanes ≡ lanes_of parts.core.lanes }
    requires pool { N.pool ≡ parts.core.store.past.pool }
    requires hands { N.hands ≡ parts.pairs }
    requires log { N.log ≡ parts.log }
    requires unused { tickets_of parts.seats ≡ [] }
    ensures run { IfOk result (λ r. IsPast r.record.machine) }
    ensures pool { IfOk result (λ r. r.record.machine.pool ≡ N.pool) }
    ensures history { IfOk result (λ r. AreParts (r.record.archive.handed ++ r.record.archive.kept) r.record.machine) }
    ensures at_close { IfOk result (λ r. IfSome r.record.closed (λ n. r.record.admitted ≡ n)) }
    ensures taken_in { IfOk result (λ r. length r.record.bookings.bookings ≡ submissions r.record.machine) }
    ensures terminated { IfOk result (λ r. r.record.terminated ≡ has_terminated r.record.closed r.record.machine) }
    ensures emptied { IfOk result (λ r. r.record.terminated ≡ true → AreEmpty r.record.lanes.items) }
    ensures told { IfOk result (λ r. (last : RunningState B B.Key B.Out) × P.told last r.out × IsLeftOf last r.record) }
    ensures err { IfErr result (λ e. e.0 ≡ Refusal.OutOfMemory) }
{
    let Ok((pool, hands, submitters, closer)) = Pool::<B, N>::open(alloc, parts) else {
        return Err((Refusal::OutOfMemory, player));
    };
    let crew = PoolCrew {
        pool: &pool,
        rt,
        turnstile,
        places,
    };
    let lead = Lead {
        crew: &crew,
        unused: Unused {
            submitters: Submitters::new(submitters),
        },
        closer,
        player,
    };
    let Ran {
        player,
        played,
        submitters,
        closer,
    } = run_all(alloc, &Shared { crew: &crew, rt }, hands, lead);
    let (still, history) = pool.stand_still();
    let record = still.wind_up(submitters.into_all(), closer);
    let Some(out) = out_of(history, played) else {
        // An explicit drop is proved faster.
        drop(record);
        return Err((Refusal::OutOfMemory, player));
    };
    Ok(Played {
        player,
        out,
        record,
    })
}

/// What the player returned, if it played. Proves that what it had seen begins the history.
fn out_of<B: Body, N: Naming, O>(
    mut history: History<B, N>,
    played: Option<(O, Front<B, N>)>,
) -> Option<O>
    ensures { IfSome result (λ out. (seen : List (CoreState B B.Key B.Out)) × (played ≡ Some (out, seen)) × IsPrefix seen history) }
{
    let (out, mut front) = played?;
    history.begins_with(&mut front);
    Some(out)
}
