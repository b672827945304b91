ghost use Rattle.std.specs.Prelude.{◌≡◌, ◌+◌, ◌≤◌, ◌++◌, ◌∷◌, [], length, map, IfOk, vec_capacity, vec_len};
ghost use Rattle.std.specs.List.{filter_map};
ghost use Rattle.fj_rules.specs.Places.{gone};
ghost use Rattle.fj_rules.specs.Pasts.{fresh, present, gone_since};
ghost use Rattle.fj_rules.specs.Epochs.{Moves, MovesFrom, reply_in};
ghost use Rattle.fj_rules.specs.Headline.{IsInOnePlace, IsHandedOutOnce, LeftInOrder, NoneAfterShutdown, IsFiredOnce, FiredAtZero, FiresByCompleteOnlyOwn, RepliesTell};
ghost use Rattle.fj_rules.specs.Parts.{Fits, events_in, gone_in};
ghost use Rattle.fj_machine.specs.Handed.{handed, seals_in, shown};

use crate::machine::Machine;
use fj_rules::{Answer, InnerTypes, Limits, Mode, Move, OutOfMemory, Sealed};
use std::alloc::Global;

/// Runs steps and seals from the start: the machine after them, the parts that were handed out, and the answer to each move.
///
/// For every list of steps and seals the headline of the pool holds, of all parts together with the present one. The only error is
/// `OutOfMemory`, before the first move; that of a seal is the answer to it, and the list goes on: see [`make_moves`].
pub fn run_epochs(
    alloc: Global,
    mode: Mode,
    limits: Limits,
    moves: &[Move],
) -> Result<(Machine, Vec<Sealed>, Vec<Answer>), OutOfMemory>
    ensures pool { IfOk result (λ r. r.0.pool ≡ record { mode = mode; limits = limits }) }
    // Each step and each seal, refused or not, has its defined answer.
    ensures runs { IfOk result (λ r. MovesFrom (fresh mode limits) moves.now r.2.items r.0) }
    // The events of the parts, followed by the present ones, are the history.
    ensures events { IfOk result (λ r. r.0.events ≡ events_in r.1.items ++ present r.0) }
    // The gone tasks of the parts, followed by the present ones, are those of the history.
    ensures gone { IfOk result (λ r. gone r.0.events ≡ gone_in r.1.items ++ gone_since r.0) }
    // There is one part for each seal.
    ensures parts { IfOk result (λ r. length r.1.items ≡ r.0.seals) }
    // Each part has the events between its seal and the seal before it, and the tasks that became gone there.
    ensures handed { IfOk result (λ r. map shown r.1.items ≡ handed (fresh mode limits) moves.now r.2.items) }
    // Each accepted task is in exactly one place: one queue, one stack, among the open or among the gone tasks.
    ensures place { IfOk result (λ r. IsInOnePlace r.0.pool.limits r.0.events) }
    // Each task was handed out at most once.
    ensures handed_once { IfOk result (λ r. IsHandedOutOnce r.0.events) }
    // The tasks of each submitter and of each worker left its queue in the order pushed; in joining mode those of each submitter.
    ensures order { IfOk result (λ r. LeftInOrder r.0.pool.mode r.0.events) }
    // No submission was accepted after a shutdown.
    ensures shutdown { IfOk result (λ r. NoneAfterShutdown r.0.events) }
    // The `onCompletion` of each completer was handed out at most once.
    ensures fired_once { IfOk result (λ r. IsFiredOnce r.0.events) }
    // Unless `complete` handed it out, the pending count over the events before was zero.
    ensures fired_at_zero { IfOk result (λ r. FiredAtZero r.0.events) }
    // `complete` hands out an `onCompletion` only where the body of the running task ends by it, and only that task's own.
    ensures completes { IfOk result (λ r. FiresByCompleteOnlyOwn r.0.pool) }
    // The replies `task` are the tasks accepted, one for one and in order; so are `run` the tasks handed out, `hook` the `onCompletion`s.
    ensures replies { IfOk result (λ r. RepliesTell r.0.events (filter_map reply_in r.2.items)) }
{
    let mut parts = Vec::with_capacity(alloc, seals_in(moves))?;
    let mut answers = Vec::with_capacity(alloc, moves.len())?;
    let Ok(mut machine) = Machine::new(alloc, mode, limits) else {
        return Err(OutOfMemory);
    };
    make_moves(alloc, &mut machine, moves, &mut parts, &mut answers);
    Ok((machine, parts, answers))
}

/// How many of the moves are seals.
fn seals_in(moves: &[Move]) -> usize
    ensures { result ≡ seals_in moves.now }
{
    moves
        .iter()
        .filter(|asked| matches!(asked, Move::Seal))
        .count()
}

/// Makes steps and seals one after another, from where the machine is. Puts the answer to each into `answers`, and the parts that are
/// handed out behind those in `parts`.
///
/// It cannot fail: a seal that is refused, also one without memory, has that answer and hands nothing out, and the list goes on.
///
/// Preconditions: `answers` is empty, and has room for as many as there are moves; `parts` has room for as many more as there are seals.
pub fn make_moves(
    alloc: Global,
    machine: &mut Machine,
    moves: &[Move],
    parts: &mut Vec<Sealed>,
    answers: &mut Vec<Answer>,
)
    requires empty { answers.old.items ≡ [] }
    requires room { length moves.now ≤ vec_capacity answers.old }
    requires part_room { vec_len parts.old + seals_in moves.now ≤ vec_capacity parts.old }
    // Each step and each seal, refused or not, has its defined answer.
    ensures runs { MovesFrom machine.old moves.now answers.new.items machine.new }
    ensures pool { machine.new.pool ≡ machine.old.pool }
    // If the parts before were those of the history, then all are those of the new one.
    ensures parts { Fits parts.old.items machine.old → Fits parts.new.items machine.new }
    // Each part has the events between its seal and the seal before it, and the tasks that became gone there.
    ensures handed { map shown parts.new.items ≡ map shown parts.old.items ++ handed machine.old moves.now answers.new.items }
{
    // For the proof: see `InnerTypes`.
    let _inside: Option<InnerTypes> = None;
    for asked in moves {
        answers.push_reserved(make_move(alloc, machine, parts, asked));
    }
}

/// Makes one move. A part that is handed out is put behind those in `parts`. Precondition: at a seal there is room for it.
fn make_move(alloc: Global, machine: &mut Machine, parts: &mut Vec<Sealed>, asked: &Move) -> Answer
    requires room { vec_len parts.old + seals_in (asked.now ∷ []) ≤ vec_capacity parts.old }
    ensures made { Moves machine.old asked.now result machine.new }
    ensures parts { Fits parts.old.items machine.old → Fits parts.new.items machine.new }
    ensures handed { map shown parts.new.items ≡ map shown parts.old.items ++ handed machine.old (asked.now ∷ []) (result ∷ []) }
    ensures grows { vec_len parts.new ≤ vec_len parts.old + seals_in (asked.now ∷ []) }
    ensures capacity { vec_capacity parts.new ≡ vec_capacity parts.old }
{
    match asked {
        Move::Step(step) => Answer::Said(machine.step(step)),
        Move::Seal => match machine.seal(alloc) {
            Ok(part) => {
                parts.push_reserved(part);
                Answer::Sealed
            }
            Err(refusal) => Answer::Refused(refusal),
        },
    }
}
