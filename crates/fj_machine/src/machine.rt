ghost use Rattle.std.specs.Prelude.{◌≡◌, ◌<◌, ◌&&◌, not, IfOk, OnOk, IfErr, OnErr, ◌∷◌, [], ◌++◌, ◌||◌, None, List, MatchOption, false, true};
ghost use Rattle.fj_rules.specs.Queues.{queue};
ghost use Rattle.fj_rules.specs.Stacks.{stack};
ghost use Rattle.fj_rules.specs.Bounds.{IsWithin};
ghost use Rattle.fj_rules.specs.Hooks.{hand};
ghost use Rattle.fj_rules.specs.Tasks.{is_kept, is_completer, live, parent};
ghost use Rattle.fj_rules.specs.Places.{open_tasks, place};
ghost use Rattle.fj_rules.specs.Statuses.{status};
ghost use Rattle.fj_rules.specs.Allowed.{AllowedFrom, is_closed, is_stopped};
ghost use Rattle.fj_rules.specs.Follows.{AllFollow};
ghost use Rattle.fj_rules.specs.Answers.{answer, is_quiet, refusal_of};
ghost use Rattle.fj_rules.specs.Pasts.{fresh, present, gone_since, sealed_now};
ghost use Rattle.fj_rules.specs.Runs.{Steps};
ghost use Rattle.fj_rules.specs.Epochs.{IsPast, seal_refusal, RefusesSeal};
ghost use Rattle.fj_rules.specs.Parts.{Fits};
ghost use Rattle.fj_rules.specs.Headline.{Headline, RepliesTell};
ghost use Rattle.fj_ledger.specs.Counts.{queued};
ghost use Rattle.fj_rules.specs.Hooks.{HooksApart};
ghost use Rattle.fj_machine.specs.Outcomes.{Makes, said_by};
ghost use Rattle.fj_rules.specs.declared.step.Step.TheVariants.{Submit};
ghost use Rattle.fj_rules.specs.declared.epoch.Sealed.{Sealed as Part};
ghost use Rattle.fj_rules.specs.declared.owner.Owner.{Owner as OwnerCase};
ghost use Rattle.fj_rules.specs.declared.refusal.Refusal.{Refusal as RefusalCase};

use crate::steps::accept::{fork, submit, submit_refusal, trigger};
use crate::steps::completer::{add, quiet_root};
use crate::steps::end::end;
use crate::steps::end::hook::hook_done;
use crate::steps::query::{is_quiescent, state};
use crate::steps::release::release;
use crate::steps::settle::{cancel, fault};
use crate::steps::shut::{shutdown, stop};
use crate::steps::take::{help, join, poll};
use fj_ledger::Ledger;
use fj_queues::Numbers;
use fj_rules::{
    Event, Limits, Mode, Owner, Place, Refusal, Said, Sealed, Serial, Status, Step, SubId,
    SubmittedKind, WorkerId,
};
use std::alloc::Global;
use std::marker::Model;

/// The scheduler of a pool, one step at a time.
///
/// Contracts see its mode and limits and its history; all else follows from these.
#[derive(Drop)]
pub struct Machine {
    ledger: Ledger,
}

impl Model for Machine {
    ghost use Rattle.fj_rules.specs.Pasts.{Past};
    ghost use Rattle.fj_rules.specs.Epochs.{IsPast};

    ghost Value = { Past };

    ghost view = { λ m. m.ledger };

    ghost invariant = { λ m. IsPast m.ledger };
}

impl Machine {
    /// A machine without events. All memory that its steps need is allocated here.
    ///
    /// The only refusal is `OutOfMemory`.
    pub fn new(alloc: Global, mode: Mode, limits: Limits) -> Result<Machine, Refusal>
        ensures ok { IfOk result (λ m. m ≡ fresh mode limits) }
        ensures err { OnErr result (result ≡ Err Refusal.OutOfMemory) }
    {
        Ok(Machine {
            ledger: Ledger::new(alloc, mode, limits)?,
        })
    }

    /// The events since the last seal, the oldest first. After those that were sealed, they make up the history of a run, for which the
    /// headline holds.
    pub fn history(&self) -> &[Event]
        ensures events { result.now ≡ present self.now }
        ensures run { IsPast self.now }
        ensures headline { Headline self.now.pool self.now.events }
    {
        self.ledger.history()
    }

    /// The tasks in an owner's queue, the oldest first. Empty for an unknown owner.
    pub fn queue(&self, owner: Owner) -> Numbers<'_>
        ensures { result ≡ queue self.now.events owner }
    {
        self.ledger.queue(owner)
    }

    /// The tasks that a worker holds, the oldest first; the last is the running one. Empty for an unknown worker.
    pub fn stack(&self, w: WorkerId) -> &[Serial]
        ensures { result.now ≡ stack self.now.events w }
    {
        self.ledger.stack(w)
    }

    /// The open tasks, in the order in which they became open: triggers, and completers whose body has ended, that are not spent.
    pub fn open(&self) -> &[Serial]
        ensures { result.now ≡ open_tasks self.now.events }
    {
        self.ledger.open()
    }

    /// The tasks that became gone since the last seal, in that order.
    pub fn gone(&self) -> &[Serial]
        ensures { result.now ≡ gone_since self.now }
    {
        self.ledger.gone()
    }

    /// How many tasks are queued, for all owners.
    pub fn queued(&self) -> usize
        ensures { result ≡ queued self.now.pool.limits self.now.events }
    {
        self.ledger.queued()
    }

    /// How many tasks are kept: accepted, and not released.
    pub fn live(&self) -> usize
        ensures { result ≡ live self.now.events }
    {
        self.ledger.live()
    }

    /// The completer whose completion action is in a worker's hand. Precondition: there is such a worker.
    pub fn hook(&self, w: WorkerId) -> Option<Serial>
        requires { w < self.now.pool.limits.workers }
        ensures hook { result ≡ hand self.now.events w }
        ensures apart { HooksApart self.now.events }
    {
        self.ledger.hook(w).map(|hook| hook.completer)
    }

    /// The parent of a kept task, if it has one: `CountedCompleter.getCompleter`. None for a task that is not kept.
    pub fn parent(&self, t: Serial) -> Option<Serial>
        ensures { is_kept self.now.events t ≡ true → result ≡ parent self.now.events t }
    {
        self.ledger.find(t)?.kind.parent()
    }

    /// Whether a kept task is plain, with no completion action and no parent: not a `CountedCompleter`. False for a task that is not kept.
    #[inline(always)]
    pub fn is_plain(&self, t: Serial) -> bool
        ensures { result ≡ (is_kept self.now.events t && not (is_completer self.now.events t)) }
    {
        match self.ledger.find(t) {
            Some(record) => !record.kind.is_completer(),
            None => false,
        }
    }

    /// How far a task has come. None if it was never accepted, or was released.
    pub fn status(&self, t: Serial) -> Option<Status>
        ensures { MatchOption result (is_kept self.now.events t ≡ false) (λ s. (is_kept self.now.events t ≡ true) × (s ≡ status self.now.events t)) }
    {
        Some(self.ledger.find(t)?.status)
    }

    /// Where a task is. None if it was never accepted, or was released.
    pub fn place(&self, t: Serial) -> Option<Place>
        ensures { MatchOption result (is_kept self.now.events t ≡ false) (λ p. (is_kept self.now.events t ≡ true) × (p ≡ place self.now.events t)) }
    {
        Some(self.ledger.find(t)?.place)
    }

    /// Whether submissions are refused, since there was a shutdown or a stop: `ForkJoinPool.isShutdown`.
    pub fn is_shut(&self) -> bool
        ensures { result ≡ (is_closed self.now.events || is_stopped self.now.events) }
    {
        self.ledger.is_shut()
    }

    /// Whether nothing is queued or held and no completion action is in a hand: `ForkJoinPool.isQuiescent`.
    pub fn is_quiescent(&self) -> bool
        ensures { result ≡ is_quiet self.now.pool.limits self.now.events }
    {
        self.ledger.is_quiet()
    }

    /// The limits of the pool.
    pub fn limits(&self) -> Limits
        ensures limits { result ≡ self.now.pool.limits }
        ensures within { IsWithin result.workers result.submitters result.tasks result.events }
    {
        let limits = self.ledger.limits();
        // For the proof: each limit is in range.
        let _workers = limits.workers();
        limits
    }

    /// The refusal of the step Submit now for a task of this kind. None if it would be accepted.
    pub fn submit_refusal(&self, s: SubId, kind: &SubmittedKind) -> Option<Refusal>
        ensures { result ≡ refusal_of self.now (Submit s kind.now) }
    {
        submit_refusal(&self.ledger, s, kind)
    }

    /// How many seals there were.
    pub fn epoch(&self) -> u64
        ensures { result ≡ self.now.seals }
    {
        self.ledger.seals()
    }

    /// A checkpoint: hands out the events since the last seal, and goes on without events. The kept tasks stay, open ones too, and task
    /// numbers go on.
    ///
    /// Refused, with nothing changed, as `NotIdle` where the machine is not quiescent, else `Closed` after a shutdown or a stop, else
    /// `LogFull` where the events, sealed or not, and the seals together are more than 2^62, else `OutOfMemory` where an allocation fails.
    pub fn seal(&mut self, alloc: Global) -> Result<Sealed, Refusal>
        ensures events { IfOk result (λ part. part.events.items ≡ present self.old) }
        ensures gone { IfOk result (λ part. part.gone.items ≡ gone_since self.old) }
        ensures may { OnOk result (seal_refusal self.old ≡ None) }
        ensures sealed { OnOk result (self.new ≡ sealed_now self.old) }
        // The parts that were handed out before, followed by this one, are those of the new history.
        ensures fits { IfOk result (λ part. (parts : List Part) → Fits parts self.old → Fits (parts ++ part ∷ []) self.new) }
        ensures err { IfErr result (λ refusal. RefusesSeal self.old refusal) }
        ensures stays { OnErr result (self.new ≡ self.old) }
    {
        self.ledger.seal(alloc)
    }

    /// Makes one step: appends its events to the history, and answers the reply. It allocates nothing.
    ///
    /// A refused step changes nothing, and reports the first of these refusals that applies:
    ///
    /// | Step | Refusals, in this order |
    /// |---|---|
    /// | Submit | `NoSuch`, `Closed`, `CountTooLarge`, `TooManyTasks`, `LogFull` |
    /// | Fork | `NoSuch`, `NotIdle`, `NotRunning`, `Unknown`, `NotCompleter`, `Closed`, `CountTooLarge`, `TooManyTasks`, `LogFull` |
    /// | Trigger | `NoSuch`, `NotIdle`, `NotRunning`, `Closed`, `CountTooLarge`, `TooManyTasks`, `LogFull` |
    /// | Poll | `NoSuch`, `NotIdle`, `LogFull` |
    /// | Help | `NoSuch`, `NotIdle`, `NotRunning`, `LogFull` |
    /// | Join | `NoSuch`, `NotIdle`, `NotRunning`, `Unknown`, `OwnStack`, `LogFull` |
    /// | End | `NoSuch`, `NotIdle`, `NotRunning`, `NotCompleter`, `LogFull` |
    /// | HookDone | `NoSuch`, `NotRunning`, `LogFull` |
    /// | Add | `NoSuch`, `NotIdle`, `NotRunning`, `Unknown`, `NotCompleter`, `CountTooLarge`, `LogFull` |
    /// | QuietRoot | `NoSuch`, `NotIdle`, `NotRunning`, `Unknown`, `NotCompleter`, `LogFull` |
    /// | Fault, Cancel | `Unknown`, `LogFull` |
    /// | Shutdown, Stop | `LogFull` |
    /// | IsQuiescent | none |
    /// | State | `Unknown` |
    /// | Release | `Unknown`, `NotDone`, `LogFull` |
    #[inline(always)]
    pub fn step(&mut self, asked: &Step) -> Said
        ensures step { Steps self.old asked.now result self.new }
        // Each event may follow those before it.
        ensures allowed { AllowedFrom self.old.pool self.old.events (answer self.old asked.now).1 }
        // It follows them, as `Follows` of `fj_rules` defines.
        ensures follows { AllFollow self.old (answer self.old asked.now).1 }
        // The reply is `task`, `run` or `hook` exactly where a task is accepted, a task or a hook is handed out.
        ensures tells { RepliesTell (answer self.old asked.now).1 (result ∷ []) }
        // The reply is `none` only where every queue is empty.
        ensures none { result ≡ Said.None → (o : OwnerCase) → queue self.old.events o ≡ [] }
        // The parts that were handed out before are those of the new history too.
        ensures fits { (parts : List Part) → Fits parts self.old → Fits parts self.new }
        ensures refused { (r : RefusalCase) → result ≡ Said.Refused r → self.new ≡ self.old }
    {
        said(make(&mut self.ledger, asked))
    }
}

/// The reply to a step.
#[inline(always)]
fn said(outcome: Result<Said, Refusal>) -> Said
    ensures { result ≡ said_by outcome }
{
    match outcome {
        Ok(said) => said,
        Err(refusal) => Said::Refused(refusal),
    }
}

/// Makes one step, or answers why it is refused.
#[inline(always)]
fn make(ledger: &mut Ledger, asked: &Step) -> Result<Said, Refusal>
    ensures { Makes ledger.old asked.now result ledger.new }
{
    match *asked {
        Step::Submit { s, kind } => submit(ledger, s, &kind),
        Step::Fork { w, kind } => fork(ledger, w, &kind),
        Step::Trigger { w, count } => trigger(ledger, w, count),
        Step::Poll { w, r } => poll(ledger, w, r),
        Step::Help { w, r } => help(ledger, w, r),
        Step::Join { w, t, r } => join(ledger, w, t, r),
        Step::End { w, ending } => end(ledger, w, ending),
        Step::HookDone { w } => hook_done(ledger, w),
        Step::Add { w, c, n } => add(ledger, w, c, n),
        Step::QuietRoot { w, t } => quiet_root(ledger, w, t),
        Step::Fault { t, code } => fault(ledger, t, code),
        Step::Cancel { t } => cancel(ledger, t),
        Step::Shutdown => shutdown(ledger),
        Step::Stop => stop(ledger),
        Step::IsQuiescent => Ok(is_quiescent(ledger)),
        Step::State { t } => state(ledger, t),
        Step::Release { t } => release(ledger, t),
    }
}
