ghost use Rattle.std.specs.Prelude.{◌≡◌, ◌≤◌, ◌<◌, ◌+◌, ◌↔◌, [], IfOk, IfSome, IsTrue, nat_lt, option_map, MatchOption, length, true, false, Some, option_copied, is_none, ◌||◌};
ghost use Rattle.std.specs.List.{list_all};
ghost use Rattle.fj_rules.specs.Queues.{queue};
ghost use Rattle.fj_rules.specs.Stacks.{stack};
ghost use Rattle.fj_rules.specs.Places.{open_tasks};
ghost use Rattle.fj_rules.specs.Tasks.{is_kept, live, parent};
ghost use Rattle.fj_rules.specs.Climbs.{path};
ghost use Rattle.fj_rules.specs.Hooks.{hand};
ghost use Rattle.fj_rules.specs.Answers.{running, is_quiet, root_of};
ghost use Rattle.fj_rules.specs.Allowed.{AllowedFrom, is_closed, is_stopped};
ghost use Rattle.fj_rules.specs.Pasts.{fresh, limit, present, gone_since};
ghost use Rattle.fj_ledger.specs.Counts.{queued};
ghost use Rattle.fj_ledger.specs.Holds.{IsLawful, TellsOf, TellsHook};

mod accept;
mod close;
mod complete;
mod end;
mod hook;
mod pass;
mod relay;
mod release;
mod seal;
mod settle;
mod shut;
mod take;

pub use crate::ledger::hook::Hook;
use crate::log::Log;
use fj_queues::{Numbers, OpenTasks, Queues, Stacks};
use fj_rules::{Event, Limits, Mode, OutOfMemory, Owner, Serial, SubId, WorkerId, both};
use fj_tree::{Handle, Record, Tree};
use std::alloc::Global;
use std::marker::Model;

/// The history, with the state kept beside it. Contracts see its mode and limits, and the history.
///
/// Its queries are here, and its updates in the modules below: each appends one event.
pub struct Ledger {
    mode: Mode,
    limits: Limits,
    log: Log,
    queues: Queues,
    stacks: Stacks,
    hands: Vec<Option<Hook>>,
    tree: Tree,
    open_tasks: OpenTasks,
    gone: Vec<Serial>,
}

// By hand: a derived one is proved in each crate that drops such a value.
impl Drop for Ledger {
    fn drop(self) {
        let Ledger {
            mode: _,
            limits: _,
            log: _,
            queues: _,
            stacks: _,
            hands: _,
            tree: _,
            open_tasks: _,
            gone: _,
        } = self;
    }
}

impl Model for Ledger {
    ghost use Rattle.std.specs.Prelude.{◌≡◌, ◌≤◌, ◌+◌, ◌++◌, vec_capacity};
    ghost use Rattle.fj_rules.specs.Places.{gone};
    ghost use Rattle.fj_rules.specs.Pasts.{Past};
    ghost use Rattle.fj_ledger.specs.Holds.{Holds};

    ghost Value = { Past };

    ghost view = { λ m. record {
      pool = record { mode = m.mode; limits = m.limits };
      sealed = m.log.sealed;
      events = m.log.events;
      seals = m.log.seals;
    } };

    ghost invariant = { λ m. record {
      holds : Holds (record { mode = m.mode; limits = m.limits }) m.log.sealed m.log.events m.queues m.stacks m.hands.items m.tree m.open_tasks.list m.gone.items;
      log_room : m.log.room ≡ m.limits.events;
      open_room : m.open_tasks.room ≡ m.limits.tasks;
      gone_room : m.limits.events + m.limits.tasks ≤ vec_capacity m.gone;
    } };
}

impl Ledger {
    /// A ledger without events. All memory that its updates need is allocated here; `OutOfMemory` where that fails.
    pub fn new(alloc: Global, mode: Mode, limits: Limits) -> Result<Ledger, OutOfMemory>
        ensures { IfOk result (λ l. l ≡ fresh mode limits) }
    {
        let tasks = limits.tasks() as usize;
        let events = limits.events() as usize;
        let workers = limits.workers() as usize;
        let queues = limits.submitters() as usize + workers;
        let lists = both(
            Queues::new(alloc, queues, tasks),
            Stacks::new(alloc, workers, tasks),
        );
        let kept = both(Tree::new(alloc, tasks), OpenTasks::new(alloc, tasks));
        // By a stop, tasks that were opened before the last seal may become gone.
        let past = both(
            Log::new(alloc, events),
            Vec::with_capacity(alloc, events + tasks),
        );
        let hands = Vec::from_elem(alloc, None, workers);
        let (((queues, stacks), (tree, open_tasks)), ((log, gone), hands)) = both(
            both(lists, kept),
            both(past, hands),
        )?;
        Ok(Ledger {
            mode,
            limits,
            log,
            queues,
            stacks,
            hands,
            tree,
            open_tasks,
            gone,
        })
    }

    /// The events since the last seal, the oldest first. Each was allowed after those before it.
    pub fn history(&self) -> &[Event]
        ensures events { result.now ≡ present self.now }
        ensures lawful { AllowedFrom self.now.pool [] self.now.events }
    {
        self.log.events()
    }

    /// The tasks in an owner's queue, the oldest first. Empty for an unknown owner.
    pub fn queue(&self, owner: Owner) -> Numbers<'_>
        ensures { result ≡ queue self.now.events owner }
    {
        match self.limits.find_queue(owner) {
            None => Numbers::none(),
            Some(number) => self.queues.numbers(number),
        }
    }

    /// The tasks that a worker holds, the oldest first. Empty for an unknown worker.
    #[inline(always)]
    pub fn stack(&self, w: WorkerId) -> &[Serial]
        ensures { result.now ≡ stack self.now.events w }
    {
        if self.limits.workers() <= w.0 {
            return Stacks::none();
        }
        self.stacks.stack(w.0 as usize)
    }

    /// The open tasks, in the order in which they became open.
    pub fn open(&self) -> &[Serial]
        ensures { result.now ≡ open_tasks self.now.events }
    {
        self.open_tasks.as_slice()
    }

    /// The tasks that became gone since the last seal, in that order.
    pub fn gone(&self) -> &[Serial]
        ensures { result.now ≡ gone_since self.now }
    {
        self.gone.as_slice()
    }

    /// The record of a task. None if it was never accepted, or was released.
    pub fn find(&self, t: Serial) -> Option<&Record>
        ensures record { MatchOption (option_copied result) (is_kept self.now.events t ≡ false) (TellsOf self.now.events t) }
        ensures lawful { IsLawful self.now.pool (limit self.now) self.now.events }
    {
        let h = self.tree.find(t)?;
        self.tree.get(h)
    }

    /// A handle of a task, kept or not. If the task is kept, the handle is good.
    #[inline(always)]
    pub fn named(&self, t: Serial) -> Handle
        ensures { result.serial ≡ t }
    {
        match self.tree.find(t) {
            Some(h) => h,
            None => Handle { key: 0, serial: t },
        }
    }

    /// The handle of a kept task. None if the task was never accepted, or was released.
    #[inline(always)]
    pub fn kept(&self, t: Serial) -> Option<Handle>
        ensures kept { MatchOption result (is_kept self.now.events t ≡ false) (λ h. (h.serial ≡ t) × (is_kept self.now.events t ≡ true)) }
        ensures lawful { IsLawful self.now.pool (limit self.now) self.now.events }
    {
        self.tree.find(t)
    }

    /// The record of a task by its handle. None if the task was never accepted, or was released.
    #[inline(always)]
    pub fn look(&self, t: Handle) -> Option<&Record>
        ensures record { MatchOption (option_copied result) (is_kept self.now.events t.serial ≡ false) (TellsOf self.now.events t.serial) }
        ensures lawful { IsLawful self.now.pool (limit self.now) self.now.events }
    {
        // For the proof: the invariant of the ledger holds.
        let _ = &self.mode;
        self.tree.look(t)
    }

    /// The record of a task by its handle. Precondition: the task is kept.
    #[inline(always)]
    pub fn record(&self, t: Handle) -> &Record
        requires { is_kept self.now.events t.serial ≡ true }
        ensures { TellsOf self.now.events t.serial result.now }
    {
        self.look(t).unwrap()
    }

    /// The running task of a worker: the newest that it holds. None for an unknown worker.
    #[inline(always)]
    pub fn running(&self, w: WorkerId) -> Option<Serial>
        ensures { result ≡ running self.now.events w }
    {
        self.stack(w).last().copied()
    }

    /// The completion action in a worker's hand. Precondition: there is such a worker.
    #[inline(always)]
    pub fn hook(&self, w: WorkerId) -> Option<Hook>
        requires { w < self.now.pool.limits.workers }
        ensures hand { option_map (λ k. k.completer) result ≡ hand self.now.events w }
        ensures tells { IfSome result (TellsHook self.now.events) }
        ensures lawful { IsLawful self.now.pool (limit self.now) self.now.events }
    {
        self.hands[w.0 as usize]
    }

    /// The limits of the pool.
    #[inline(always)]
    pub fn limits(&self) -> Limits
        ensures { result ≡ self.now.pool.limits }
    {
        self.limits
    }

    /// Whether there is such a worker.
    #[inline(always)]
    pub fn has_worker(&self, w: WorkerId) -> bool
        ensures there { result ≡ nat_lt w self.now.pool.limits.workers }
        ensures lawful { IsLawful self.now.pool (limit self.now) self.now.events }
    {
        w.0 < self.limits.workers()
    }

    /// Whether there is such a submitter.
    pub fn has_submitter(&self, s: SubId) -> bool
        ensures there { result ≡ nat_lt s self.now.pool.limits.submitters }
        ensures lawful { IsLawful self.now.pool (limit self.now) self.now.events }
    {
        s.0 < self.limits.submitters()
    }

    /// Whether submissions are refused: there was a shutdown or a stop.
    #[inline(always)]
    pub fn is_shut(&self) -> bool
        ensures closed { result ≡ (is_closed self.now.events || is_stopped self.now.events) }
        ensures lawful { IsLawful self.now.pool (limit self.now) self.now.events }
    {
        self.log.is_closed() || self.log.is_stopped()
    }

    /// Whether forks and triggers are refused too: there was a stop.
    #[inline(always)]
    pub fn is_stopped(&self) -> bool
        ensures stopped { result ≡ is_stopped self.now.events }
        ensures lawful { IsLawful self.now.pool (limit self.now) self.now.events }
    {
        self.log.is_stopped()
    }

    /// How many tasks are queued, for all owners.
    pub fn queued(&self) -> usize
        ensures { result ≡ queued self.now.pool.limits self.now.events }
    {
        self.queues.total()
    }

    /// How many tasks are kept.
    pub fn live(&self) -> usize
        ensures { result ≡ live self.now.events }
    {
        self.tree.len()
    }

    /// Whether one more task can be kept.
    #[inline(always)]
    pub fn has_task_room(&self) -> bool
        ensures { IsTrue result ↔ (live self.now.events < self.now.pool.limits.tasks) }
    {
        self.tree.len() < self.limits.tasks() as usize
    }

    /// Whether no task is queued or held, and no completion action is in a hand.
    pub fn is_quiet(&self) -> bool
        ensures quiet { result ≡ is_quiet self.now.pool.limits self.now.events }
        ensures lawful { IsLawful self.now.pool (limit self.now) self.now.events }
    {
        if self.queues.total() > 0 {
            return false;
        }
        self.stacks.are_empty() && are_free(&self.hands)
    }

    /// The parent of a kept task, if it has one. None for a task that is not kept.
    pub fn parent(&self, t: Handle) -> Option<Handle>
        ensures parent { is_kept self.now.events t.serial ≡ true → option_map (λ p. p.serial) result ≡ parent self.now.events t.serial }
        ensures lawful { IsLawful self.now.pool (limit self.now) self.now.events }
    {
        let p = self.look(t)?.kind.parent()?;
        Some(self.named(p))
    }

    /// The root of a task: the last on the path over its parents. Precondition: the task is kept.
    pub fn root(&self, t: Handle) -> Handle
        requires kept { is_kept self.now.events t.serial ≡ true }
        ensures root { root_of (path self.now.events t.serial) ≡ Some result.serial }
        ensures kept { is_kept self.now.events result.serial ≡ true }
    {
        self.tree.root(self.tree.renew(t).unwrap())
    }

    /// Whether there is room for so many more events before the next seal.
    #[inline(always)]
    pub fn has_room(&self, events: u64) -> bool
        ensures room { IsTrue result ↔ (length self.now.events + events ≤ limit self.now) }
        ensures lawful { IsLawful self.now.pool (limit self.now) self.now.events }
    {
        events <= u64::from(self.limits.events()) - self.log.len() as u64
    }
}

/// Whether no completion action is in any of these hands.
fn are_free(hands: &[Option<Hook>]) -> bool
    ensures { result ≡ list_all is_none hands.now }
{
    hands.iter().all(|hook| hook.is_none())
}
