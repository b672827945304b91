//! Who is in the way of a step, and where.
use crate::reason::{Reason, TaskReason, WorkerReason};
use crate::tasks::{QueueOf, Tasks};
use fj_machine::Machine;
use fj_rules::{Ending, InnerTypes, Owner, Place, Refusal, Said, Serial, Step, SubId, WorkerId};

/// What the reason of a reply is found in: the machine behind the step, and what was accepted.
#[derive(Clone, Copy)]
pub struct Facts<'a> {
    pub machine: &'a Machine,
    pub tasks: &'a Tasks,
    pub is_stopped: bool,
}

impl<'a> Facts<'a> {
    /// The reason of a reply that says that nothing was done, or not all.
    pub fn of_reply(self, step: &Step, said: &Said) -> Option<Reason<'a>> {
        let _inside: Option<InnerTypes> = None;
        match said {
            Said::Refused(refusal) => self.of_refusal(step, *refusal),
            Said::Spent(c) => Some(self.of_spent(*c)),
            Said::Early(c) => Some(Reason::Task(
                self.tasks.name(*c),
                TaskReason::Early(self.machine.place(*c)?),
            )),
            Said::Skip(t) => Some(Reason::Task(
                self.tasks.name(*t),
                TaskReason::NotRun(self.machine.status(*t)?),
            )),
            Said::None => Some(Reason::NothingQueued),
            Said::No => self.of_no(step),
            _ => None,
        }
    }

    /// The reason of a refusal of a step.
    fn of_refusal(self, step: &Step, refusal: Refusal) -> Option<Reason<'a>> {
        match refusal {
            Refusal::NoSuch => Some(self.of_no_such(step)),
            Refusal::NotIdle => self.of_not_idle(step),
            Refusal::NotRunning => of_not_running(step),
            Refusal::Unknown => self.of_unknown(step),
            Refusal::NotCompleter => self.of_kind(step),
            Refusal::NotDone => self.of_not_done(step),
            Refusal::OwnStack => self.of_own_stack(step),
            Refusal::Closed => Some(self.of_closed()),
            Refusal::CountTooLarge => Some(Reason::CountTooLarge),
            Refusal::TooManyTasks => Some(Reason::NoRoom(self.machine.live())),
            Refusal::LogFull => Some(Reason::Full(
                self.machine.history().len(),
                self.machine.limits().events(),
            )),
            Refusal::LaneSpent | Refusal::OutOfMemory | Refusal::BadLimits => None,
        }
    }

    /// The reason of a refusal of a seal.
    pub fn of_seal(self, refusal: Refusal) -> Option<Reason<'a>> {
        match refusal {
            Refusal::NotIdle => self.of_busy(),
            Refusal::Closed => Some(self.of_closed()),
            _ => None,
        }
    }

    fn of_no_such(self, step: &Step) -> Reason<'a> {
        let limits = self.machine.limits();
        match step {
            Step::Submit { s, .. } => Reason::NoSubmitter(*s, limits.submitters()),
            _ => Reason::NoWorker(worker_of(step).unwrap_or(WorkerId(0)), limits.workers()),
        }
    }

    fn of_not_idle(self, step: &Step) -> Option<Reason<'a>> {
        let w = worker_of(step)?;
        match self.hook(w) {
            Some(c) => Some(Reason::Worker(w, WorkerReason::HasHook(self.tasks.name(c)))),
            None => Some(Reason::Worker(w, WorkerReason::Polls(self.tasks.name(self.running(w)?)))),
        }
    }

    fn of_unknown(self, step: &Step) -> Option<Reason<'a>> {
        let t = named_by(step)?;
        let task = self.tasks.name(t);
        Some(if t.0 < self.tasks.accepted {
            Reason::Task(task, TaskReason::Released)
        } else if self.tasks.names.is_empty() {
            Reason::Task(task, TaskReason::NeverAccepted(self.tasks.accepted))
        } else {
            Reason::Unnamed
        })
    }

    fn of_own_stack(self, step: &Step) -> Option<Reason<'a>> {
        let task = self.tasks.name(named_by(step)?);
        Some(Reason::Task(task, TaskReason::OnOwnStack(worker_of(step)?)))
    }

    /// Why a task is of the wrong kind: the running one, or the one that is named.
    fn of_kind(self, step: &Step) -> Option<Reason<'a>> {
        match step {
            Step::End { w, ending } => {
                let task = self.tasks.name(self.running(*w)?);
                Some(match ending {
                    Ending::Ok => Reason::Task(task, TaskReason::IsCompleter),
                    _ => Reason::Task(task, TaskReason::IsPlain),
                })
            }
            _ => Some(Reason::Task(self.tasks.name(named_by(step)?), TaskReason::NoCompleter)),
        }
    }

    /// Why a task cannot be released: it is not gone, or has a child.
    fn of_not_done(self, step: &Step) -> Option<Reason<'a>> {
        let t = named_by(step)?;
        let task = self.tasks.name(t);
        match self.machine.place(t)? {
            Place::Gone => Some(Reason::HasChild(self.tasks.name(self.child_of(t)?), task)),
            place => Some(Reason::Task(task, TaskReason::NotGone(place))),
        }
    }

    fn of_closed(self) -> Reason<'a> {
        if self.is_stopped {
            Reason::Stopped
        } else {
            Reason::Closed
        }
    }

    fn of_spent(self, c: Serial) -> Reason<'a> {
        let task = self.tasks.name(c);
        match self.machine.status(c) {
            None => Reason::Task(task, TaskReason::SpentAsReleased),
            Some(status) if status.is_undone() => Reason::Task(task, TaskReason::Fired),
            Some(status) => Reason::Task(task, TaskReason::IsDone(status)),
        }
    }

    fn of_no(self, step: &Step) -> Option<Reason<'a>> {
        match step {
            Step::IsQuiescent => self.of_busy(),
            _ => {
                let t = named_by(step)?;
                Some(Reason::Task(
                    self.tasks.name(t),
                    TaskReason::IsDone(self.machine.status(t)?),
                ))
            }
        }
    }

    /// The running task of a worker.
    fn running(self, w: WorkerId) -> Option<Serial> {
        self.machine.stack(w).last().copied()
    }

    /// The completer whose action is in a worker's hand.
    fn hook(self, w: WorkerId) -> Option<Serial> {
        if w.0 < self.machine.limits().workers() {
            self.machine.hook(w)
        } else {
            None
        }
    }

    /// The first kept task with this parent.
    fn child_of(self, t: Serial) -> Option<Serial> {
        for k in 0..self.tasks.accepted {
            if self.machine.parent(Serial(k)) == Some(t) {
                return Some(Serial(k));
            }
        }
        None
    }

    /// The first that keeps the pool from being quiescent.
    fn of_busy(self) -> Option<Reason<'a>> {
        let limits = self.machine.limits();
        for k in 0..limits.workers() {
            if let Some(reason) = self.of_busy_worker(WorkerId(k)) {
                return Some(reason);
            }
        }
        for k in 0..limits.submitters() {
            if let Some(reason) = self.of_waiting(&Owner::Sub(SubId(k))) {
                return Some(reason);
            }
        }
        for k in 0..limits.workers() {
            if let Some(reason) = self.of_waiting(&Owner::Work(WorkerId(k))) {
                return Some(reason);
            }
        }
        None
    }

    fn of_busy_worker(self, w: WorkerId) -> Option<Reason<'a>> {
        match (self.running(w), self.hook(w)) {
            (Some(t), _) => Some(Reason::Worker(w, WorkerReason::Runs(self.tasks.name(t)))),
            (None, Some(c)) => Some(Reason::Worker(w, WorkerReason::Acts(self.tasks.name(c)))),
            (None, None) => None,
        }
    }

    /// The oldest task in a queue.
    fn of_waiting(self, owner: &Owner) -> Option<Reason<'a>> {
        let t = self.machine.queue(*owner).next()?;
        Some(Reason::Task(self.tasks.name(t), TaskReason::Waits(QueueOf(*owner))))
    }
}

fn of_not_running<'a>(step: &Step) -> Option<Reason<'a>> {
    let w = worker_of(step)?;
    Some(match step {
        Step::HookDone { .. } => Reason::Worker(w, WorkerReason::NoHook),
        _ => Reason::Worker(w, WorkerReason::RunsNothing),
    })
}

/// The worker of a step.
fn worker_of(step: &Step) -> Option<WorkerId> {
    match step {
        Step::Fork { w, .. }
        | Step::Trigger { w, .. }
        | Step::Poll { w, .. }
        | Step::Help { w, .. }
        | Step::Join { w, .. }
        | Step::End { w, .. }
        | Step::HookDone { w }
        | Step::Add { w, .. }
        | Step::QuietRoot { w, .. } => Some(*w),
        _ => None,
    }
}

/// The task that a step names, or the parent.
fn named_by(step: &Step) -> Option<Serial> {
    match step {
        Step::Fork { kind, .. } => kind.parent(),
        Step::Join { t, .. }
        | Step::QuietRoot { t, .. }
        | Step::Fault { t, .. }
        | Step::Cancel { t }
        | Step::State { t }
        | Step::Release { t } => Some(*t),
        Step::Add { c, .. } => Some(*c),
        _ => None,
    }
}
