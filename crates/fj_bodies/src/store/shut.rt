ghost use Rattle.std.specs.Prelude.{◌≡◌, ◌||◌};
ghost use Rattle.fj_rules.specs.Allowed.{is_closed, is_stopped};
ghost use Rattle.fj_rules.specs.Answers.{is_quiet};
ghost use Rattle.fj_rules.specs.declared.step.Step.TheVariants.{Shutdown, Stop};
ghost use Rattle.fj_body.specs.Asking.{Shuts};

use crate::store::Store;
use fj_body::Body;
use fj_rules::{Said, Step};

impl<B: Body> Store<B> {
    /// No submission is accepted from now on: `ForkJoinPool.shutdown`. False if the history is full: then the store is stuck.
    pub fn shutdown(&mut self) -> bool
        ensures { Shuts self.old Shutdown result self.new }
    {
        match self.ask(&Step::Shutdown) {
            Said::Refused(_) => {
                self.stuck = true;
                false
            }
            _ => true,
        }
    }

    /// Cancels each undone task, and neither submissions nor forks are accepted from now on: `ForkJoinPool.shutdownNow`. False if the history
    /// is full: then the store is stuck.
    pub fn stop(&mut self) -> bool
        ensures { Shuts self.old Stop result self.new }
    {
        match self.ask(&Step::Stop) {
            Said::Refused(_) => {
                self.stuck = true;
                false
            }
            _ => true,
        }
    }

    /// Whether a shutdown or a stop was made: `ForkJoinPool.isShutdown`.
    pub fn is_shut(&self) -> bool
        ensures { result ≡ is_closed self.now.past.events || is_stopped self.now.past.events }
    {
        self.machine.is_shut()
    }

    /// Whether all queues, stacks and hands are empty: `ForkJoinPool.isQuiescent`.
    pub fn is_quiescent(&self) -> bool
        ensures { result ≡ is_quiet self.now.past.pool.limits self.now.past.events }
    {
        self.machine.is_quiescent()
    }
}
