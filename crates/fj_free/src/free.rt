ghost use Rattle.std.specs.Prelude.{◌≡◌, ◌+◌, ◌-◌, ◌^◌};

use crate::turns::Turns;
use fj_run::{Ask, Body, Heard};

/// The code with which a job fails that has taken all its turns: the greatest code, so that a job's own codes can be lower. The numbers of
/// refusals are 1 to 14.
pub const SPENT: u32 = u32::MAX;

/// A job as the body of a task: plain where it is submitted, of the fork's kind where it is forked. Its key is `()`, and every result is
/// right for it. Java's `ForkJoinTask`, without a contract.
#[derive(Drop)]
pub struct Free<J> {
    job: J,
    /// How many turns it has left.
    left: u64,
    key: (),
}

// Without a bound: otherwise a call in a job's own turn would lead back to that turn, which the prover does not cover.
impl<J> Free<J> {
    /// A job that may take 2^64 - 1 turns: unlimited in practice.
    pub fn new(job: J) -> Free<J>
        ensures job { result.job ≡ job }
        ensures left { result.left + 1 ≡ 2 ^ 64 }
    {
        Free::with_turns(job, u64::MAX)
    }

    /// A job that may take so many turns; instead of one more it fails with `SPENT`.
    pub fn with_turns(job: J, turns: u64) -> Free<J>
        ensures job { result.job ≡ job }
        ensures left { result.left ≡ turns }
    {
        Free {
            job,
            left: turns,
            key: (),
        }
    }

    /// The job.
    pub fn job(&self) -> &J
        ensures { result.now ≡ self.now.job }
    {
        &self.job
    }

    /// The job of a body that was handed back.
    pub fn into_job(self) -> J
        ensures { result ≡ self.job }
    {
        let Free {
            job,
            left: _,
            key: _,
        } = self;
        job
    }
}

impl<J: Turns> Body for Free<J> {
    ghost use Rattle.std.specs.Prelude.{ℕ, ⊤, Option, None};
    ghost use Rattle.fj_body.specs.Turns.{HeardRight, AskRight, Nearer};
    ghost use Rattle.fj_body.specs.declared.body.Ask.TheVariants.{Fail as AskFail};
    ghost use Rattle.fj_free.specs.declared.free.TheConstants.{SPENT};

    type Key = ();

    type Out = J::Out;

    ghost key_of = { λ b. b.key };

    ghost rooted_as = { λ b. None };

    ghost right = { λ k o. ⊤ };

    ghost turns = { λ b. b.left };

    fn key(&self) -> &() {
        &self.key
    }

    fn into_key(self) {}

    fn rooted(&self) -> Option<u16> {
        None
    }

    fn turn(&mut self, heard: Heard<Free<J>>) -> Ask<Free<J>>
        requires { HeardRight (λ k o. ⊤) heard }
        ensures key { self.new.key ≡ self.old.key }
        ensures rooted { ◌≡◌ {A = Option ℕ} None None }
        ensures right { AskRight (λ k o. ⊤) self.old.key result }
        ensures nearer { Nearer self.new.left self.old.left result }
        ensures left { self.new.left ≡ self.old.left - 1 }
        ensures spent { self.old.left ≡ 0 → result ≡ AskFail SPENT }
    {
        if self.left == 0 {
            return Ask::Fail(SPENT);
        }
        self.left -= 1;
        self.job.turn(heard)
    }
}
