ghost use Rattle.std.specs.Prelude.{◌≡◌, IfErr, IfOk, length};
ghost use Rattle.fj_submitter.specs.Seats.{AreAll, SubmitsBy};

use crate::naming::Naming;
use crate::submitter::Submitter;
use fj_gate::Ticket;
use fj_rules::{Refusal, SubId};

/// All submitters of a pool, in order of their numbers.
#[derive(Drop)]
pub struct Submitters<B, N: Naming> {
    pub all: Vec<Submitter<B, N>>,
    ghost are_all: { AreAll (length N.lanes) all.items },
}

impl<B: Drop, N: Naming> Submitters<B, N> {
    /// Precondition: these are all, in order of their numbers.
    pub fn new(all: Vec<Submitter<B, N>>) -> Submitters<B, N>
        requires { AreAll (length N.lanes) all.items }
        ensures { result.all ≡ all }
    {
        Submitters { all }
    }

    /// All, in order of their numbers.
    pub fn into_all(self) -> Vec<Submitter<B, N>>
        ensures all { AreAll (length N.lanes) result.items }
        ensures these { result ≡ self.all }
    {
        self.all
    }

    /// How many there are.
    pub fn len(&self) -> usize {
        self.all.len()
    }

    /// How many more bodies this one takes. None if there is no such submitter.
    pub fn left(&self, submitter: SubId) -> Option<u32> {
        Some(self.all.get(submitter.0 as usize)?.left())
    }

    /// This one submits a body: `NoSuch` if there is no such submitter, `LaneSpent` or `Closed` as `Submitter::submit`.
    pub fn submit(&mut self, submitter: SubId, body: B) -> Result<Ticket, (Refusal, B)>
        ensures ok { IfOk result (λ ticket. SubmitsBy submitter self.old.all.items ticket body self.new.all.items) }
        ensures body { IfErr result (λ e. e.1 ≡ body) }
    {
        let place = submitter.0 as usize;
        if place >= self.all.len() {
            return Err((Refusal::NoSuch, body));
        }
        self.all[place].submit(body)
    }
}
