ghost use Rattle.std.specs.Prelude.{◌≡◌};
ghost use Rattle.fj_codes.specs.Codings.{reply, reply_of, place_codes, status_number};

use crate::codes::{
    CANCELLED, COUNT, COUNTED, DONE, EARLY, EXCEPTIONAL, FORKED, GONE, HELD, HOOK, NO, NONE,
    NORMAL, OPEN, ROOT, RUN, SKIP, SPENT, STATUS_FAULT, SUBMITTED, TASK, YES,
};
use fj_rules::{InnerTypes, Owner, Place, Said, Status};

/// What a call answers: a code, and two numbers that it explains. C gets it in registers.
#[repr(C)]
#[derive(Clone, Copy)]
pub struct Reply {
    pub code: u32,
    /// Whose queue or stack, in a reply to the step State.
    pub by: u32,
    /// A task, a status, or any other number.
    pub number: u64,
}

impl Reply {
    /// A code with a number.
    #[inline(always)]
    pub fn new(code: u32, number: u64) -> Reply
        ensures { result ≡ reply code number }
    {
        Reply {
            code,
            by: 0,
            number,
        }
    }

    /// The reply of a machine.
    #[inline(always)]
    pub fn of(said: Said) -> Reply
        ensures { result ≡ reply_of said }
    {
        let _inside: Option<InnerTypes> = None;
        match said {
            Said::Task(t) => Reply::new(TASK, t.0),
            Said::None => Reply::new(NONE, 0),
            Said::Run(t) => Reply::new(RUN, t.0),
            Said::Skip(t) => Reply::new(SKIP, t.0),
            Said::Done => Reply::new(DONE, 0),
            Said::Counted(c) => Reply::new(COUNTED, c.0),
            Said::Hook(c) => Reply::new(HOOK, c.0),
            Said::Spent(c) => Reply::new(SPENT, c.0),
            Said::Early(c) => Reply::new(EARLY, c.0),
            Said::Root(c) => Reply::new(ROOT, c.0),
            Said::Count(n) => Reply::new(COUNT, u64::from(n)),
            Said::Yes => Reply::new(YES, 0),
            Said::No => Reply::new(NO, 0),
            Said::Normal => Reply::new(NORMAL, 0),
            Said::Exceptional(code) => Reply::new(EXCEPTIONAL, u64::from(code)),
            Said::Cancelled => Reply::new(CANCELLED, 0),
            Said::Refused(refusal) => Reply::new(refusal.number(), 0),
            Said::State(place, status) => {
                let (code, by) = place_codes(place);
                let number = status_number(status);
                Reply { code, by, number }
            }
        }
    }
}

/// The code of a place, and whose queue or stack it is.
fn place_codes(place: Place) -> (u32, u32)
    ensures { result ≡ place_codes place }
{
    match place {
        Place::Queued(owner) => match owner {
            Owner::Sub(s) => (SUBMITTED, s.0),
            Owner::Work(w) => (FORKED, w.0),
        },
        Place::Held(w) => (HELD, w.0),
        Place::Open => (OPEN, 0),
        Place::Gone => (GONE, 0),
    }
}

/// The number of a status.
pub fn status_number(status: Status) -> u64
    ensures { result ≡ status_number status }
{
    match status {
        Status::Undone => 0,
        Status::Normal => 1,
        Status::Cancelled => 2,
        Status::Exceptional(code) => STATUS_FAULT + u64::from(code),
    }
}
