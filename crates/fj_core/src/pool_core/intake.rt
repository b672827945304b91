ghost use Rattle.std.specs.Prelude.{◌≡◌, ◌<◌, ◌≤◌, ◌∷◌, [], None, Some};
ghost use Rattle.fj_rules.specs.declared.event.Event.TheVariants.{Acc};
ghost use Rattle.fj_rules.specs.declared.limits.TheConstants.{MAX_PENDING};
ghost use Rattle.fj_rules.specs.declared.owner.Owner.TheVariants.{Sub};
ghost use Rattle.fj_rules.specs.Tasks.{count_in, submitted_kind};
ghost use Rattle.fj_rules.specs.Runs.{grown};
ghost use Rattle.fj_calls.specs.Intakes.{Intakes, Readies, Submits, kind_rooted, refused_now};

use crate::due::make_due;
use crate::pool_core::Core;
use fj_bodies::Store;
use fj_body::Body;
use fj_calls::{Booking, Intake};
use fj_lane::Parcel;
use fj_rules::{Refusal, Serial, SubId, SubmittedKind};

impl<B: Body> Core<B> {
    /// Takes in the next parcel of a submitter, and submits its body as `Body::rooted` says. Precondition: there is such a submitter.
    ///
    /// Answers the first of these that holds: `Full(LogFull)` if the core is stuck; `Empty` once the machine is shut; `Full` with the refusal
    /// if the machine has no room for a task or an event; `Empty` if the drain gives nothing. If an event finds no room and the machine is
    /// quiescent, the core gets stuck. If the closing number is reached now, the Shutdown or Stop is made.
    pub fn intake(&mut self, s: SubId) -> Intake
        requires { s < self.old.store.past.pool.limits.submitters }
        ensures intakes { Intakes B.rooted_as self.old s result self.new }
        ensures pool { self.new.store.past.pool ≡ self.old.store.past.pool }
    {
        if let Some(answer) = ready(&mut self.store, s) {
            return answer;
        }
        match self.drains[s.0 as usize].take() {
            None => Intake::Empty,
            Some(parcel) => {
                let Parcel { ticket, body } = parcel;
                let serial = hand_in(&mut self.store, s, body);
                self.bookings.push(Booking {
                    ticket,
                    serial,
                    by: s,
                });
                make_due(&mut self.store, self.closing, self.bookings.len());
                Intake::Took(serial)
            }
        }
    }
}

/// The answer of an intake that does not look into the lane, if there is one.
fn ready<B: Body>(store: &mut Store<B>, s: SubId) -> Option<Intake>
    requires { s < store.old.past.pool.limits.submitters }
    ensures { Readies store.old s result store.new }
{
    if store.is_stuck() {
        return Some(Intake::Full(Refusal::LogFull));
    }
    match store.submit_refusal(s, &SubmittedKind::Plain) {
        None => None,
        Some(refusal) => match refusal {
            Refusal::Closed => Some(Intake::Empty),
            Refusal::LogFull => {
                if store.is_quiescent() {
                    store.stick();
                }
                Some(Intake::Full(Refusal::LogFull))
            }
            other => Some(Intake::Full(other)),
        },
    }
}

/// Submits a body as `Body::rooted` says. Precondition: a submission is not refused.
fn hand_in<B: Body>(store: &mut Store<B>, s: SubId, body: B) -> Serial
    requires { refused_now store.old.past s ≡ None }
    ensures submits { Submits B.rooted_as store.old s body result store.new }
    ensures event { store.new.past ≡ grown store.old.past (Acc result (Sub s) (submitted_kind (kind_rooted (B.rooted_as body))) ∷ []) }
{
    let kind = kind_of(body.rooted());
    store.submit(s, &kind, body)
}

/// The kind under which a body is submitted. The code of a completer is relayed.
fn kind_of(rooted: Option<u16>) -> SubmittedKind
    ensures kind { result ≡ kind_rooted rooted }
    ensures small { count_in (Some (submitted_kind result)) ≤ MAX_PENDING }
{
    match rooted {
        None => SubmittedKind::Plain,
        Some(count) => SubmittedKind::Completer {
            count: u32::from(count),
            relay: true,
        },
    }
}
