ghost use Rattle.std.specs.Prelude.{◌≡◌, true};
ghost use Rattle.fj_rules.specs.Places.{place, is_gone};
ghost use Rattle.fj_rules.specs.Tasks.{is_kept};

use fj_machine::Machine;
use fj_rules::{Place, Serial};

/// Whether this place is that of a gone task.
pub fn is_gone(place: Place) -> bool
    ensures { result ≡ is_gone place }
{
    match place {
        Place::Gone => true,
        Place::Queued(_) | Place::Held(_) | Place::Open => false,
    }
}

/// Whether a task is gone. Precondition: it is kept.
pub fn is_gone_now(machine: &Machine, t: Serial) -> bool
    requires { is_kept machine.now.events t ≡ true }
    ensures { result ≡ is_gone (place machine.now.events t) }
{
    match machine.place(t) {
        Some(place) => is_gone(place),
        None => unreachable!(),
    }
}
