ghost use Rattle.std.specs.Prelude.{◌≡◌, ◌↔◌, IsTrue, Some};
ghost use Rattle.fj_rules.specs.Epochs.{IsPast};
ghost use Rattle.fj_rules.specs.Releasable.{is_hooked as is_hooked_in};

use fj_machine::Machine;
use fj_rules::{Serial, WorkerId};

/// Whether the completion action of a task is in some worker's hand.
pub fn is_hooked(machine: &Machine, t: Serial) -> bool
    requires { IsPast machine.now }
    ensures { result ≡ is_hooked_in machine.now.events t }
{
    let limits = machine.limits();
    let _first = machine.hook(WorkerId(0));
    for w in 0..limits.workers() {
        if is_this(machine.hook(WorkerId(w)), t) {
            return true;
        }
    }
    false
}

/// Whether the hook is that of this completer.
fn is_this(hook: Option<Serial>, t: Serial) -> bool
    ensures { IsTrue result ↔ (hook ≡ Some t) }
{
    match hook {
        Some(c) => c == t,
        None => false,
    }
}
