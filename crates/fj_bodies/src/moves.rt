ghost use Rattle.std.specs.Prelude.{ℕ, [], ◌≡◌, ◌≤◌, IfNone, IfSome, None, Some, drop, length};
ghost use Rattle.fj_rules.specs.declared.refusal.Refusal.{Refusal as RefusalCase};
ghost use Rattle.fj_rules.specs.Runs.{Steps};
ghost use Rattle.fj_rules.specs.Pasts.{gone_since};
ghost use Rattle.fj_rules.specs.Epochs.{IsPast};
ghost use Rattle.fj_slots.specs.Shelves.{entries, without_entries, without_entry};
ghost use Rattle.fj_body.specs.Stores.{went};

use fj_machine::Machine;
use fj_rules::{Said, Serial, Step};
use fj_slots::SerialMap;

/// Makes a step, and drops the stored bodies of the tasks that become gone by it.
pub fn make<B: Drop>(machine: &mut Machine, bodies: &mut SerialMap<B>, asked: &Step) -> Said
    requires { IsPast machine.old }
    ensures step { Steps machine.old asked.now result machine.new }
    ensures bodies { entries bodies.new ≡ without_entries (entries bodies.old) (went machine.old machine.new) }
    ensures room { bodies.new.room ≡ bodies.old.room }
    ensures refused { (r : RefusalCase) → result ≡ Said.Refused r → (machine.new ≡ machine.old) × (bodies.new ≡ bodies.old) }
{
    let before = machine.gone().len();
    let said = machine.step(asked);
    sweep_since(bodies, machine, before);
    said
}

/// Drops the bodies of the gone tasks from index `before` on. Precondition: `before` is at most the number of tasks gone since the seal.
pub fn sweep_since<B: Drop>(bodies: &mut SerialMap<B>, machine: &Machine, before: usize)
    requires { before ≤ length (gone_since machine.now) }
    ensures entries { entries bodies.new ≡ without_entries (entries bodies.old) (drop before (gone_since machine.now)) }
    ensures room { bodies.new.room ≡ bodies.old.room }
    ensures stays { drop before (gone_since machine.now) ≡ [] → bodies.new ≡ bodies.old }
{
    bodies.sweep(&machine.gone()[before..]);
}

/// The completer whose completion action begins by a step with this reply, and its body, which is taken out. None if there is no such body.
#[inline(always)]
pub fn take_begun<B: Drop>(bodies: &mut SerialMap<B>, said: Said) -> Option<(Serial, B)>
    ensures some { IfSome result (λ r. (said ≡ Said.Hook r.0) × (entries bodies.old r.0 ≡ Some r.1) × (entries bodies.new ≡ without_entry (entries bodies.old) r.0)) }
    ensures none { IfNone result ((bodies.new ≡ bodies.old) × ((p : ℕ) → said ≡ Said.Hook p → entries bodies.old p ≡ None)) }
    ensures room { bodies.new.room ≡ bodies.old.room }
{
    let Said::Hook(p) = said else {
        return None;
    };
    Some((p, bodies.take(p)?))
}
