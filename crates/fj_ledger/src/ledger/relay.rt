//! How far a code is relayed.
ghost use Rattle.std.specs.Prelude.{◌≡◌, ◌^◌, ◌≤◌, length, true};
ghost use Rattle.fj_rules.specs.Tasks.{is_kept};
ghost use Rattle.fj_rules.specs.Climbs.{relayed};

use crate::ledger::Ledger;
use fj_tree::Handle;

impl Ledger {
    /// How many tasks a code relayed from this one would reach, itself included: 0 if it is done. Precondition: it is kept.
    pub fn relay_look(&self, t: Handle) -> u64
        requires kept { is_kept self.now.events t.serial ≡ true }
        ensures count { result ≡ length (relayed self.now.events t.serial) }
        ensures few { result ≤ 2 ^ 63 }
    {
        self.tree.relay_look(self.tree.renew(t).unwrap())
    }
}
