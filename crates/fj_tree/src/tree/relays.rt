//! The relay of a code to the parents.
ghost use Rattle.std.specs.Prelude.{◌≡◌, ◌<◌, IfSome, length};
ghost use Rattle.fj_tree.specs.Handles.{numbers_of};
ghost use Rattle.fj_tree.specs.Records.{IsGood, ChangesEach, count};
ghost use Rattle.fj_tree.specs.Relays.{after_relay, is_undone_at, next_relayed, relayed};

use crate::handle::Handle;
use crate::tree::Tree;
use fj_rules::Status;

impl Tree {
    /// How many tasks a status relayed from this one would reach, itself included: the answer of [`Tree::relay_up`]. Precondition: a good
    /// handle.
    ///
    /// A done task gets nothing and ends the relay. An undone one gets the status, and if its kind says relay, the relay goes on at its
    /// parent. So the answer is 0 for a done task.
    pub fn relay_look(&self, h: Handle) -> u64
        requires { IsGood self.now h }
        ensures { result ≡ length (relayed self.now h) }
    {
        // For the proof: fewer records get it than were made.
        let _made = self.made;
        let mut relayed = 0;
        let mut at = h;
        while self.is_undone(at) {
            relayed += 1;
            let Some(up) = self.next_relayed(at) else {
                return relayed;
            };
            at = up;
        }
        relayed
    }

    /// Relays a status from a task, and answers how many tasks get it, itself included. Precondition: a good handle.
    ///
    /// They are those that [`Tree::relay_look`] counts. All else stays. In Java, `CountedCompleter.onExceptionalCompletion` decides
    /// which parents a status reaches.
    pub fn relay_up(&mut self, h: Handle, status: Status) -> u64
        requires { IsGood self.old h }
        ensures relayed { result ≡ length (relayed self.old h) }
        ensures records { ChangesEach self.old self.new (after_relay (numbers_of (relayed self.old h)) status) }
        ensures kept { count self.new ≡ count self.old }
        ensures made { self.new.made ≡ self.old.made }
        ensures room { self.new.room ≡ self.old.room }
    {
        // For the proof: fewer records get it than were made.
        let _made = self.made;
        let mut relayed = 0;
        let mut at = h;
        while self.is_undone(at) {
            let next = self.next_relayed(at);
            self.set_status(at, status);
            relayed += 1;
            let Some(up) = next else {
                return relayed;
            };
            at = up;
        }
        relayed
    }

    /// Whether a task is undone.
    fn is_undone(&self, h: Handle) -> bool
        requires { IsGood self.now h }
        ensures { result ≡ is_undone_at self.now h }
    {
        self.records[h.key].status.is_undone()
    }

    /// The parent to which a task relays its status.
    fn next_relayed(&self, h: Handle) -> Option<Handle>
        requires { IsGood self.now h }
        ensures next { result ≡ next_relayed self.now h }
        ensures good { IfSome result (IsGood self.now) }
        ensures smaller { IfSome result (λ up. up.serial < h.serial) }
    {
        if self.records[h.key].kind.relays() {
            self.above(h)
        } else {
            None
        }
    }
}
