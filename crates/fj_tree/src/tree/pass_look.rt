//! Where a climb without hooks would end.
ghost use Rattle.std.specs.Prelude.{◌≡◌, IfNone, IsTrue, length};
ghost use Rattle.fj_tree.specs.Passes.{EndsAs, is_passed, passed, stop_at};
ghost use Rattle.fj_tree.specs.Records.{IsCompleter, IsGood};

use crate::handle::Handle;
use crate::pass::{self, PassEnd, PassHow};
use crate::tree::Tree;

impl Tree {
    /// Where a climb without hooks from a completer would end: the answer of [`Tree::pass_up`]. Precondition: a good handle of a completer.
    ///
    /// A record at which an arrival would fire is passed, and the climb goes on at its parent; any other one ends the climb, and so
    /// does a passed one without a parent. The place of the first record is ignored, since its body ends as the climb begins.
    pub fn pass_look(&self, h: Handle) -> PassEnd
        requires { IsCompleter self.now h }
        ensures passed { result.passed ≡ length (passed self.now h) }
        ensures ends { EndsAs self.now h result }
        ensures good { IsGood self.now result.at }
    {
        // For the proof: fewer records are passed than were made.
        let _made = self.made;
        let mut passed = 0;
        let mut at = h;
        loop {
            if let Some(how) = self.stop(h, at) {
                return PassEnd { passed, at, how };
            }
            passed += 1;
            let Some(up) = self.above(at) else {
                return PassEnd {
                    passed,
                    at,
                    how: PassHow::Root,
                };
            };
            at = up;
        }
    }

    /// What ends a climb from `h` at a record of its path. None if the climb passes the record.
    pub(crate) fn stop(&self, h: Handle, at: Handle) -> Option<PassHow>
        requires begins { IsGood self.now h }
        requires good { IsGood self.now at }
        ensures ends { result ≡ stop_at self.now h at }
        ensures passes { IfNone result (IsTrue (is_passed self.now h at)) }
    {
        let record = &self.records[at.key];
        let arrived = if at == h {
            record.own_arrival()
        } else {
            record.arrival()
        };
        pass::end_by(arrived)
    }
}
