//! Climbs without hooks.
ghost use Rattle.std.specs.Prelude.{◌≡◌, ◌<◌, IsSomeAnd, length};
ghost use Rattle.fj_tree.specs.Arrivals.{arrived};
ghost use Rattle.fj_tree.specs.Handles.{numbers_of};
ghost use Rattle.fj_tree.specs.Passes.{EndsAs, after_climb, passed};
ghost use Rattle.fj_tree.specs.Records.{IsCompleter, IsGood, ChangesEach, changed, count, made_spent, record_of};
ghost use Rattle.fj_tree.specs.declared.arrive.Arrived.TheVariants.{Counted};

use crate::handle::Handle;
use crate::pass::{PassEnd, PassHow};
use crate::tree::Tree;

impl Tree {
    /// Climbs without hooks from a completer: `CountedCompleter.propagateCompletion`. Precondition: a good handle of a
    /// completer.
    ///
    /// The passed records become spent, and where the climb ends as `Counted`, that count falls by one. Statuses and places stay.
    /// The answer is that of [`Tree::pass_look`] before.
    pub fn pass_up(&mut self, h: Handle) -> PassEnd
        requires { IsCompleter self.old h }
        ensures passed { result.passed ≡ length (passed self.old h) }
        ensures ends { EndsAs self.old h result }
        ensures good { IsGood self.new result.at }
        ensures records { ChangesEach self.old self.new (after_climb (numbers_of (passed self.old h)) result) }
        ensures kept { count self.new ≡ count self.old }
        ensures made { self.new.made ≡ self.old.made }
        ensures room { self.new.room ≡ self.old.room }
    {
        // For the proof: fewer records are passed than were made.
        let _made = self.made;
        let mut passed = 0;
        let mut at = h;
        loop {
            if let Some(how) = self.stop(h, at) {
                if let PassHow::Counted = how {
                    self.count_down(at);
                }
                return PassEnd { passed, at, how };
            }
            let above = self.above(at);
            self.spend(at);
            passed += 1;
            let Some(up) = above else {
                return PassEnd {
                    passed,
                    at,
                    how: PassHow::Root,
                };
            };
            at = up;
        }
    }

    /// Makes a record spent.
    fn spend(&mut self, h: Handle)
        requires { IsGood self.old h }
        ensures { self.new ≡ changed self.old h.key made_spent }
    {
        self.records[h.key].fired = true;
    }

    /// Lowers a pending count by one.
    fn count_down(&mut self, h: Handle)
        requires { IsSomeAnd (record_of self.old h) (λ r. 0 < r.pending) }
        ensures { self.new ≡ changed self.old h.key (arrived Counted) }
    {
        self.records[h.key].pending -= 1;
    }
}
