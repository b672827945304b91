//! The release of tasks.
ghost use Rattle.std.specs.Prelude.{◌≡◌, ◌+◌, IsSomeAnd, None, OnErr, OnOk};
ghost use Rattle.fj_tree.specs.Makes.{IsRefusedBy};
ghost use Rattle.fj_tree.specs.Paths.{above};
ghost use Rattle.fj_tree.specs.Records.{ChangesOthers, count, parent_at, record_at, record_of};
ghost use Rattle.fj_tree.specs.Releases.{release_refusal, without_child_of};

use crate::handle::Handle;
use crate::tree::Tree;
use fj_rules::{Place, Refusal};

impl Tree {
    /// Forgets a task. Refused, with nothing changed, as `Unknown` if the handle is not good, and `NotDone` if the task is not gone
    /// or has children that are kept.
    ///
    /// The number of the task is never reused, and its handle is never good again. Its parent has one child fewer. Java has no such
    /// call: it has a garbage collector.
    pub fn release(&mut self, h: Handle) -> Result<(), Refusal>
        ensures refused { IsRefusedBy (release_refusal (record_of self.old h)) result }
        ensures stays { OnErr result (self.new ≡ self.old) }
        ensures removed { OnOk result (record_at self.new h.key ≡ None) }
        ensures others { OnOk result (ChangesOthers self.old self.new h.key (without_child_of (parent_at self.old h))) }
        ensures kept { OnOk result (count self.new + 1 ≡ count self.old) }
        ensures made { self.new.made ≡ self.old.made }
        ensures room { self.new.room ≡ self.old.room }
    {
        let Some(record) = self.get(h) else {
            return Err(Refusal::Unknown);
        };
        if !matches!(record.place, Place::Gone) || record.children > 0 {
            return Err(Refusal::NotDone);
        }
        let parent = self.above(h);
        self.remove(h, parent);
        Ok(())
    }

    /// Removes a record, and lowers the child count of its parent.
    fn remove(&mut self, h: Handle, parent: Option<Handle>)
        requires good { IsSomeAnd (record_of self.old h) (λ r. r.children ≡ 0) }
        requires parent { parent ≡ above self.old h }
        ensures removed { record_at self.new h.key ≡ None }
        ensures others { ChangesOthers self.old self.new h.key (without_child_of (parent_at self.old h)) }
        ensures kept { count self.new + 1 ≡ count self.old }
        ensures made { self.new.made ≡ self.old.made }
        ensures room { self.new.room ≡ self.old.room }
    {
        let _removed = self.records.remove(h.key);
        self.kept.release(&self.records);
        if let Some(p) = parent {
            self.records[p.key].children -= 1;
        }
    }
}
