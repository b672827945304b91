//! The cancelling of all undone tasks.
ghost use Rattle.std.specs.Prelude.{◌≡◌, option_map};
ghost use Rattle.fj_tree.specs.Cancels.{if_undone_cancelled};
ghost use Rattle.fj_tree.specs.Records.{ChangesEach, KeepsOthers, count, record_at};

use crate::tree::Tree;
use fj_rules::Status;

impl Tree {
    /// Makes every undone record cancelled, as `ForkJoinPool.shutdownNow` does. All else stays.
    pub fn cancel_undone(&mut self)
        ensures records { ChangesEach self.old self.new if_undone_cancelled }
        ensures kept { count self.new ≡ count self.old }
        ensures made { self.new.made ≡ self.old.made }
        ensures room { self.new.room ≡ self.old.room }
    {
        // each key is below the capacity
        for key in 0..self.records.capacity() {
            self.cancel_at(key);
        }
    }

    /// Makes the record at a key cancelled, if there is one and it is undone.
    fn cancel_at(&mut self, key: usize)
        ensures here { record_at self.new key ≡ option_map if_undone_cancelled (record_at self.old key) }
        ensures others { KeepsOthers self.old self.new key }
        ensures kept { count self.new ≡ count self.old }
        ensures made { self.new.made ≡ self.old.made }
        ensures room { self.new.room ≡ self.old.room }
    {
        if self.records.contains(key) && self.records[key].status.is_undone() {
            self.records[key].status = Status::Cancelled;
        }
    }
}
