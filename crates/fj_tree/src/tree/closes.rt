//! The closing of all open tasks.
ghost use Rattle.std.specs.Prelude.{◌≡◌, option_map};
ghost use Rattle.fj_rules.specs.Places.{is_open};
ghost use Rattle.fj_tree.specs.Closes.{if_open_gone};
ghost use Rattle.fj_tree.specs.Records.{ChangesEach, KeepsOthers, count, record_at};

use crate::tree::Tree;
use fj_rules::Place;

impl Tree {
    /// Makes every open record gone. All else stays.
    pub fn close_open(&mut self)
        ensures records { ChangesEach self.old self.new if_open_gone }
        ensures kept { count self.new ≡ count self.old }
        ensures made { self.new.made ≡ self.old.made }
        ensures room { self.new.room ≡ self.old.room }
    {
        // each key is below the capacity
        for key in 0..self.records.capacity() {
            self.close_at(key);
        }
    }

    /// Makes the record at a key gone, if there is one and it is open.
    fn close_at(&mut self, key: usize)
        ensures here { record_at self.new key ≡ option_map if_open_gone (record_at self.old key) }
        ensures others { KeepsOthers self.old self.new key }
        ensures kept { count self.new ≡ count self.old }
        ensures made { self.new.made ≡ self.old.made }
        ensures room { self.new.room ≡ self.old.room }
    {
        if self.records.contains(key) && is_open(self.records[key].place) {
            self.records[key].place = Place::Gone;
        }
    }
}

fn is_open(place: Place) -> bool
    ensures { result ≡ is_open place }
{
    matches!(place, Place::Open)
}
