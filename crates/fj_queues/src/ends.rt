ghost use Rattle.std.specs.Prelude.{◌≡◌, ◌<◌, Some, None, length, IfSome, IfNone, MatchOption, vec_capacity};

use crate::cells::Cells;

/// The cells at the ends of a queue, none where it is empty, and its length.
#[derive(Clone, Copy)]
pub struct Ends {
    pub oldest: Option<usize>,
    pub newest: Option<usize>,
    pub len: usize,
}

impl Ends {
    ghost use Rattle.fj_queues.specs.Cells.{newer_at};
    ghost use Rattle.fj_queues.specs.Chains.{IsQueue, IsAppended, LosesFirst, LosesLast};

    /// An empty queue.
    pub const EMPTY: Ends = Ends {
        oldest: None,
        newest: None,
        len: 0,
    };

    /// Links a cell at the new end. Precondition: the cell is in no queue, and has no newer neighbour.
    pub fn append(&mut self, cells: &mut Cells, number: usize)
        requires queue { IsQueue cells.old.table.items self.old }
        requires cell { number < length cells.old.table.items }
        requires alone { newer_at cells.old.table.items number ≡ None }
        requires len { self.old.len < length cells.old.table.items }
        ensures appended { IsAppended cells.old.table.items cells.new.table.items self.old self.new number }
        ensures table { length cells.new.table.items ≡ length cells.old.table.items }
        ensures free { cells.new.free ≡ cells.old.free }
        ensures capacity { vec_capacity cells.new.table ≡ vec_capacity cells.old.table }
    {
        cells.join(self.newest, Some(number));
        self.newest = Some(number);
        if self.len == 0 {
            self.oldest = Some(number);
        }
        self.len += 1;
    }

    /// Unlinks the oldest cell, and answers it. None, with nothing changed, if the queue is empty.
    pub fn detach_oldest(&mut self, cells: &mut Cells) -> Option<usize>
        requires queue { IsQueue cells.old.table.items self.old }
        ensures taken { result ≡ self.old.oldest }
        ensures rest { IfSome result (λ c. LosesFirst cells.old.table.items cells.new.table.items self.old self.new c) }
        ensures stays { IfNone result ((self.new ≡ self.old) × (cells.new ≡ cells.old)) }
        ensures table { length cells.new.table.items ≡ length cells.old.table.items }
        ensures free { cells.new.free ≡ cells.old.free }
        ensures capacity { vec_capacity cells.new.table ≡ vec_capacity cells.old.table }
    {
        let number = self.oldest?;
        let newer = cells.table[number].newer;
        cells.join(None, newer);
        self.oldest = newer;
        if newer.is_none() {
            self.newest = None;
        }
        self.len -= 1;
        Some(number)
    }

    /// Unlinks the newest cell, and answers it. None, with nothing changed, if the queue is empty.
    pub fn detach_newest(&mut self, cells: &mut Cells) -> Option<usize>
        requires queue { IsQueue cells.old.table.items self.old }
        ensures taken { result ≡ self.old.newest }
        ensures rest { IfSome result (λ c. LosesLast cells.old.table.items cells.new.table.items self.old self.new c) }
        ensures stays { IfNone result ((self.new ≡ self.old) × (cells.new ≡ cells.old)) }
        ensures table { length cells.new.table.items ≡ length cells.old.table.items }
        ensures free { cells.new.free ≡ cells.old.free }
        ensures capacity { vec_capacity cells.new.table ≡ vec_capacity cells.old.table }
    {
        let number = self.newest?;
        let older = cells.table[number].older;
        cells.join(older, None);
        self.newest = older;
        if older.is_none() {
            self.oldest = None;
        }
        self.len -= 1;
        Some(number)
    }
}
