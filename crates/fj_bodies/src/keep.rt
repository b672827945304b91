ghost use Rattle.std.specs.Prelude.{◌≡◌, None};
ghost use Rattle.fj_rules.specs.Lists.{is_in};
ghost use Rattle.fj_slots.specs.Shelves.{AreFewer, entries};
ghost use Rattle.fj_body.specs.Results.{KeepsIn};

use fj_rules::Serial;
use fj_slots::{SerialMap, SerialSet};

/// Keeps the only result of a task under its number, or drops it if the task is marked as taken. Preconditions: it has none, and there is room.
#[inline(always)]
pub fn keep_unless_taken<R: Drop>(results: &mut SerialMap<R>, taken: &SerialSet, t: Serial, kept: R)
    requires first { entries results.old t ≡ None }
    requires room { AreFewer (entries results.old) results.old.room }
    ensures { KeepsIn (is_in t taken.now.items) results.old t kept results.new }
{
    if taken.has(t) {
        return;
    }
    results.put(t, kept);
}
