//! The search of a number in the list. It is outside of [`Kept`], so it reads numbers only by probes.
ghost use Rattle.std.specs.Prelude.{◌≡◌, ◌≤◌, ◌<◌, ◌+◌, ◌^◌, ℕ, length, IfNone, IfSome};
ghost use Rattle.fj_tree.specs.Kept.{IsAbsent, IsAt, IsListed, IsRising};

use crate::kept::Kept;
use crate::probes::Probes;
use fj_rules::Serial;
use std::cmp::Ordering;

/// The only key that is listed with a number. None if the number is not in the list.
///
/// A binary search: among fewer than 2^k numbers it makes at most k probes. So it makes at most 13 among 4,096, and also among
/// the at most 8,191 in the list where 4,096 records may be kept.
pub fn search(kept: &Kept, serial: Serial, probes: &mut Probes) -> Option<usize>
    ensures found { IfSome result (IsListed kept.now.pairs serial) }
    ensures only { IfSome result (λ key. (other : ℕ) → IsListed kept.now.pairs serial other → other ≡ key) }
    ensures absent { IfNone result (IsAbsent kept.now.pairs serial) }
    ensures halves { (k : ℕ) → length kept.now.pairs < 2 ^ k → probes.new ≤ probes.old + k }
    ensures few { length kept.now.pairs < 8192 → probes.new ≤ probes.old + 13 }
{
    let i = place(kept, serial, probes)?;
    Some(kept.key(i))
}

/// The place of a number. None if the number is not in the list.
fn place(kept: &Kept, serial: Serial, probes: &mut Probes) -> Option<usize>
    ensures found { IfSome result (IsAt kept.now.pairs serial) }
    ensures rising { IsRising kept.now.pairs }
    ensures absent { IfNone result (IsAbsent kept.now.pairs serial) }
    ensures halves { (k : ℕ) → length kept.now.pairs < 2 ^ k → probes.new ≤ probes.old + k }
{
    let mut low = 0;
    let mut high = kept.len();
    while low < high {
        let middle = low + (high - low) / 2;
        match kept.probe(middle, serial, probes) {
            Ordering::Less => low = middle + 1,
            Ordering::Equal => return Some(middle),
            Ordering::Greater => high = middle,
        }
    }
    None
}
