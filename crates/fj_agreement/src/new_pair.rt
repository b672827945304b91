ghost use Rattle.std.specs.Prelude.{◌≡◌, IfOk};

use crate::end::End;
use crate::values::Known;
use crate::word::{Half, Word};
use fj_rules::OutOfMemory;
use std::alloc::Global;
use std::sync::Arc;

/// The two ends of a new pair. Both know the first value of their type. Java has no counterpart.
///
/// `OutOfMemory` if an allocation fails, and no other error. No other call of this crate allocates.
pub fn pair<V: Known>(alloc: Global) -> Result<(End<V>, End<V>), OutOfMemory>
    ensures pair { IfOk result (λ r. r.0.pair ≡ r.1.pair) }
    ensures first { IfOk result (λ r. (r.0.value ≡ V.first) × (r.1.value ≡ V.first)) }
{
    let (word, mut token) = Word::<V>::of_words(alloc, &[0], &())?;
    let table = Arc::new(alloc, word)?;
    let other_table = Arc::try_clone(&table)?;
    let other_token = table.shared.split_seat::<Half>(&mut token);
    Ok((
        End { table, token },
        End {
            table: other_table,
            token: other_token,
        },
    ))
}
