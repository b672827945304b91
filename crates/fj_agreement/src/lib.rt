//! Two ends that know the same value, which exists in proofs alone. One end may be guarded by a lock, while a thread has the other.
//!
//! ```
//! // Both know `Holding::first`. A lock guards one, a worker gets the other.
//! let (kept, own) = pair::<Holding>(alloc)?;
//! // With the lock: the guarded state and the worker's hand agree, whatever was done since.
//! own.meet(&mut guard.end);
//! hand.push(t, body);
//! // Now both know what the hand holds.
//! own.agree_on(&mut guard.end, &hand);
//! ```
//!
//! A contract sees an [`End`] as its pair, and the value that it knows. A value changes only if one caller has both ends, and then for
//! both: so what the owner of an end knows stays true, whatever other threads do.
//!
//! No value is made or moved: a call makes three or four loads of a word that never changes, and writes nothing.
#![tactic(auto)]

mod chosen;
mod end;
mod new_pair;
mod values;
mod word;

pub use end::End;
pub use new_pair::pair;
pub use values::{Agreed, Known, Tells};
