//! How many numbers of a range are prime, by a divide-and-conquer job: an example of a job of one's own.
//!
//! ```
//! let primes = compute(Primes { range: BlockedRange::new(0, 99, 10) }); // 25
//! ```
#![tactic(auto)]

mod prime;
mod primes;

pub use prime::is_prime;
pub use primes::Primes;
