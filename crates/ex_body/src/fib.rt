use fj_free::{Ask, Free, Heard, Kind, Turns};

/// A Fibonacci number, by forks and joins.
#[derive(Drop)]
pub struct Fib {
    /// Which one, counted from 0.
    pub n: u32,
    /// The smaller of the two numbers that make it up, once it is known.
    pub smaller: u64,
}

/// Smaller ones are computed in place.
const SMALL: u32 = 20;

/// The same on one thread.
fn alone(n: u32) -> u64 {
    let (mut this, mut next) = (0u64, 1u64);
    for _ in 0..n {
        (this, next) = (next, this.wrapping_add(next));
    }
    this
}

impl Turns for Fib {
    type Out = u64;

    fn turn(&mut self, heard: Heard<Free<Fib>>) -> Ask<Free<Fib>> {
        match heard {
            Heard::Start(_) if self.n < SMALL => Ask::Ok(alone(self.n)),
            Heard::Start(_) => {
                let n = self.n.saturating_sub(1);
                Ask::Fork(Free::new(Fib { n, smaller: 0 }), Kind::Plain)
            }
            Heard::Task(greater) => {
                self.smaller = alone(self.n.saturating_sub(2));
                Ask::Join(greater)
            }
            Heard::Got(_, greater) => Ask::Ok(greater.wrapping_add(self.smaller)),
            // There was no room for the fork.
            Heard::Handed(..) => Ask::Ok(alone(self.n)),
            _ => Ask::Fail(1),
        }
    }
}
