ghost use Rattle.std.specs.Prelude.{◌≡◌, vec_len};

use fj_run::Ticket;

/// Tickets, and beside each the number of its body, from 0, in the order in which they came.
#[derive(Drop)]
pub struct Numbered {
    pub tickets: Vec<Ticket>,
    pub nths: Vec<u64>,
    ghost beside: { vec_len nths ≡ vec_len tickets },
}
