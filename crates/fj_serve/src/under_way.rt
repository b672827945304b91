ghost use Rattle.std.specs.Prelude.{◌≡◌, ◌+◌, ◌<◌, ◌≤◌, IfSome, IfNone, OnOk, vec_capacity, vec_len};
ghost use Rattle.std.specs.VecDeque.{deque_capacity};
ghost use Rattle.fj_serve.specs.UnderWays.{HasRoom, how_many};

use crate::numbered::Numbered;
use crate::window::Window;
use fj_run::{Body, Naming, Outcome, Refusal, Running, Ticket};
use std::alloc::{AllocError, Global};
use std::collections::VecDeque;
use std::sync::Wait;

/// The tickets of what is under way, the oldest first.
#[derive(Drop)]
pub enum UnderWay {
    /// Their outcomes are reported in this order.
    InOrder(VecDeque<Ticket>),
    /// They are reported as they end.
    AsTheyEnd(Numbered),
}

/// The number of a body, and its outcome.
pub type NthOutcome<B> = (u64, Result<Outcome<B>, Refusal>);

impl UnderWay {
    /// Nothing is under way.
    pub fn new(alloc: Global, window: Window) -> UnderWay
        ensures { how_many result ≡ 0 }
    {
        if window.is_as_they_end() {
            UnderWay::AsTheyEnd(Numbered {
                tickets: Vec::new(alloc),
                nths: Vec::new(alloc),
            })
        } else {
            UnderWay::InOrder(VecDeque::new(alloc))
        }
    }

    /// How many there are.
    pub fn len(&self) -> usize
        ensures { result ≡ how_many self.now }
    {
        match self {
            UnderWay::InOrder(tickets) => tickets.len(),
            UnderWay::AsTheyEnd(numbered) => numbered.tickets.len(),
        }
    }

    /// Reserves room for one more.
    pub fn reserve(&mut self) -> Result<(), AllocError>
        ensures same { how_many self.new ≡ how_many self.old }
        ensures room { OnOk result (HasRoom self.new) }
    {
        match self {
            UnderWay::InOrder(tickets) => tickets.reserve(1),
            UnderWay::AsTheyEnd(numbered) => {
                numbered.tickets.reserve(1)?;
                numbered.nths.reserve(1)
            }
        }
    }

    /// Appends the ticket of the nth body. Precondition: there is room.
    pub fn push(&mut self, ticket: Ticket, nth: u64)
        requires { HasRoom self.old }
        ensures { how_many self.new ≡ how_many self.old + 1 }
    {
        match self {
            UnderWay::InOrder(tickets) => tickets.push_back_reserved(ticket),
            UnderWay::AsTheyEnd(numbered) => {
                numbered.tickets.push_reserved(ticket);
                numbered.nths.push_reserved(nth);
            }
        }
    }

    /// Waits for the outcome of the oldest one, which is number `told`, or for the first that ends. None if nothing is under way.
    pub fn wait<B: Body, N: Naming, R: Wait>(
        &mut self,
        pool: &mut Running<'_, '_, B, N, R>,
        told: u64,
    ) -> Option<NthOutcome<B>>
        ensures some { IfSome result (λ told. how_many self.new + 1 ≡ how_many self.old) }
        ensures none { IfNone result (how_many self.new ≡ how_many self.old) }
    {
        match self {
            UnderWay::InOrder(tickets) => match tickets.pop_front() {
                Some(ticket) => Some((told, pool.await_done(ticket))),
                None => None,
            },
            UnderWay::AsTheyEnd(numbered) => {
                match pool.await_any(numbered.tickets.as_slice()) {
                    Some((place, outcome)) => {
                        numbered.tickets.remove(place);
                        Some((numbered.nths.remove(place), outcome))
                    }
                    None => None,
                }
            }
        }
    }
}
