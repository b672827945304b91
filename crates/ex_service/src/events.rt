use crate::event::Event;
use fj_serve::Producer;
use std::collections::VecDeque;

/// The producer of the events.
#[derive(Drop)]
pub struct Events {
    /// The numbers of those still to come.
    pub numbers: VecDeque<u32>,
}

impl Producer<Event> for Events {
    fn next(&mut self) -> Option<Event> {
        match self.numbers.pop_front() {
            Some(number) => Some(Event { number }),
            None => None,
        }
    }
}
