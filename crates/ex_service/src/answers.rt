use crate::event::Event;
use fj_serve::{Consumer, Reported};

/// What the handlers have answered.
#[derive(Drop)]
pub struct Answers {
    /// The answers, in the order of the events.
    pub answers: Vec<u64>,
    /// Whether an answer was lost: its handler gave none, or out of memory.
    pub lost: bool,
}

impl Consumer<Event> for Answers {
    fn hear(&mut self, _nth: u64, told: Reported<u32, u64>) {
        let kept = match told {
            Reported::Result(_, answer) => self.answers.push(answer).is_ok(),
            _ => false,
        };
        self.lost = self.lost || !kept;
    }
}
