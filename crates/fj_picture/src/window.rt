use fj_story::{Moment, Story};

/// The events from the one to the other, both included.
#[derive(Clone, Copy, Debug, PartialEq)]
pub struct Window {
    pub from: Moment,
    pub to: Moment,
}

impl Window {
    /// All events.
    pub(crate) fn whole(story: &Story) -> Window {
        Window {
            from: Moment::START,
            to: story.now(),
        }
    }

    /// The part of it that a history has. From the first event on is from before it, as in a whole history.
    pub(crate) fn within(self, story: &Story) -> Window {
        let from = if self.from == Moment::START.next() {
            Moment::START
        } else {
            self.from
        };
        Window {
            from: from.min(story.now()),
            to: self.to.min(story.now()),
        }
    }

    /// How many events it has.
    pub(crate) fn length(self) -> u64 {
        self.to.next().since(self.from)
    }

    /// Whether the event is in it.
    pub(crate) fn has(self, at: Moment) -> bool {
        self.from <= at && at <= self.to
    }
}
