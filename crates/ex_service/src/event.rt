use fj_run::{Ask, Body, Heard};

/// An event: its handler squares its number.
#[derive(Drop)]
pub struct Event {
    /// The number.
    pub number: u32,
}

impl Body for Event {
    ghost use Rattle.std.specs.Prelude.{◌≡◌, ◌*◌, ℕ, Option, None};
    ghost use Rattle.fj_body.specs.Turns.{HeardRight, AskRight, Nearer};

    type Key = u32;

    type Out = u64;

    ghost key_of = { λ event. event.number };

    ghost rooted_as = { λ event. None };

    // What is promised of each answer.
    ghost right = { λ number answer. answer ≡ number * number };

    ghost turns = { λ event. 0 };

    fn key(&self) -> &u32 {
        &self.number
    }

    fn into_key(self) -> u32 {
        self.number
    }

    fn rooted(&self) -> Option<u16> {
        None
    }

    fn turn(&mut self, _heard: Heard<Event>) -> Ask<Event>
        requires { HeardRight (λ number answer. answer ≡ number * number) _heard }
        ensures key { self.new.number ≡ self.old.number }
        ensures rooted { ◌≡◌ {A = Option ℕ} None None }
        ensures right { AskRight (λ number answer. answer ≡ number * number) self.old.number result }
        ensures nearer { Nearer 0 0 result }
    {
        let number = u64::from(self.number);
        Ask::Ok(number * number)
    }
}
