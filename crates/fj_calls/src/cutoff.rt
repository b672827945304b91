ghost use Rattle.std.specs.Prelude.{◌≡◌, None, false};
ghost use Rattle.fj_calls.specs.Closings.{first_set, is_due};

/// After how many submissions the machine is shut down, and by which step. Java has no counterpart: its pools shut down at once.
#[derive(Clone, Copy, Debug, PartialEq)]
pub struct Cutoff {
    /// The closing number: how many submissions are taken in before the step, once that is known.
    pub number: Option<u64>,
    /// Whether the step is Stop. If not, it is Shutdown.
    pub stopping: bool,
}

impl Cutoff {
    /// No number yet, and Shutdown.
    pub fn new() -> Cutoff
        ensures { result ≡ record { number = None; stopping = false } }
    {
        Cutoff {
            number: None,
            stopping: false,
        }
    }

    /// The same with this number, if there was none. The first one stays.
    pub fn at(self, number: u64) -> Cutoff
        ensures { result ≡ record self { number = first_set self.number number } }
    {
        Cutoff {
            number: Some(self.number.unwrap_or(number)),
            ..self
        }
    }

    /// Whether the number is known, and at most `taken_in`.
    pub fn is_due(&self, taken_in: usize) -> bool
        ensures { result ≡ is_due self.now.number taken_in }
    {
        match self.number {
            Some(number) => number <= taken_in as u64,
            None => false,
        }
    }
}
