ghost use Rattle.std.specs.Prelude.{◌≡◌, MatchOption, ℕ};
ghost use Rattle.ex_pipeline.specs.Stages.{after, and_then, number_of, result_from, run};

/// A stage: it maps a number to another, or rejects it.
#[derive(Clone, Copy, Debug, PartialEq, Eq)]
pub enum Stage {
    /// From the word of a sensor, with 10 in bits 12 and up, to its count, 0 to 4,095. It rejects other words.
    Decode,
    /// From a count to millivolts. It rejects 0, which a broken wire gives, and 4,096 or more.
    Scale,
    /// From millivolts to tenths of a degree. It rejects less than 500.
    Convert,
    /// From tenths of a degree to a level of alarm, one for each 40 degrees. It rejects more than 1,250.
    Grade,
}

impl Stage {
    /// The number to which it maps a number; None where it rejects that.
    pub fn run(self, value: u32) -> Option<u32>
        ensures { result ≡ run self value }
    {
        match self {
            Stage::Decode if value / 4096 == 10 => Some(value % 4096),
            Stage::Scale if value > 0 && value < 4096 => Some(value * 5000 / 4096),
            Stage::Convert if value >= 500 => Some(value - 500),
            Stage::Grade if value <= 1250 => Some(value / 400),
            _ => None,
        }
    }

    /// The stage after it, if there is one.
    pub fn next(self) -> Option<Stage>
        ensures stage { result ≡ after self }
        ensures rest { MatchOption result ((v : ℕ) → result_from self v ≡ run self v) (λ n. (v : ℕ) → result_from self v ≡ and_then (run self v) (result_from n)) }
    {
        match self {
            Stage::Decode => Some(Stage::Scale),
            Stage::Scale => Some(Stage::Convert),
            Stage::Convert => Some(Stage::Grade),
            Stage::Grade => None,
        }
    }

    /// Its number, 1 to 4: the code of an event that it rejects.
    pub fn code(self) -> u32
        ensures { result ≡ number_of self }
    {
        match self {
            Stage::Decode => 1,
            Stage::Scale => 2,
            Stage::Convert => 3,
            Stage::Grade => 4,
        }
    }
}
