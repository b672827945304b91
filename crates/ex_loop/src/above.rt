ghost use Rattle.std.specs.Prelude.{◌≡◌, nat_lt};

use fj_each::Wanted;

/// Wants the numbers above a limit.
#[derive(Drop)]
pub struct Above {
    /// The limit.
    pub limit: u32,
}

impl Wanted<u32> for Above {
    ghost wants = { λ above number. nat_lt above.limit number };

    fn is_wanted(&self, number: &u32) -> bool {
        self.limit < *number
    }
}
