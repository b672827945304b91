ghost use Rattle.std.specs.Prelude.{◌≡◌, true};
ghost use Rattle.fj_body.specs.Releases.{ReleasesPlain};

use fj_machine::Machine;
use fj_rules::{Said, Serial, Step};

/// Releases a task if it may, it is plain, and it can be released. Returns false if it did not; then nothing has changed.
#[inline(always)]
pub fn release_plain(machine: &mut Machine, may: bool, t: Serial) -> bool
    ensures releases { ReleasesPlain machine.old t result machine.new }
    ensures may { result ≡ true → may ≡ true }
{
    if !may || !machine.is_plain(t) {
        return false;
    }
    match machine.step(&Step::Release { t }) {
        Said::Done => true,
        Said::Refused(_) => false,
        _ => unreachable!(),
    }
}
