ghost use Rattle.std.specs.Prelude.{◌≡◌, ◌⊎◌};
ghost use Rattle.fj_commands.specs.Statuses.{IsOfFailure};
ghost use Rattle.fj_cli.specs.Answers.{status_of_refusal};

use fj_commands::{told, told_line};
use fj_rules::Refusal;
use fj_streams::Sink;

/// Writes why a job has no value, and answers the exit status: 4 for `OutOfMemory`, otherwise 3.
pub fn refused<E: Sink>(refusal: Refusal, err: &mut E) -> u8
    ensures status { result ≡ status_of_refusal refusal }
    ensures fails { IsOfFailure result }
    ensures known { (result ≡ 3) ⊎ (result ≡ 4) }
{
    match refusal {
        Refusal::OutOfMemory => told(err, "out of memory\n", 4),
        _ => told_line(err, "refused ", refusal.number(), 3),
    }
}
