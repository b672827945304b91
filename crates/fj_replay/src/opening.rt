ghost use Rattle.std.specs.Prelude.{◌≡◌, Some, IfOk, IfErr};
ghost use Rattle.fj_lines.specs.Headings.{pool_in, start};
ghost use Rattle.fj_replay.specs.Stops.{IsHeadStop};

use crate::script_stop::ScriptStop;
use fj_lines::read_head;
use fj_machine::Machine;
use fj_rules::Limits;
use fj_streams::LineStop;
use std::alloc::Global;

/// A new machine by the heading. `Faulty` where it is no heading, `Limits` where a limit is out of its range, `Memory` where out of
/// memory.
pub fn open(alloc: Global, heading: &[u8]) -> Result<Machine, LineStop<ScriptStop>>
    ensures pool { IfOk result (λ m. pool_in heading.now ≡ Some m.pool) }
    ensures fresh { IfOk result (λ m. m ≡ start m.pool) }
    ensures err { IfErr result (IsHeadStop heading.now) }
{
    let Ok(head) = read_head(heading) else {
        return Err(LineStop::Stop(ScriptStop::Faulty));
    };
    let numbers = head.1;
    let Ok(limits) = Limits::new(numbers[0], numbers[1], numbers[2], numbers[3]) else {
        return Err(LineStop::Stop(ScriptStop::Limits));
    };
    match Machine::new(alloc, head.0, limits) {
        Ok(machine) => Ok(machine),
        Err(_) => Err(LineStop::Memory),
    }
}
