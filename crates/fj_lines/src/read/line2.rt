ghost use Rattle.std.specs.Prelude.{◌≡◌, ◌≤◌, length, Some, Ok, IfOk, OnOk};
ghost use Rattle.fj_lines.specs.Words.{Reads};
ghost use Rattle.fj_lines.specs.Lines.{Line2, HasLine2, line2_text, line2_in};

use crate::line::Line2;
use crate::name::Name;
use crate::read::fault::LineFault;
use crate::read::line::read_line;

/// The most bytes of a line of version 2, without its line feed; one of version 1 has fewer.
pub const MAX_LINE2: usize = 66;

/// Reads a line of a script of version 2 after its heading, without its line feed. `LineFault` where it is not one.
/// Whether the numbers are within the pool's limits, and whether the names belong to tasks, is not checked.
pub fn read_line2(line: &[u8]) -> Result<Line2, LineFault>
    ensures value { Reads (line2_in line.now) result }
    // The line is that of the result.
    ensures written { IfOk result (λ asked. HasLine2 asked × (line.now ≡ line2_text asked)) }
    // Each line is read as what it asks for.
    ensures read { (asked : Line2) → HasLine2 asked → line.now ≡ line2_text asked → result ≡ Ok asked }
    ensures short { OnOk result (length line.now ≤ MAX_LINE2) }
    ensures longest { MAX_LINE2 ≡ 66 }
    // The definition reads each such line as what it asks for.
    ensures again { (asked : Line2) → HasLine2 asked → line2_in (line2_text asked) ≡ Some asked }
{
    read_line::<Name>(line)
}
