ghost use Rattle.fj_lines.specs.Words.{Reads};
ghost use Rattle.fj_notes.specs.NoteReadings.{nanos_in};

use fj_lines::LineFault;
use itoa::Buffer;

/// Reads a decimal number below 2^64, without a sign and without leading zeros. `LineFault` where the word is something else.
pub fn read_nanos(word: &[u8]) -> Result<u64, LineFault>
    ensures { Reads (nanos_in word.now) result }
{
    let Ok(text) = str::from_utf8(word) else {
        return Err(LineFault);
    };
    let Ok(nanos) = text.parse::<u64>() else {
        return Err(LineFault);
    };
    let mut digits = Buffer::new();
    if digits.format(nanos) == text {
        Ok(nanos)
    } else {
        Err(LineFault)
    }
}
