//! Lines and words without a formatter, which never fail where there is room.
ghost use Rattle.std.specs.Prelude.{◌≡◌, ◌+◌, ◌≤◌, ◌++◌, ◌∷◌, [], IsOk, OnOk, length, string_bytes, string_capacity, string_len, decimal};
ghost use Rattle.fj_lines.specs.declared.read.TheConstants.{LINE_FEED};
ghost use Rattle.fj_lines.specs.Words.{joined};
ghost use Rattle.fj_replay.specs.TaskNames.{task_name};

use itoa::Buffer;
use std::alloc::AllocError;

/// Appends a line of two words.
pub fn push_words(text: &mut String, first: &str, second: &str) -> Result<(), AllocError>
    ensures line { OnOk result (string_bytes text.new ≡ string_bytes text.old ++ (joined (first.now ∷ second.now ∷ []) ++ LINE_FEED ∷ [])) }
    ensures fits { string_len text.old + length first.now + length second.now + 2 ≤ string_capacity text.old → IsOk result }
    ensures room { string_capacity text.old ≤ string_capacity text.new }
{
    text.push_str(first)?;
    text.push(' ')?;
    text.push_str(second)?;
    text.push('\n')
}

/// Appends a line of a word and two numbers.
pub fn push_numbers(
    text: &mut String,
    word: &str,
    first: u64,
    second: u64,
) -> Result<(), AllocError>
    ensures line { OnOk result (string_bytes text.new ≡ string_bytes text.old ++ (joined (word.now ∷ decimal first ∷ decimal second ∷ []) ++ LINE_FEED ∷ [])) }
    ensures fits { string_len text.old + length word.now + 43 ≤ string_capacity text.old → IsOk result }
    ensures room { string_capacity text.old ≤ string_capacity text.new }
{
    text.push_str(word)?;
    push_number(text, first)?;
    push_number(text, second)?;
    text.push('\n')
}

/// Appends a space and a number.
pub fn push_number(text: &mut String, number: u64) -> Result<(), AllocError>
    ensures word { OnOk result (string_bytes text.new ≡ string_bytes text.old ++ (32 ∷ decimal number)) }
    ensures few { OnOk result (string_len text.new ≤ string_len text.old + 21) }
    ensures fits { string_len text.old + 21 ≤ string_capacity text.old → IsOk result }
    ensures room { string_capacity text.old ≤ string_capacity text.new }
{
    text.push(' ')?;
    text.push_str(Buffer::new().format(number))
}

/// Appends a space and the name of the task with this number.
pub fn push_task(text: &mut String, number: u64) -> Result<(), AllocError>
    ensures word { OnOk result (string_bytes text.new ≡ string_bytes text.old ++ (32 ∷ task_name number)) }
    ensures few { OnOk result (string_len text.new ≤ string_len text.old + 22) }
    ensures fits { string_len text.old + 22 ≤ string_capacity text.old → IsOk result }
    ensures room { string_capacity text.old ≤ string_capacity text.new }
{
    text.push_str(" t")?;
    text.push_str(Buffer::new().format(number))
}
