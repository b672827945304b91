/// Why a line is not allowed where it is in a script.
#[derive(Clone, Copy, Debug)]
pub enum ScriptStop {
    /// It is not the heading or step that is due there.
    Faulty,
    /// It is the heading, and a limit is out of its range.
    Limits,
}
