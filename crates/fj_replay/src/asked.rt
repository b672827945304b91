use fj_lines::Name;
use fj_rules::Step;

/// What a line of a script asks for, with its names resolved.
#[derive(Drop)]
pub enum Asked {
    /// A step.
    Step(Step),
    /// A step that accepts a task, to be given this name.
    Accept(Name, Step),
    /// The end of an epoch.
    Seal,
    /// The query of the present epoch.
    Epoch,
}
