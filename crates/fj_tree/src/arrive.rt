/// What an arrival at a completer does.
#[derive(Clone, Copy, Debug, PartialEq)]
pub enum Arrived {
    /// The pending count fell by one.
    Counted,
    /// The completer fires, and is now spent.
    Fire,
    /// The completer was spent or done already.
    Spent,
    /// The completer is queued or held, so it cannot fire yet.
    Early,
}
