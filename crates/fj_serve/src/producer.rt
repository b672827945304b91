/// Where the bodies of a service come from.
pub trait Producer<B> {
    /// The next body; None ends the service. It may block, and then the service waits with it: outcomes that come meanwhile are reported later.
    fn next(&mut self) -> Option<B>;
}
