ghost use Rattle.std.specs.Prelude.{◌≡◌, Bool};

/// What is looked for.
pub trait Wanted<T> {
    /// Whether an item is wanted.
    ghost wants: { Self → T → Bool };

    /// Whether an item is wanted.
    fn is_wanted(&self, item: &T) -> bool
        ensures { result ≡ wants self.now item.now };
}
