ghost use Rattle.std.specs.Prelude.{◌≡◌};

/// How many bodies may be under way at a time, and in which order their outcomes are reported.
#[derive(Clone, Copy, Debug, PartialEq)]
pub struct Window {
    size: u32,
    as_they_end: bool,
}

impl Window {
    /// At most `size`, and at least one; outcomes come in the order of the bodies: one that takes long holds up those behind it.
    pub fn in_order(size: u32) -> Window {
        Window {
            size: size.max(1),
            as_they_end: false,
        }
    }

    /// At most `size`, and at least one; outcomes come as they end. Each wait walks over those that came before and are still under way.
    pub fn as_they_end(size: u32) -> Window {
        Window {
            size: size.max(1),
            as_they_end: true,
        }
    }

    /// How many bodies may be under way.
    pub fn size(&self) -> u32
        ensures { result ≡ self.now.size }
    {
        self.size
    }

    /// Whether outcomes come as they end.
    pub fn is_as_they_end(&self) -> bool
        ensures { result ≡ self.now.as_they_end }
    {
        self.as_they_end
    }
}
