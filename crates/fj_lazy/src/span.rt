ghost use Rattle.std.specs.Prelude.{◌≤◌};

/// The places of a body among those of its job, from left to right. Of these a forked half gets the right half.
#[derive(Clone, Copy)]
pub struct Span {
    /// The first place.
    pub first: u64,
    /// The last one.
    pub last: u64,
    ghost ordered: { first ≤ last },
}

impl Span {
    /// All places.
    pub const ALL: Span = Span {
        first: 0,
        last: u64::MAX,
    };

    /// Its left and its right half. A single place is both.
    pub fn halves(self) -> (Span, Span) {
        let Span { first, last } = self;
        if first == last {
            return (self, self);
        }
        let middle = first + (last - first) / 2;
        let left = Span {
            first,
            last: middle,
        };
        let right = Span {
            first: middle + 1,
            last,
        };
        (left, right)
    }
}
