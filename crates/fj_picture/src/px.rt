use std::fmt;

/// A length in tenths of a pixel, displayed in pixels.
#[derive(Clone, Copy, Debug, PartialEq, Eq, PartialOrd, Ord)]
pub struct Px(pub u64);

impl Px {
    /// The sum.
    pub fn plus(self, other: Px) -> Px {
        Px(self.0.saturating_add(other.0))
    }

    /// The difference, at least 0.
    pub fn minus(self, other: Px) -> Px {
        Px(self.0.saturating_sub(other.0))
    }

    /// So many of it.
    pub fn times(self, n: u64) -> Px {
        Px(self.0.saturating_mul(n))
    }

    /// A half of it.
    pub fn half(self) -> Px {
        Px(self.0 / 2)
    }
}

impl fmt::Display for Px {
    fn fmt<W: fmt::Write>(&self, f: &mut fmt::Formatter<W>) -> fmt::Result {
        let whole = self.0 / 10;
        let tenths = self.0 % 10;
        if tenths == 0 {
            write!(f, "{whole}")
        } else {
            write!(f, "{whole}.{tenths}")
        }
    }
}

/// The width of a picture.
pub const WIDTH: Px = Px(12_400);

/// Where lanes begin.
pub const LEFT: Px = Px(860);

/// The width of all events of a band.
pub const ROOM: Px = Px(11_300);

/// Where what is written on the left of lanes ends.
pub const MARGIN: Px = Px(720);

/// The height of a row of a lane, and of a box in it.
pub const ROW: Px = Px(190);
/// See `ROW`.
pub const BOX: Px = Px(160);

/// From one lane to the next.
pub const LANE_GAP: Px = Px(80);

/// Above the lanes of a band, for its axis.
pub const AXIS: Px = Px(190);

/// From the lanes of a band to the next band.
pub const BAND_GAP: Px = Px(260);

/// Above all bands, for the title and the legend.
pub const HEADER: Px = Px(1_040);

/// The height of a worker in the strip.
pub const STRIP_ROW: Px = Px(90);
