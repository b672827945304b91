//! The calls of a core, as traits.
mod closing;
mod lanes;
mod making;
mod outside;
mod parts;
mod queries;
mod seats;
mod sleep;
pub mod view;
mod waking;
mod workers;

pub use closing::CoreClosing;
pub use lanes::CoreLanes;
pub use making::CoreMaking;
pub use outside::CoreOutside;
pub use parts::CoreParts;
pub use queries::CoreQueries;
pub use seats::CoreSeats;
pub use sleep::CoreSleep;
pub use view::CoreView;
pub use waking::CoreWaking;
pub use workers::CoreWorkers;
