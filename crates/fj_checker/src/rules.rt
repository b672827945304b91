//! When each event may follow.
pub mod accepts;
pub mod climbs;
pub mod ends;
pub mod hands;
pub mod settles;
pub mod shuts;
pub mod takes;
