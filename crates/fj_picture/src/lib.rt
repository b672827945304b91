//! A picture of a history, as SVG, that any browser shows: [`write_svg`].
#![tactic(auto)]

mod boxes;
mod escaped;
mod fill;
mod forks;
mod lanes;
mod legend;
mod marks;
mod page;
mod parts;
mod px;
mod scale;
mod steals;
mod strip;
mod style;
mod svg;
mod titles;
mod window;

pub use svg::write_svg;
pub use window::Window;
