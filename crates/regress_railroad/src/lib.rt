//! Railroad diagrams of patterns, as SVG.
#![tactic(auto)]

mod boxes;
mod diagram;
mod draw;
mod layout;
mod parts;
mod picture;
mod row;
mod source;
mod style;
mod ways;

pub use picture::{svg, svg_with_links, svg_with_titles};
pub use source::excerpt;
