//! The names of a font's glyphs (OpenType specification, `post`).
#![tactic(auto)]

mod names;
mod post;
mod standard;
mod strings;

pub use names::GlyphNames;
