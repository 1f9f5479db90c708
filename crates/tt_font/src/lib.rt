//! The font file: from its bytes to limits and programs (OpenType specification, "Font tables").
#![tactic(auto)]

mod component;
mod directory;
mod fault;
mod font;
mod glyph;
mod glyph_part;
mod glyph_table;
mod iteration;
mod laws;
mod maxp;
mod numbers;
mod outline_size;
mod programs;
mod tables;
mod tag;

pub use component::{Component, ComponentReader, GLYPH_HEADER};
pub use directory::table;
pub use fault::FontFault;
pub use font::Font;
pub use glyph::is_composite;
pub use glyph_part::GlyphPart;
pub use glyph_table::GlyphTable;
pub use laws::definitions_hold;
pub use maxp::read_maxp;
pub use numbers::{u16_at, u32_at};
pub use tag::Tag;
