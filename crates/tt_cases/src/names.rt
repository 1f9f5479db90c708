//! Cases of the names of glyphs.

use crate::context::Context;
use crate::files::next_held;
use crate::words::Words;
use anyhow::Result;
use tt_names::GlyphNames;

/// `name FILE GLYPH`: the glyph's name, or `none`.
pub(crate) fn name(context: &Context<'_>, words: &mut Words<'_>) -> Result<String> {
    let alloc = context.rt.alloc();
    let font = next_held(context, words)?;
    let names = GlyphNames::of(alloc, &font)?;
    let name = names.name(words.next_number()?);
    Ok(String::from_str(alloc, name.unwrap_or("none"))?)
}

/// `named FILE NAME`: the first glyph that has the name, or `none`.
pub(crate) fn named(context: &Context<'_>, words: &mut Words<'_>) -> Result<String> {
    let alloc = context.rt.alloc();
    let font = next_held(context, words)?;
    let names = GlyphNames::of(alloc, &font)?;
    match names.glyph_named(words.next()?) {
        Some(glyph) => Ok(format!(in alloc; "{glyph}")?),
        None => Ok(String::from_str(alloc, "none")?),
    }
}
