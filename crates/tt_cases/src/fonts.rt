//! Cases of font files: what is read of them.

use crate::context::Context;
use crate::files::{bytes_of_file, pieces_of};
use crate::words::Words;
use anyhow::{Result, ensure};
use std::alloc::Global;
use tt_code::Limits;
use tt_font::{Font, FontFault, definitions_hold, read_maxp};

/// Returns a fault's number and its text.
fn fault_text(alloc: Global, fault: &FontFault) -> Result<String> {
    Ok(format!(in alloc; "fault {} {fault}", fault.number())?)
}

/// Adds what a font allows its programs.
fn show_limits(text: &mut String, limits: &Limits) -> Result<()> {
    let (storage, functions, stack) = (limits.storage, limits.functions, limits.stack);
    write!(
        text,
        "storage={storage} functions={functions} stack={stack}"
    )?;
    let (size, zones, twilight) = (limits.program_size, limits.zones, limits.twilight);
    write!(text, " size={size} zones={zones} twilight={twilight}")?;
    Ok(())
}

/// Adds a line for each glyph.
fn show_glyphs(alloc: Global, text: &mut String, font: &Font<'_>) -> Result<()> {
    for id in 0..font.glyph_count() {
        if let Some(glyph) = font.glyph(id) {
            let (points, contours) = (glyph.points, glyph.contours);
            let program = hex::encode_upper(alloc, glyph.program)?;
            write!(
                text,
                "\n| g{id} points={points} contours={contours} g={program}"
            )?;
        }
    }
    ensure!(font.glyph(font.glyph_count()).is_none(), "a glyph too many");
    Ok(())
}

/// How often components of a font are read at most: those of sixteen glyphs with a thousand each,
/// made one of another, at most as often as there are glyphs.
const MOST_READS: u64 = 17 * 16_000;

/// Returns what a font has.
fn font_text(alloc: Global, font: &Font<'_>) -> Result<String> {
    let mut text = String::new(alloc);
    show_limits(&mut text, &font.limits())?;
    let reads = font.component_reads();
    ensure!(reads <= MOST_READS, "too many reads of components");
    write!(text, " cvt={} components={}", font.cvt_count(), reads > 0)?;
    write!(text, "\n| f={}", hex::encode_upper(alloc, font.fpgm())?)?;
    write!(text, "\n| p={}", hex::encode_upper(alloc, font.prep())?)?;
    show_glyphs(alloc, &mut text, font)?;
    Ok(text)
}

/// `read font WORDS`, `read tables WORDS`, `read file PIECES`, each as in the lines that make files:
/// what the font has, or its fault.
pub(crate) fn read(context: &Context<'_>, words: &mut Words<'_>) -> Result<String> {
    let alloc = context.rt.alloc();
    let file = bytes_of_file(context, words.next()?, words)?;
    match Font::read(alloc, &file) {
        Ok(font) => font_text(alloc, &font),
        Err(fault) => fault_text(alloc, &fault),
    }
}

/// `limits_of TABLE`: the limits of a `maxp` table, or its fault.
pub(crate) fn limits_of(context: &Context<'_>, words: &mut Words<'_>) -> Result<String> {
    let alloc = context.rt.alloc();
    definitions_hold();
    match read_maxp(&pieces_of(context, words)?) {
        Ok(limits) => {
            let mut text = String::new(alloc);
            show_limits(&mut text, &limits)?;
            Ok(text)
        }
        Err(fault) => fault_text(alloc, &fault),
    }
}
