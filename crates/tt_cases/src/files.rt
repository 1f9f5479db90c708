//! Files that the lines `font`, `tables` and `file` make, and how files compare.

use crate::context::Context;
use crate::words::{Words, bytes_of, number_of, pair_of};
use anyhow::{Context as _, Result, anyhow, ensure};
use std::alloc::{AllocError, Global};
use std::fs;
use tt_test_fixtures::fonts::{Glyphs, MADE, NoFile, file_of, square};

/// Returns a `maxp` table with the context's limits, for this many glyphs.
pub fn maxp(context: &Context<'_>, glyphs: u16) -> Result<Vec<u8>, AllocError> {
    let limits = context.limits;
    let (zones, twilight, storage) = (limits.zones, limits.twilight, limits.storage);
    let (functions, stack, size) = (limits.functions, limits.stack, limits.program_size);
    let mut table = Vec::new(context.rt.alloc());
    for field in [
        1, 0, glyphs, 4, 1, 0, 0, zones, twilight, storage, functions, 0, stack, size, 0, 0,
    ] {
        table.extend_from_slice(&field.to_be_bytes())?;
    }
    Ok(table)
}

/// Returns a composite glyph that has a glyph this many times as a component.
fn many_times(alloc: Global, id: u16, times: u16) -> Result<Vec<u8>, AllocError> {
    let [high, low] = id.to_be_bytes();
    let mut glyph = MADE.to_vec(alloc)?;
    for i in 0..times {
        let flags = if i + 1 < times { 0x20 } else { 0 };
        glyph.extend_from_slice(&[0, flags, high, low, 0, 0])?;
    }
    Ok(glyph)
}

/// Returns the glyph that a word tells: `g=` one of 4 points with this program, `glyph=` one with
/// these bytes, `made=0*3` one that has glyph 0 as a component three times.
fn glyph_of(alloc: Global, word: &str) -> Result<Vec<u8>> {
    let (kind, value) = pair_of(word, '=')?;
    match kind {
        "g" => Ok(square(alloc, &bytes_of(alloc, value)?)?),
        "glyph" => bytes_of(alloc, value),
        "made" => {
            let (id, times) = pair_of(value, '*')?;
            Ok(many_times(alloc, number_of(id)?, number_of(times)?)?)
        }
        _ => Err(anyhow!("{word} is no glyph")),
    }
}

/// Adds a glyph this many times.
fn push_glyph(glyphs: &mut Glyphs, glyph: &[u8], times: u16) -> Result<(), NoFile> {
    for _ in 0..times {
        glyphs.push(glyph)?;
    }
    Ok(())
}

/// Adds the glyphs that the words tell, all of them as often as `times=` says.
fn push_glyphs(alloc: Global, glyphs: &mut Glyphs, words: &mut Words<'_>) -> Result<()> {
    let times = words.number("times", 1)?;
    for word in words.rest(alloc)? {
        push_glyph(glyphs, &glyph_of(alloc, word)?, times)?;
    }
    Ok(())
}

/// Returns the font file that words tell: `f=` its font program, `p=` its CVT program, then its
/// glyphs, all of them as often as `times=` says.
pub fn font_of(context: &Context<'_>, words: &mut Words<'_>) -> Result<Vec<u8>> {
    let alloc = context.rt.alloc();
    let (fpgm, prep) = (words.bytes(alloc, "f")?, words.bytes(alloc, "p")?);
    let mut glyphs = Glyphs::new(alloc)?;
    push_glyphs(alloc, &mut glyphs, words)?;
    let maxp = maxp(context, glyphs.count())?;
    Ok(glyphs.font_within(alloc, &maxp, &fpgm, &prep)?)
}

/// Returns the table that a word tells, with its tag; `maxp=limits` that of the context.
fn table_of<'a>(context: &Context<'_>, word: &'a str, glyphs: u16) -> Result<(&'a str, Vec<u8>)> {
    let (name, value) = pair_of(word, '=')?;
    let bytes = if value == "limits" {
        maxp(context, glyphs)?
    } else {
        bytes_of(context.rt.alloc(), value)?
    };
    Ok((if name == "cvt" { "cvt " } else { name }, bytes))
}

/// Returns the font file with the tables that words tell, in their order, and for `maxp=limits` as
/// many glyphs as `glyphs=` says.
fn file_of_tables(context: &Context<'_>, words: &mut Words<'_>) -> Result<Vec<u8>> {
    let alloc = context.rt.alloc();
    let glyphs = words.number("glyphs", 1)?;
    let mut tables = Vec::new(alloc);
    for word in words.rest(alloc)? {
        tables.push(table_of(context, word, glyphs)?)?;
    }
    let parts: Vec<(&str, &[u8])> = tables
        .iter()
        .map(|(tag, bytes)| (*tag, bytes.as_slice()))
        .collect(alloc)?;
    Ok(file_of(alloc, &parts)?)
}

/// Returns what a file holds.
pub fn held(context: &Context<'_>, name: &str) -> Result<Vec<u8>> {
    Ok(fs::read(context.rt, name)?)
}

/// Takes the name of a file, and returns what that holds.
pub fn next_held(context: &Context<'_>, words: &mut Words<'_>) -> Result<Vec<u8>> {
    held(context, words.next()?)
}

/// Returns the bytes of a piece: digits, or `@NAME`, or `@NAME:FROM:TO` of another file.
fn piece_of(context: &Context<'_>, piece: &str) -> Result<Vec<u8>> {
    let alloc = context.rt.alloc();
    let Some(source) = piece.strip_prefix('@') else {
        return bytes_of(alloc, piece);
    };
    let Some((name, range)) = source.split_once(':') else {
        return held(context, source);
    };
    let (from, to) = pair_of(range, ':')?;
    let bytes = held(context, name)?;
    let part = bytes.get(number_of(from)?..number_of(to)?);
    let part = part.context(format_args!("{name} has no bytes {range}"))?;
    Ok(Vec::from_slice(alloc, part)?)
}

/// Takes the words up to `as`, and returns the bytes of their pieces.
pub(crate) fn pieces_of(context: &Context<'_>, words: &mut Words<'_>) -> Result<Vec<u8>> {
    let mut bytes = Vec::new(context.rt.alloc());
    for _ in 0..words.len() {
        if words.first() == Some("as") {
            break;
        }
        bytes.extend_from_slice(&piece_of(context, words.next()?)?)?;
    }
    Ok(bytes)
}

/// Returns the bytes of a file of this kind: a `font` of programs, `tables`, or pieces.
pub(crate) fn bytes_of_file(
    context: &Context<'_>,
    kind: &str,
    words: &mut Words<'_>,
) -> Result<Vec<u8>> {
    match kind {
        "font" => font_of(context, words),
        "tables" => file_of_tables(context, words),
        _ => pieces_of(context, words),
    }
}

/// Takes a line that makes a file; whether it is one.
pub(crate) fn make_file(context: &Context<'_>, words: &mut Words<'_>) -> Result<bool> {
    let Some(kind @ ("font" | "tables" | "file")) = words.first() else {
        return Ok(false);
    };
    words.next()?;
    let name = words.next()?;
    if kind == "file" {
        ensure!(words.take_word("="), "= is missing");
    }
    let bytes = bytes_of_file(context, kind, words)?;
    fs::write(context.rt, name, &bytes)?;
    Ok(true)
}

/// Says how bytes compare with those that they should be.
pub fn likeness(bytes: &[u8], want: &[u8]) -> &'static str {
    if bytes == want {
        "same"
    } else if want.starts_with(bytes) {
        "a beginning"
    } else {
        "other bytes"
    }
}

/// `compare NAME WANT`: how what one file holds compares with what another one does.
pub(crate) fn compare(context: &Context<'_>, words: &mut Words<'_>) -> Result<String> {
    let bytes = next_held(context, words)?;
    let want = next_held(context, words)?;
    Ok(String::from_str(context.rt.alloc(), likeness(&bytes, &want))?)
}

/// `size NAME`: how many bytes a file has.
pub(crate) fn size(context: &Context<'_>, words: &mut Words<'_>) -> Result<String> {
    let bytes = next_held(context, words)?;
    Ok(format!(in context.rt.alloc(); "{} bytes", bytes.len())?)
}
