//! Units of a section, each read whole.

ghost use Rattle.std.specs.Prelude.{◌≡◌, ◌++◌, ℕ, List, Option, IfErr, IfSome};
ghost use Rattle.tt_stream.specs.Reads.{ConsumesBeginning};
ghost use Rattle.tt_cert.specs.Answers.{CountsRead, IsOutOfMemory};
ghost use Rattle.tt_cert.specs.Representation.Clauses.{BeginsWith, ReadsBy, StopsWhole};
ghost use Rattle.tt_cert.specs.Readers.{unit};
ghost use Rattle.tt_cert.specs.Rules.{CellFits, GraphicsFits};
ghost use Rattle.tt_cert.specs.Text.{cell_text, graphics_text, long, word, zone_text};
ghost use Rattle.tt_cert.specs.Reading.{cell_at, graphics_at, long_at, name_at, pair_at, pair_from, word_at, zone_at};

use tt_abs::Cell;
use tt_code::Graphics;
use tt_setting::{CertFault, Name, ZoneCell};
use tt_stream::{Source, read_full};

/// Reads a unit of N bytes that aren't all read ahead.
///
/// # Errors
/// As `read_unit`.
#[cold]
#[inline(never)]
fn fetch_unit<S: Source, const N: usize>(
    source: &mut S,
    place: u64,
) -> Result<([u8; N], u64), CertFault>
    ensures reads { ReadsBy (unit N) place result
        (S.remaining source.old) (S.remaining source.new) }
    ensures beginning { ConsumesBeginning (S.remaining source.old) (S.remaining source.new) }
    ensures stopped { StopsWhole (unit N) place result
        (S.remaining source.old) (S.remaining source.new) }
    ensures failures { CountsRead result (S.failures source.old) (S.failures source.new) }
    ensures memory { IfErr result (λ fault. ¬ IsOutOfMemory fault) }
{
    let mut bytes = [0u8; N];
    let count = read_full(source, &mut bytes)?;
    let after = place.saturating_add(count as u64);
    if count < N {
        return Err(CertFault::Form(after));
    }
    Ok((bytes, after))
}

/// Reads a unit of N bytes at a place, and returns it with the place after it.
///
/// # Errors
/// `Form` with the place of the input's end, if that comes too early; `Read` where a read failed.
#[inline]
fn read_unit<S: Source, const N: usize>(
    source: &mut S,
    place: u64,
) -> Result<([u8; N], u64), CertFault>
    ensures reads { ReadsBy (unit N) place result
        (S.remaining source.old) (S.remaining source.new) }
    ensures beginning { ConsumesBeginning (S.remaining source.old) (S.remaining source.new) }
    ensures stopped { StopsWhole (unit N) place result
        (S.remaining source.old) (S.remaining source.new) }
    ensures failures { CountsRead result (S.failures source.old) (S.failures source.new) }
    ensures memory { IfErr result (λ fault. ¬ IsOutOfMemory fault) }
{
    let Some(front) = source.ahead().first_chunk::<N>() else {
        return fetch_unit(source, place);
    };
    let bytes = *front;
    source.skip(N);
    Ok((bytes, place.saturating_add(N as u64)))
}

/// Reads a number of 16 bits.
///
/// # Errors
/// As `read_unit`.
#[tactic(auto, unfolding(crate::specs::Reading::word_at))]
pub(crate) fn read_word<S: Source>(source: &mut S, place: u64) -> Result<(u16, u64), CertFault>
    ensures reads { ReadsBy word_at place result (S.remaining source.old) (S.remaining source.new) }
    ensures beginning { ConsumesBeginning (S.remaining source.old) (S.remaining source.new) }
    ensures stopped { StopsWhole word_at place result
        (S.remaining source.old) (S.remaining source.new) }
    ensures failures { CountsRead result (S.failures source.old) (S.failures source.new) }
    ensures memory { IfErr result (λ fault. ¬ IsOutOfMemory fault) }
{
    let (unit, after) = read_unit::<S, 2>(source, place)?;
    Ok((u16::from_be_bytes(unit), after))
}

/// Reads a number of 32 bits.
///
/// # Errors
/// As `read_unit`.
#[tactic(auto, unfolding(crate::specs::Reading::long_at))]
pub(crate) fn read_long<S: Source>(source: &mut S, place: u64) -> Result<(u32, u64), CertFault>
    ensures reads { ReadsBy long_at place result (S.remaining source.old) (S.remaining source.new) }
    ensures beginning { ConsumesBeginning (S.remaining source.old) (S.remaining source.new) }
    ensures stopped { StopsWhole long_at place result
        (S.remaining source.old) (S.remaining source.new) }
    ensures failures { CountsRead result (S.failures source.old) (S.failures source.new) }
    ensures memory { IfErr result (λ fault. ¬ IsOutOfMemory fault) }
{
    let (unit, after) = read_unit::<S, 4>(source, place)?;
    Ok((u32::from_be_bytes(unit), after))
}

/// Returns the number of 16 bits and the one of 32 that these bytes are.
pub(crate) fn pair_of(unit: [u8; 6]) -> (u16, u32)
    ensures { result ≡ pair_from unit }
{
    let [w1, w0, l3, l2, l1, l0] = unit;
    let word = u16::from_be_bytes([w1, w0]);
    let long = u32::from_be_bytes([l3, l2, l1, l0]);
    (word, long)
}

/// Reads a number of 16 bits and one of 32.
///
/// # Errors
/// As `read_unit`.
#[tactic(auto, unfolding(crate::specs::Reading::pair_at))]
pub(crate) fn read_pair<S: Source>(
    source: &mut S,
    place: u64,
) -> Result<((u16, u32), u64), CertFault>
    ensures reads { ReadsBy pair_at place result (S.remaining source.old) (S.remaining source.new) }
    ensures beginning { ConsumesBeginning (S.remaining source.old) (S.remaining source.new) }
    ensures stopped { StopsWhole pair_at place result
        (S.remaining source.old) (S.remaining source.new) }
    ensures failures { CountsRead result (S.failures source.old) (S.failures source.new) }
    ensures memory { IfErr result (λ fault. ¬ IsOutOfMemory fault) }
{
    let (unit, after) = read_unit::<S, 6>(source, place)?;
    Ok((pair_of(unit), after))
}

/// Reads the name of a section's program.
///
/// # Errors
/// As `read_unit`, and `Form` with the unit's place if it is no name.
#[tactic(auto, unfolding(crate::specs::Reading::name_at))]
pub(crate) fn read_name<S: Source>(source: &mut S, place: u64) -> Result<(Name, u64), CertFault>
    ensures reads { ReadsBy name_at place result (S.remaining source.old) (S.remaining source.new) }
    ensures beginning { ConsumesBeginning (S.remaining source.old) (S.remaining source.new) }
    ensures stopped { StopsWhole name_at place result
        (S.remaining source.old) (S.remaining source.new) }
    ensures failures { CountsRead result (S.failures source.old) (S.failures source.new) }
    ensures memory { IfErr result (λ fault. ¬ IsOutOfMemory fault) }
{
    let (unit, after) = read_unit::<S, 3>(source, place)?;
    let [kind, high, low] = unit;
    let glyph = u16::from_be_bytes([high, low]);
    match (kind, glyph) {
        (2, id) => Ok((Name::Glyph(id), after)),
        (0, 0) => Ok((Name::Font, after)),
        (1, 0) => Ok((Name::Cvt, after)),
        _ => Err(CertFault::Form(place)),
    }
}

/// Reads what is known of a number.
///
/// # Errors
/// As `read_unit`, and `Form` with the tag's place if it is neither 0 nor 1.
#[inline]
#[tactic(auto, unfolding(crate::specs::Reading::cell_at))]
pub(crate) fn read_cell<S: Source>(source: &mut S, place: u64) -> Result<(Cell, u64), CertFault>
    ensures reads { ReadsBy cell_at place result (S.remaining source.old) (S.remaining source.new) }
    ensures beginning { ConsumesBeginning (S.remaining source.old) (S.remaining source.new) }
    ensures stopped { StopsWhole cell_at place result
        (S.remaining source.old) (S.remaining source.new) }
    ensures failures { CountsRead result (S.failures source.old) (S.failures source.new) }
    ensures memory { IfErr result (λ fault. ¬ IsOutOfMemory fault) }
{
    let (unit, after) = read_unit::<S, 1>(source, place)?;
    let [tag] = unit;
    match tag {
        0 => Ok((Cell::Unknown, after)),
        1 => {
            let (number, after) = read_unit::<S, 4>(source, after)?;
            Ok((Cell::Known(i32::from_be_bytes(number)), after))
        }
        _ => Err(CertFault::Form(place)),
    }
}

/// Reads what is known of a zone pointer.
///
/// # Errors
/// As `read_unit`, and `Form` with the unit's place if it is above 2.
#[inline]
#[tactic(auto, unfolding(crate::specs::Reading::zone_at))]
fn read_zone<S: Source>(source: &mut S, place: u64) -> Result<(ZoneCell, u64), CertFault>
    ensures reads { ReadsBy zone_at place result (S.remaining source.old) (S.remaining source.new) }
    ensures beginning { ConsumesBeginning (S.remaining source.old) (S.remaining source.new) }
    ensures stopped { StopsWhole zone_at place result
        (S.remaining source.old) (S.remaining source.new) }
    ensures failures { CountsRead result (S.failures source.old) (S.failures source.new) }
    ensures memory { IfErr result (λ fault. ¬ IsOutOfMemory fault) }
{
    let (unit, after) = read_unit::<S, 1>(source, place)?;
    let [byte] = unit;
    match byte {
        0 => Ok((ZoneCell::Zero, after)),
        1 => Ok((ZoneCell::One, after)),
        2 => Ok((ZoneCell::Either, after)),
        _ => Err(CertFault::Form(place)),
    }
}

/// Reads what is known of the graphics state, unit by unit.
///
/// # Errors
/// As `read_cell` and `read_zone`.
#[cold]
#[inline(never)]
#[tactic(auto, unfolding(crate::specs::Reading::graphics_at))]
fn read_registers<S: Source>(
    source: &mut S,
    place: u64,
) -> Result<(Graphics<Cell, ZoneCell>, u64), CertFault>
    ensures reads { ReadsBy graphics_at place result
        (S.remaining source.old) (S.remaining source.new) }
    ensures beginning { ConsumesBeginning (S.remaining source.old) (S.remaining source.new) }
    ensures stopped { StopsWhole graphics_at place result
        (S.remaining source.old) (S.remaining source.new) }
    ensures failures { CountsRead result (S.failures source.old) (S.failures source.new) }
    ensures memory { IfErr result (λ fault. ¬ IsOutOfMemory fault) }
{
    let (rp0, at) = read_cell(source, place)?;
    let (rp1, at) = read_cell(source, at)?;
    let (rp2, at) = read_cell(source, at)?;
    let (zp0, at) = read_zone(source, at)?;
    let (zp1, at) = read_zone(source, at)?;
    let (zp2, at) = read_zone(source, at)?;
    let (loop_number, at) = read_cell(source, at)?;
    let graphics = Graphics {
        rp0,
        rp1,
        rp2,
        zp0,
        zp1,
        zp2,
        loop_number,
    };
    Ok((graphics, at))
}

/// Takes a number of 16 bits from the front of these bytes, if all of it is there.
#[inline]
pub(crate) fn take_word(bytes: &[u8]) -> Option<(u16, &[u8])>
    ensures { IfSome result (λ r. bytes.now ≡ word r.0 ++ r.1.now) }
{
    let (unit, rest) = bytes.split_first_chunk::<2>()?;
    Some((u16::from_be_bytes(*unit), rest))
}

/// Takes a number of 32 bits from the front of these bytes, if all of it is there.
#[inline]
pub(crate) fn take_long(bytes: &[u8]) -> Option<(u32, &[u8])>
    ensures { IfSome result (λ r. bytes.now ≡ long r.0 ++ r.1.now) }
{
    let (unit, rest) = bytes.split_first_chunk::<4>()?;
    Some((u32::from_be_bytes(*unit), rest))
}

/// Takes what is known of a number from the front of these bytes, if all of it is there.
#[inline]
fn take_cell(bytes: &[u8]) -> Option<(Cell, &[u8])>
    ensures { IfSome result (λ r. BeginsWith cell_text CellFits bytes.now r.0 r.1.now) }
{
    match bytes {
        [0, rest @ ..] => Some((Cell::Unknown, rest)),
        [1, b3, b2, b1, b0, rest @ ..] => {
            let number = i32::from_be_bytes([*b3, *b2, *b1, *b0]);
            Some((Cell::Known(number), rest))
        }
        _ => None,
    }
}

/// Takes what is known of a zone pointer from the front of these bytes, if it is there.
#[inline]
fn take_zone(bytes: &[u8]) -> Option<(ZoneCell, &[u8])>
    ensures { IfSome result (λ r. bytes.now ≡ zone_text r.0 ++ r.1.now) }
{
    match bytes {
        [0, rest @ ..] => Some((ZoneCell::Zero, rest)),
        [1, rest @ ..] => Some((ZoneCell::One, rest)),
        [2, rest @ ..] => Some((ZoneCell::Either, rest)),
        _ => None,
    }
}

/// Takes what is known of the graphics state from the front of these bytes, if all of it is there.
#[inline]
fn take_graphics(bytes: &[u8]) -> Option<(Graphics<Cell, ZoneCell>, &[u8])>
    ensures { IfSome result (λ r. BeginsWith graphics_text GraphicsFits bytes.now r.0 r.1.now) }
{
    let (rp0, rest) = take_cell(bytes)?;
    let (rp1, rest) = take_cell(rest)?;
    let (rp2, rest) = take_cell(rest)?;
    let (zp0, rest) = take_zone(rest)?;
    let (zp1, rest) = take_zone(rest)?;
    let (zp2, rest) = take_zone(rest)?;
    let (loop_number, rest) = take_cell(rest)?;
    let graphics = Graphics {
        rp0,
        rp1,
        rp2,
        zp0,
        zp1,
        zp2,
        loop_number,
    };
    Some((graphics, rest))
}

/// Reads what is known of the graphics state: at once, where all of it is read ahead.
///
/// # Errors
/// As `read_cell` and `read_zone`.
pub(crate) fn read_graphics<S: Source>(
    source: &mut S,
    place: u64,
) -> Result<(Graphics<Cell, ZoneCell>, u64), CertFault>
    ensures reads { ReadsBy graphics_at place result
        (S.remaining source.old) (S.remaining source.new) }
    ensures beginning { ConsumesBeginning (S.remaining source.old) (S.remaining source.new) }
    ensures stopped { StopsWhole graphics_at place result
        (S.remaining source.old) (S.remaining source.new) }
    ensures failures { CountsRead result (S.failures source.old) (S.failures source.new) }
    ensures memory { IfErr result (λ fault. ¬ IsOutOfMemory fault) }
{
    let ahead = source.ahead();
    if let Some((graphics, rest)) = take_graphics(ahead) {
        let width = ahead.len() - rest.len();
        source.skip(width);
        return Ok((graphics, place.saturating_add(width as u64)));
    }
    read_registers(source, place)
}
