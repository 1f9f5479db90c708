//! What a font allows its programs (OpenType specification, `maxp`).

/// The limits of the font's `maxp` table, version 1.0 (OpenType specification, `maxp`).
#[derive(Clone, Copy)]
pub struct Limits {
    /// maxStorage: how many cells the storage area has.
    pub storage: u16,
    /// maxFunctionDefs: one more than the highest function number.
    pub functions: u16,
    /// maxStackElements: how deep the stack may be.
    pub stack: u16,
    /// maxSizeOfInstructions: how many bytes a glyph program may have.
    pub program_size: u16,
    /// maxZones: 1 where the twilight zone isn't used, 2 where it is.
    pub zones: u16,
    /// maxTwilightPoints: how many points the twilight zone has.
    pub twilight: u16,
}
