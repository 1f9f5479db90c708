//! What is known of a zone pointer.

ghost use Rattle.std.specs.Prelude.{◌≡◌, ◌↔◌, IsTrue};

/// What is known of a zone pointer.
#[derive(Clone, Copy, Debug, PartialEq, Eq)]
pub enum ZoneCell {
    /// The twilight zone.
    Zero,
    /// The glyph zone.
    One,
    /// One of the two; it isn't known which.
    Either,
}

impl ZoneCell {
    /// Whether the two are the same.
    pub fn is_same(self, other: ZoneCell) -> bool
        ensures { IsTrue result ↔ (self ≡ other) }
    {
        self == other
    }
}
