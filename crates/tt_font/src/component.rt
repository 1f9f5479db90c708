//! The components of composite glyphs, and the reader that counts how often they are read (OpenType
//! specification, `glyf`, "Composite glyph description").

ghost use Rattle.std.specs.Prelude.{◌≡◌, ◌≤◌};
ghost use Rattle.tt_font.specs.Components.{component_size};

use crate::numbers::u16_at;

/// How many bytes the header of a glyph has: the offset of a composite glyph's first component.
pub const GLYPH_HEADER: usize = 10;

/// The flag of a component whose two arguments have two bytes each; otherwise they have one each.
const ARG_1_AND_2_ARE_WORDS: u16 = 0x0001;

/// The flag of a component with one scale.
const WE_HAVE_A_SCALE: u16 = 0x0008;

/// The flag of a component after which another one follows.
const MORE_COMPONENTS: u16 = 0x0020;

/// The flag of a component with a scale for each axis.
const WE_HAVE_AN_X_AND_Y_SCALE: u16 = 0x0040;

/// The flag of a component with a matrix of four numbers.
const WE_HAVE_A_TWO_BY_TWO: u16 = 0x0080;

/// The flag of a component after which the glyph's instructions follow.
const WE_HAVE_INSTRUCTIONS: u16 = 0x0100;

/// One of the glyphs of which a composite glyph is made (OpenType specification, `glyf`, "Composite
/// glyph description").
#[derive(Clone, Copy)]
pub struct Component {
    /// Its flags, which say what follows.
    pub flags: u16,
    /// The number of the component's glyph.
    pub glyph: u16,
    /// The offset just after the component.
    pub after: usize,
}

/// Returns how many bytes a component has: its flags, its glyph, its arguments and its scale.
#[tactic(auto, unfolding(crate::specs::Components::component_size))]
fn size_of(flags: u16) -> usize
    ensures size { result ≡ component_size flags }
    ensures least { 6 ≤ result }
    ensures most { result ≤ 16 }
{
    let arguments = if flags & ARG_1_AND_2_ARE_WORDS != 0 {
        4
    } else {
        2
    };
    let scale = if flags & WE_HAVE_A_SCALE != 0 {
        2
    } else if flags & WE_HAVE_AN_X_AND_Y_SCALE != 0 {
        4
    } else if flags & WE_HAVE_A_TWO_BY_TWO != 0 {
        8
    } else {
        0
    };
    4 + arguments + scale
}

impl Component {
    ghost use Rattle.std.specs.Prelude.{◌≡◌};
    ghost use Rattle.tt_font.specs.Components.{has_more, has_instructions};

    /// Whether another component follows.
    pub fn has_more(&self) -> bool
        ensures { result ≡ has_more self.now.flags }
    {
        self.flags & MORE_COMPONENTS != 0
    }

    /// Whether the instructions follow the last component.
    pub(crate) fn has_instructions(&self) -> bool
        ensures { result ≡ has_instructions self.now.flags }
    {
        self.flags & WE_HAVE_INSTRUCTIONS != 0
    }
}

/// Reads the components of glyphs, and counts how often it does.
#[derive(Drop)]
pub struct ComponentReader {
    /// How many components have been read, one that is read again counted again.
    reads: u64,
}

impl ComponentReader {
    ghost use Rattle.std.specs.Prelude.{◌≡◌, ◌^◌, ◌<◌, ◌≤◌, length, is_some, IfSome, if◌then◌else◌};
    ghost use Rattle.tt_font.specs.Components.{component_at, components, last_of};
    ghost use Rattle.tt_font.specs.ComponentReads.{HasRoom, HasRead};

    /// Makes a reader that has read nothing.
    pub fn new() -> ComponentReader
        ensures { result.reads ≡ 0 }
    {
        ComponentReader { reads: 0 }
    }

    /// Returns how many components have been read, one that is read again counted again.
    pub fn reads(&self) -> u64
        ensures { result ≡ self.now.reads }
    {
        self.reads
    }

    /// Reads the component at an offset of a glyph, if all its bytes are there, and counts it. No
    /// other function reads a component.
    #[tactic(auto, unfolding(crate::specs::Components::component_at))]
    pub fn read(&mut self, glyph: &[u8], place: usize) -> Option<Component>
        requires place { place < 2 ^ 33 }
        requires room { HasRoom self.old 0 }
        ensures component { result ≡ component_at place glyph.now }
        ensures within { IfSome result (λ component. component.after ≤ length glyph.now) }
        ensures further { IfSome result (λ component. place < component.after) }
        ensures counted { HasRead self.old self.new (if is_some result then 1 else 0) }
    {
        if glyph.len() < place + 4 {
            return None;
        }
        let flags = u16_at(glyph, place);
        let after = place + size_of(flags);
        if glyph.len() < after {
            return None;
        }
        self.reads += 1;
        Some(Component {
            flags,
            glyph: u16_at(glyph, place + 2),
            after,
        })
    }

    /// Reads the components of a glyph up to the last one, and returns that one, if all their bytes
    /// are there.
    pub(crate) fn read_last(&mut self, glyph: &[u8]) -> Option<Component>
        requires small { length glyph.now < 2 ^ 32 }
        requires room { HasRoom self.old (length (components glyph.now)) }
        ensures last { result ≡ last_of (components glyph.now) }
        ensures within { IfSome result (λ component. component.after ≤ length glyph.now) }
        ensures counted { HasRead self.old self.new (length (components glyph.now)) }
    {
        let mut place = GLYPH_HEADER;
        while let Some(component) = self.read(glyph, place) {
            if !component.has_more() {
                return Some(component);
            }
            place = component.after;
        }
        None
    }
}
