//! The numbers of a font that bound what its programs may use (OpenType specification, `maxp` and
//! `cvt `).

ghost use Rattle.std.specs.Prelude.{◌≡◌};
ghost use Rattle.hintcheck_report.specs.Bounds.{cvt_count_with, declared_number, limits_with, name_of};

use tt_code::Limits;

/// A number of a font that bounds what its programs may use.
#[derive(Clone, Copy, PartialEq, Eq)]
pub enum Bound {
    /// maxStackElements of `maxp`: how deep the stack may be.
    StackElements,
    /// maxStorage of `maxp`: how many cells the storage area has.
    Storage,
    /// maxFunctionDefs of `maxp`: one more than the highest function number.
    FunctionDefs,
    /// How many control values the table `cvt ` has.
    ControlValues,
    /// maxTwilightPoints of `maxp`: how many points the twilight zone has.
    TwilightPoints,
    /// maxZones of `maxp`: 1 where the twilight zone isn't used, 2 where it is.
    Zones,
    /// maxSizeOfInstructions of `maxp`: how many bytes a glyph program may have.
    SizeOfInstructions,
}

impl Bound {
    /// Returns the name by which the specification calls the number.
    pub fn name(self) -> &'static str
        ensures { result.now ≡ name_of self }
    {
        match self {
            Bound::StackElements => "maxStackElements",
            Bound::Storage => "maxStorage",
            Bound::FunctionDefs => "maxFunctionDefs",
            Bound::ControlValues => "control values",
            Bound::TwilightPoints => "maxTwilightPoints",
            Bound::Zones => "maxZones",
            Bound::SizeOfInstructions => "maxSizeOfInstructions",
        }
    }

    /// Returns the number of a font with these limits and so many control values: 0 to 65,535, but
    /// for the control values, of which there may be more.
    pub fn declared(self, limits: Limits, cvt_count: u32) -> u32
        ensures { result ≡ declared_number limits cvt_count self }
    {
        match self {
            Bound::StackElements => u32::from(limits.stack),
            Bound::Storage => u32::from(limits.storage),
            Bound::FunctionDefs => u32::from(limits.functions),
            Bound::ControlValues => cvt_count,
            Bound::TwilightPoints => u32::from(limits.twilight),
            Bound::Zones => u32::from(limits.zones),
            Bound::SizeOfInstructions => u32::from(limits.program_size),
        }
    }

    /// Returns the limits with this number in place of theirs, if it is one of them.
    pub fn limits_with(self, limits: Limits, number: u16) -> Limits
        ensures { result ≡ limits_with limits self number }
    {
        match self {
            Bound::StackElements => Limits {
                stack: number,
                ..limits
            },
            Bound::Storage => Limits {
                storage: number,
                ..limits
            },
            Bound::FunctionDefs => Limits {
                functions: number,
                ..limits
            },
            Bound::ControlValues => limits,
            Bound::TwilightPoints => Limits {
                twilight: number,
                ..limits
            },
            Bound::Zones => Limits {
                zones: number,
                ..limits
            },
            Bound::SizeOfInstructions => Limits {
                program_size: number,
                ..limits
            },
        }
    }

    /// Returns how many control values there are with this number in place of theirs, if it is
    /// that one.
    pub fn cvt_count_with(self, cvt_count: u32, number: u16) -> u32
        ensures { result ≡ cvt_count_with cvt_count self number }
    {
        match self {
            Bound::ControlValues => u32::from(number),
            Bound::StackElements
            | Bound::Storage
            | Bound::FunctionDefs
            | Bound::TwilightPoints
            | Bound::Zones
            | Bound::SizeOfInstructions => cvt_count,
        }
    }
}
