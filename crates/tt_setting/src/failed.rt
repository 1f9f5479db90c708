//! Which test of an instruction fails, and what it found.

ghost use Rattle.std.specs.Prelude.{◌≡◌};
ghost use Rattle.tt_setting.specs.Refusals.{reason_of, register_of};

use crate::zone::ZoneCell;
use std::fmt;
use tt_code::Reason;
use tt_code::kinds::Reference;

/// What an instruction takes a number from the stack as.
#[derive(Clone, Copy, Debug, PartialEq, Eq, Drop)]
pub enum Role {
    /// The number of a point.
    Point,
    /// An index into the control value table.
    ControlValue,
    /// An index into the storage area.
    StorageCell,
    /// The number of a zone.
    Zone,
    /// The number of a contour.
    Contour,
    /// How many pairs there are.
    Count,
    /// The index of an element of the stack.
    StackIndex,
    /// How far a jump leads.
    Distance,
    /// The number of a function.
    Function,
    /// How often a function is called.
    Turns,
}

/// A number of the graphics state.
#[derive(Clone, Copy, Debug, PartialEq, Eq, Drop)]
pub enum Register {
    /// The reference point rp0.
    Rp0,
    /// The reference point rp1.
    Rp1,
    /// The reference point rp2.
    Rp2,
    /// The loop number.
    Loop,
}

impl Register {
    /// Returns a reference point as a number of the graphics state.
    pub fn of(reference: Reference) -> Register
        ensures { result ≡ register_of reference }
    {
        match reference {
            Reference::Rp0 => Register::Rp0,
            Reference::Rp1 => Register::Rp1,
            Reference::Rp2 => Register::Rp2,
        }
    }
}

/// Which test fails first, and what it found. A bound that the font gives isn't told with it.
// Each variant's smaller fields come first, so that it takes 8 bytes: a step hands one on at each
// of its tests.
#[derive(Clone, Copy, Debug, PartialEq, Eq, Drop)]
pub enum Failed {
    /// The reason says all.
    Only(Reason),
    /// The stack has only this many elements, and the instruction takes another one.
    TooFew {
        depth: u32,
    },
    /// The stack has no element with the index that is on top, which counts from 1 under it.
    NoElement {
        index: i32,
    },
    /// The stack would be this deep, which is more than maxStackElements.
    TooDeep {
        depth: u32,
    },
    /// The element under this many others isn't known.
    Unknown {
        role: Role,
        under: u32,
    },
    /// A number of the graphics state isn't known.
    UnknownIn(Register),
    /// The element under this many others may be any number of a range, and nothing has some of these
    /// numbers: no point or contour of the zone, no control value, or no storage cell. Only the
    /// symbolic profile tells it.
    MayBeOutside {
        role: Role,
        zone: ZoneCell,
        under: u32,
    },
    /// A reference point may be any number of a range, and the zone has no point with some of these
    /// numbers. Only the symbolic profile tells it.
    MayBeOutsideIn {
        register: Register,
        zone: ZoneCell,
    },
    /// The zone has no such point, or one of the two that it may be hasn't.
    NoPoint {
        zone: ZoneCell,
        number: i32,
    },
    /// The zone has no point with the number of a reference point, or one of the two that it may be
    /// hasn't.
    NoReferencePoint {
        register: Register,
        zone: ZoneCell,
        number: i32,
    },
    /// The font has no control value with this index.
    NoControlValue {
        index: i32,
    },
    /// The storage area has no cell with this index.
    NoStorageCell {
        index: i32,
    },
    /// The font has no zone with this number.
    NoZone {
        number: i32,
    },
    /// The zone of zp2 has no such contour, or one of the two that it may be hasn't.
    NoContour {
        zone: ZoneCell,
        number: i32,
    },
    /// The count is below 0.
    NegativeCount {
        count: i32,
    },
    /// The loop number is below 0.
    NegativeLoop {
        count: i32,
    },
    /// The index of an element of the stack is below 1.
    LowIndex {
        index: i32,
    },
    /// A jump by this many bytes leads to no instruction of the same body.
    NoTarget {
        by: i32,
    },
    /// The number of a function isn't below maxFunctionDefs.
    NoFunction {
        number: i32,
    },
    /// The function with this number isn't known to be defined.
    Undefined {
        number: i32,
    },
    /// The function with this number is running already.
    Running {
        number: i32,
    },
    /// A state comes with a stack of this depth to a place where the stack has another depth.
    OtherDepth {
        depth: u32,
    },
}

const _: () = prove!(size_of::<Failed>() == 8);

impl Failed {
    /// Returns the reason for which a program is refused where this test fails.
    pub fn reason(self) -> Reason
        ensures { result ≡ reason_of self }
    {
        match self {
            Failed::Only(reason) => reason,
            Failed::TooFew { .. } | Failed::NoElement { .. } => Reason::Underflow,
            Failed::TooDeep { .. } => Reason::Overflow,
            Failed::Unknown { .. }
            | Failed::UnknownIn(_)
            | Failed::MayBeOutside { .. }
            | Failed::MayBeOutsideIn { .. } => Reason::UnknownOperand,
            Failed::NoPoint { .. } | Failed::NoReferencePoint { .. } => Reason::Point,
            Failed::NoControlValue { .. } => Reason::Cvt,
            Failed::NoStorageCell { .. } => Reason::Storage,
            Failed::NoZone { .. } => Reason::Zone,
            Failed::NoContour { .. } => Reason::Contour,
            Failed::NegativeCount { .. } | Failed::NegativeLoop { .. } | Failed::LowIndex { .. } =>
                Reason::Count,
            Failed::NoTarget { .. } => Reason::Target,
            Failed::NoFunction { .. } | Failed::Undefined { .. } => Reason::Function,
            Failed::Running { .. } => Reason::Recursion,
            Failed::OtherDepth { .. } => Reason::DepthMismatch,
        }
    }
}

impl fmt::Display for Failed {
    ghost use Rattle.std.specs.Prelude.{Some};
    ghost use Rattle.tt_code.specs.Refusals.{reason_text};
    ghost use Rattle.tt_setting.specs.Refusals.{reason_of};

    ghost output = { λ failed. Some (reason_text (reason_of failed)) };

    fn fmt<W: fmt::Write>(&self, f: &mut fmt::Formatter<W>) -> fmt::Result {
        f.write_str(self.reason().text())
    }
}
