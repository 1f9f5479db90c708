//! Why a program is refused: its bytes, a test of one of its instructions, a limit of the analysis,
//! or its certificate (Apple TrueType Reference Manual, "The TrueType instruction set"). The
//! numbers and texts are this product's own.

ghost use Rattle.std.specs.Prelude.{◌≡◌};
ghost use Rattle.tt_code.specs.Refusals.{class_of, number_of, reason_text};

use std::error::Error;
use std::fmt;

/// Why a program is refused. Each reason has a number, and its text is what the command prints
/// after the number.
#[derive(Clone, Copy, Debug, PartialEq, Eq, Drop)]
pub enum Reason {
    /// An instruction passes the end of the program, so that the bytes can't be cut into
    /// instructions.
    CannotCut = 20,
    /// IF, ELSE, EIF, FDEF, IDEF or ENDF isn't allowed where it is, or something is still open at
    /// the program's end.
    Structure = 21,
    /// A glyph program has more bytes than maxSizeOfInstructions.
    ProgramTooLong = 22,
    /// The code has no entry in the instruction set: it is no instruction, or one that the analysis
    /// doesn't follow (0x91, 0x92, or a code that an IDEF defines).
    Opcode = 23,
    /// The program comes to an IDEF, which isn't followed.
    InstructionDefinition = 24,
    /// A call enters the body of a function that is running already.
    Recursion = 25,
    /// The stack has fewer elements than the instruction takes, or fewer than the index of a CINDEX
    /// or MINDEX.
    Underflow = 26,
    /// The stack is deeper than maxStackElements after the instruction.
    Overflow = 27,
    /// A number that the instruction looks at isn't known: an index, the number of a point, a zone,
    /// a contour or a function, a count, or the distance of a jump. It was measured, stored or
    /// computed, or depends on the way by which the program comes here.
    UnknownOperand = 28,
    /// An index into the control value table is negative, or not below the number of control
    /// values.
    Cvt = 29,
    /// An index into the storage area is negative, or not below maxStorage: that of an instruction,
    /// or one that a certificate lists.
    Storage = 30,
    /// The number of a function that is called or defined is negative, or not below
    /// maxFunctionDefs; or the function that is called isn't known to be defined.
    Function = 31,
    /// A point number is negative, or not below the number of points of a zone in which it is
    /// tested.
    Point = 32,
    /// A zone is neither 0 nor 1, or it is 0 and maxZones is below 2.
    Zone = 33,
    /// A contour number is negative, or not below the number of contours of the zone of zp2.
    Contour = 34,
    /// No instruction of the same body starts where control goes, and it isn't the main program's
    /// end either.
    Target = 35,
    /// A count or the loop number is negative, or the index of a CINDEX or MINDEX is below 1.
    Count = 36,
    /// A glyph program comes to an FDEF: it may define no functions.
    Definition = 37,
    /// Two ways come to one point with stacks of different depths.
    DepthMismatch = 38,
    /// The program comes to more than 65,535 lists of open calls, the empty list counted.
    TooManyContexts = 39,
    /// No run of the font program, or of the CVT program, comes to its end.
    NeverEnds = 40,
    /// A certificate has no state at a point that needs one: the start, the end of the font program
    /// or of the CVT program, or a point to which one of its states leads.
    MissingPoint = 41,
    /// A certificate has a state at a point that doesn't cover what comes there.
    NotCovered = 42,
    /// The search by symbolic states, or the check of what it found, came to its bound: of steps, or
    /// of the states that it may list.
    TooManySteps = 46,
    /// A glyph program may write a control value or a storage cell whose number glyph programs are
    /// taken to start with.
    KeptEntry = 47,
}

/// What a reason tells the font's maker.
#[derive(Clone, Copy, PartialEq, Eq, Drop)]
pub enum ReasonClass {
    /// The bytes are no program, or too many (20 to 22); or what is known at the place doesn't rule
    /// the fault out: a run may reach it.
    PossibleFault,
    /// No fault is shown: the analysis can't tell.
    Undecided,
    /// The program does what the analysis doesn't follow, by choice: it may be safe.
    LeftOut,
    /// The certificate doesn't fit the program.
    Certificate,
}

impl Reason {
    /// Returns the reason's number, 20 to 42, 46 or 47.
    pub fn number(self) -> u8
        ensures { result ≡ number_of self }
    {
        self as u8
    }

    /// Returns the reason's class. A function (31) that isn't known to be defined is undecided, and
    /// one that isn't below maxFunctionDefs can't be told from it by the reason: both are undecided
    /// here.
    pub fn class(self) -> ReasonClass
        ensures { result ≡ class_of self }
    {
        match self {
            Reason::InstructionDefinition | Reason::Recursion => ReasonClass::LeftOut,
            Reason::UnknownOperand
            | Reason::Function
            | Reason::DepthMismatch
            | Reason::TooManyContexts
            | Reason::NeverEnds
            | Reason::TooManySteps
            | Reason::KeptEntry => ReasonClass::Undecided,
            Reason::MissingPoint | Reason::NotCovered => ReasonClass::Certificate,
            _ => ReasonClass::PossibleFault,
        }
    }

    /// Returns the reason in words.
    pub fn text(self) -> &'static str
        ensures { result.now ≡ reason_text self }
    {
        match self {
            Reason::CannotCut => "cannot cut",
            Reason::Structure => "structure",
            Reason::ProgramTooLong => "program too long",
            Reason::Opcode => "opcode",
            Reason::InstructionDefinition => "instruction definition",
            Reason::Recursion => "recursion",
            Reason::Underflow => "underflow",
            Reason::Overflow => "overflow",
            Reason::UnknownOperand => "unknown operand",
            Reason::Cvt => "cvt",
            Reason::Storage => "storage",
            Reason::Function => "function",
            Reason::Point => "point",
            Reason::Zone => "zone",
            Reason::Contour => "contour",
            Reason::Target => "target",
            Reason::Count => "count",
            Reason::Definition => "definition",
            Reason::DepthMismatch => "depth mismatch",
            Reason::TooManyContexts => "too many contexts",
            Reason::NeverEnds => "never ends",
            Reason::MissingPoint => "missing point",
            Reason::NotCovered => "not covered",
            Reason::TooManySteps => "too many steps",
            Reason::KeptEntry => "kept entry",
        }
    }
}

impl fmt::Display for Reason {
    ghost use Rattle.std.specs.Prelude.{Some};
    ghost use Rattle.tt_code.specs.Refusals.{reason_text};

    ghost output = { λ reason. Some (reason_text reason) };

    fn fmt<W: fmt::Write>(&self, f: &mut fmt::Formatter<W>) -> fmt::Result {
        f.write_str(self.text())
    }
}

impl Error for Reason {}
