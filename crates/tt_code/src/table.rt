//! The instruction set: an array with an effect and one with a name for each code, and what a code
//! is for a program's structure and for the machine with control values (Apple TrueType Reference
//! Manual, "The TrueType instruction set").

ghost use Rattle.std.specs.Prelude.{◌≡◌, map, option_map};
ghost use Rattle.tt_code.specs.Structure.{keyword_of};
ghost use Rattle.tt_code.specs.Table.{effect_of, name_of, refinement_of, written_of};
ghost use Rattle.tt_code.specs.Entries.{codes_from, name_text, view};

use crate::block_keyword::BlockKeyword;
use crate::kinds::NewNumber::{Same, Taken};
use crate::kinds::Operand::{
    Contour, Cvt, CvtPairs, LoopPoints, Number, Point, PointPairs, Storage, Zone,
};
use crate::kinds::Pointer::{Zp0, Zp1, Zp2};
use crate::kinds::Pushed::{Any, Stored};
use crate::kinds::Reference::{Rp0, Rp1, Rp2};
use crate::kinds::Update::{LoopIsOne, SetLoop, SetPointer, SetReference, Store};
use crate::kinds::Within::{Both, GlyphAnd, In};
use crate::kinds::{Arithmetic, Control, Effect, Push, Refinement, Row, StackOp, Use, Written};

/// The effect that takes these operands, uses these reference points, makes these changes and
/// pushes these numbers.
macro_rules! plain {
    ([$($operand:expr),*], [$($used:expr),*], [$($update:expr),*], [$($pushed:expr),*]) => {
        Effect::Plain(Row {
            operands: &[$($operand),*],
            uses: &[$($used),*],
            updates: &[$($update),*],
            pushes: &[$($pushed),*],
        })
    };
}

/// The reference point rp0, as a point of the zone of zp0.
const RP0_IN_ZP0: Use = Use {
    reference: Rp0,
    pointer: Zp0,
};

/// The reference point rp1, as a point of the zone of zp0.
const RP1_IN_ZP0: Use = Use {
    reference: Rp1,
    pointer: Zp0,
};

/// The reference point rp2, as a point of the zone of zp1.
const RP2_IN_ZP1: Use = Use {
    reference: Rp2,
    pointer: Zp1,
};

// The effects, each by the name of its instructions in the printed instruction set.

/// The effect of a code that is no instruction's.
const NO_ENTRY: Effect = Effect::NoEntry;

const SVTCA: Effect = plain!([], [], [], []);

const SPVTCA: Effect = plain!([], [], [], []);

const SFVTCA: Effect = plain!([], [], [], []);

const SFVTPV: Effect = plain!([], [], [], []);

const RTG: Effect = plain!([], [], [], []);

const RTHG: Effect = plain!([], [], [], []);

const IUP: Effect = plain!([], [], [], []);

const RTDG: Effect = plain!([], [], [], []);

const FLIPON: Effect = plain!([], [], [], []);

const FLIPOFF: Effect = plain!([], [], [], []);

const EIF: Effect = plain!([], [], [], []);

const ROFF: Effect = plain!([], [], [], []);

const RUTG: Effect = plain!([], [], [], []);

const RDTG: Effect = plain!([], [], [], []);

const SMD: Effect = plain!([Number], [], [], []);

const SCVTCI: Effect = plain!([Number], [], [], []);

const SSWCI: Effect = plain!([Number], [], [], []);

const SSW: Effect = plain!([Number], [], [], []);

const DEBUG: Effect = plain!([Number], [], [], []);

const SDB: Effect = plain!([Number], [], [], []);

const SDS: Effect = plain!([Number], [], [], []);

const SROUND: Effect = plain!([Number], [], [], []);

const S45ROUND: Effect = plain!([Number], [], [], []);

const SANGW: Effect = plain!([Number], [], [], []);

const AA: Effect = plain!([Number], [], [], []);

const SCANCTRL: Effect = plain!([Number], [], [], []);

const SCANTYPE: Effect = plain!([Number], [], [], []);

const SPVFS: Effect = plain!([Number, Number], [], [], []);

const SFVFS: Effect = plain!([Number, Number], [], [], []);

const INSTCTRL: Effect = plain!([Number, Number], [], [], []);

const SPVTL: Effect = plain!([Point(Both(Zp1, Zp2)), Point(Both(Zp1, Zp2))], [], [], []);

const SFVTL: Effect = plain!([Point(Both(Zp1, Zp2)), Point(Both(Zp1, Zp2))], [], [], []);

const SDPVTL: Effect = plain!([Point(Both(Zp1, Zp2)), Point(Both(Zp1, Zp2))], [], [], []);

const GPV: Effect = plain!([], [], [], [Any, Any]);

const GFV: Effect = plain!([], [], [], [Any, Any]);

const ISECT: Effect = plain!(
    [
        Point(In(Zp0)),
        Point(In(Zp0)),
        Point(In(Zp1)),
        Point(In(Zp1)),
        Point(In(Zp2))
    ],
    [],
    [],
    []
);

const SRP0: Effect = plain!([Number], [], [SetReference(Rp0, Taken(0))], []);

const SRP1: Effect = plain!([Number], [], [SetReference(Rp1, Taken(0))], []);

const SRP2: Effect = plain!([Number], [], [SetReference(Rp2, Taken(0))], []);

const SZP0: Effect = plain!([Zone], [], [SetPointer(Zp0, 0)], []);

const SZP1: Effect = plain!([Zone], [], [SetPointer(Zp1, 0)], []);

const SZP2: Effect = plain!([Zone], [], [SetPointer(Zp2, 0)], []);

const SZPS: Effect = plain!(
    [Zone],
    [],
    [SetPointer(Zp0, 0), SetPointer(Zp1, 0), SetPointer(Zp2, 0)],
    []
);

const SLOOP: Effect = plain!([Number], [], [SetLoop(0)], []);

const ALIGNPTS: Effect = plain!([Point(Both(Zp0, Zp1)), Point(Both(Zp0, Zp1))], [], [], []);

const UTP: Effect = plain!([Point(In(Zp0))], [], [], []);

const MDAP: Effect = plain!(
    [Point(In(Zp0))],
    [],
    [SetReference(Rp0, Taken(0)), SetReference(Rp1, Taken(0))],
    []
);

const SHP_RP2: Effect = plain!([LoopPoints(In(Zp2))], [RP2_IN_ZP1], [LoopIsOne], []);

const SHP_RP1: Effect = plain!([LoopPoints(In(Zp2))], [RP1_IN_ZP0], [LoopIsOne], []);

const SHC_RP2: Effect = plain!([Contour], [RP2_IN_ZP1], [], []);

const SHC_RP1: Effect = plain!([Contour], [RP1_IN_ZP0], [], []);

const SHZ_RP2: Effect = plain!([Zone], [RP2_IN_ZP1], [], []);

const SHZ_RP1: Effect = plain!([Zone], [RP1_IN_ZP0], [], []);

const SHPIX: Effect = plain!([Number, LoopPoints(In(Zp2))], [], [LoopIsOne], []);

const IP: Effect = plain!(
    [LoopPoints(In(Zp2))],
    [RP1_IN_ZP0, RP2_IN_ZP1],
    [LoopIsOne],
    []
);

const MSIRP: Effect = plain!(
    [Number, Point(In(Zp1))],
    [RP0_IN_ZP0],
    [SetReference(Rp1, Same(Rp0)), SetReference(Rp2, Taken(1))],
    []
);

const MSIRP_SET_RP0: Effect = plain!(
    [Number, Point(In(Zp1))],
    [RP0_IN_ZP0],
    [
        SetReference(Rp1, Same(Rp0)),
        SetReference(Rp2, Taken(1)),
        SetReference(Rp0, Taken(1))
    ],
    []
);

const ALIGNRP: Effect = plain!([LoopPoints(In(Zp1))], [RP0_IN_ZP0], [LoopIsOne], []);

const MIAP: Effect = plain!(
    [Cvt, Point(In(Zp0))],
    [],
    [SetReference(Rp0, Taken(1)), SetReference(Rp1, Taken(1))],
    []
);

const WS: Effect = plain!([Number, Storage], [], [Store(1, 0)], []);

const RS: Effect = plain!([Storage], [], [], [Stored(0)]);

const WCVTP: Effect = plain!([Number, Cvt], [], [], []);

const WCVTF: Effect = plain!([Number, Cvt], [], [], []);

const RCVT: Effect = plain!([Cvt], [], [], [Any]);

const GC: Effect = plain!([Point(In(Zp2))], [], [], [Any]);

const SCFS: Effect = plain!([Number, Point(In(Zp2))], [], [], []);

const MD: Effect = plain!(
    [Point(Both(Zp0, Zp1)), Point(Both(Zp0, Zp1))],
    [],
    [],
    [Any]
);

const MPPEM: Effect = plain!([], [], [], [Any]);

const MPS: Effect = plain!([], [], [], [Any]);

const DELTAP1: Effect = plain!([PointPairs(In(Zp0))], [], [], []);

const DELTAP2: Effect = plain!([PointPairs(In(Zp0))], [], [], []);

const DELTAP3: Effect = plain!([PointPairs(In(Zp0))], [], [], []);

const DELTAC1: Effect = plain!([CvtPairs], [], [], []);

const DELTAC2: Effect = plain!([CvtPairs], [], [], []);

const DELTAC3: Effect = plain!([CvtPairs], [], [], []);

const ODD: Effect = plain!([Number], [], [], [Any]);

const EVEN: Effect = plain!([Number], [], [], [Any]);

const FLOOR: Effect = plain!([Number], [], [], [Any]);

const CEILING: Effect = plain!([Number], [], [], [Any]);

const ROUND: Effect = plain!([Number], [], [], [Any]);

const NROUND: Effect = plain!([Number], [], [], [Any]);

const GETINFO: Effect = plain!([Number], [], [], [Any]);

const DIV: Effect = plain!([Number, Number], [], [], [Any]);

const MUL: Effect = plain!([Number, Number], [], [], [Any]);

const MAX: Effect = plain!([Number, Number], [], [], [Any]);

const MIN: Effect = plain!([Number, Number], [], [], [Any]);

const FLIPPT: Effect = plain!([LoopPoints(GlyphAnd(Zp0))], [], [LoopIsOne], []);

const FLIPRGON: Effect = plain!([Point(GlyphAnd(Zp0)), Point(GlyphAnd(Zp0))], [], [], []);

const FLIPRGOFF: Effect = plain!([Point(GlyphAnd(Zp0)), Point(GlyphAnd(Zp0))], [], [], []);

const MDRP: Effect = plain!(
    [Point(In(Zp1))],
    [RP0_IN_ZP0],
    [SetReference(Rp1, Same(Rp0)), SetReference(Rp2, Taken(0))],
    []
);

const MDRP_SET_RP0: Effect = plain!(
    [Point(In(Zp1))],
    [RP0_IN_ZP0],
    [
        SetReference(Rp1, Same(Rp0)),
        SetReference(Rp2, Taken(0)),
        SetReference(Rp0, Taken(0))
    ],
    []
);

const MIRP: Effect = plain!(
    [Cvt, Point(In(Zp1))],
    [RP0_IN_ZP0],
    [SetReference(Rp1, Same(Rp0)), SetReference(Rp2, Taken(1))],
    []
);

const MIRP_SET_RP0: Effect = plain!(
    [Cvt, Point(In(Zp1))],
    [RP0_IN_ZP0],
    [
        SetReference(Rp1, Same(Rp0)),
        SetReference(Rp2, Taken(1)),
        SetReference(Rp0, Taken(1))
    ],
    []
);

const NPUSHB: Effect = Effect::Push(Push::CountedBytes);

const NPUSHW: Effect = Effect::Push(Push::CountedWords);

const PUSHB_1: Effect = Effect::Push(Push::Bytes(1));

const PUSHB_2: Effect = Effect::Push(Push::Bytes(2));

const PUSHB_3: Effect = Effect::Push(Push::Bytes(3));

const PUSHB_4: Effect = Effect::Push(Push::Bytes(4));

const PUSHB_5: Effect = Effect::Push(Push::Bytes(5));

const PUSHB_6: Effect = Effect::Push(Push::Bytes(6));

const PUSHB_7: Effect = Effect::Push(Push::Bytes(7));

const PUSHB_8: Effect = Effect::Push(Push::Bytes(8));

const PUSHW_1: Effect = Effect::Push(Push::Words(1));

const PUSHW_2: Effect = Effect::Push(Push::Words(2));

const PUSHW_3: Effect = Effect::Push(Push::Words(3));

const PUSHW_4: Effect = Effect::Push(Push::Words(4));

const PUSHW_5: Effect = Effect::Push(Push::Words(5));

const PUSHW_6: Effect = Effect::Push(Push::Words(6));

const PUSHW_7: Effect = Effect::Push(Push::Words(7));

const PUSHW_8: Effect = Effect::Push(Push::Words(8));

const DUP: Effect = Effect::Stack(StackOp::Dup);

const POP: Effect = Effect::Stack(StackOp::Pop);

const CLEAR: Effect = Effect::Stack(StackOp::Clear);

const SWAP: Effect = Effect::Stack(StackOp::Swap);

const DEPTH: Effect = Effect::Stack(StackOp::Depth);

const CINDEX: Effect = Effect::Stack(StackOp::CopyIndexed);

const MINDEX: Effect = Effect::Stack(StackOp::MoveIndexed);

const ROLL: Effect = Effect::Stack(StackOp::Roll);

const ADD: Effect = Effect::Arithmetic(Arithmetic::Add);

const SUB: Effect = Effect::Arithmetic(Arithmetic::Sub);

const ABS: Effect = Effect::Arithmetic(Arithmetic::Abs);

const NEG: Effect = Effect::Arithmetic(Arithmetic::Neg);

const LT: Effect = Effect::Arithmetic(Arithmetic::Lt);

const LTEQ: Effect = Effect::Arithmetic(Arithmetic::LtEq);

const GT: Effect = Effect::Arithmetic(Arithmetic::Gt);

const GTEQ: Effect = Effect::Arithmetic(Arithmetic::GtEq);

const EQ: Effect = Effect::Arithmetic(Arithmetic::Eq);

const NEQ: Effect = Effect::Arithmetic(Arithmetic::Neq);

const AND: Effect = Effect::Arithmetic(Arithmetic::And);

const OR: Effect = Effect::Arithmetic(Arithmetic::Or);

const NOT: Effect = Effect::Arithmetic(Arithmetic::Not);

const IF: Effect = Effect::Control(Control::If);

const ELSE: Effect = Effect::Control(Control::Else);

const JMPR: Effect = Effect::Control(Control::Jump);

const JROT: Effect = Effect::Control(Control::JumpIfTrue);

const JROF: Effect = Effect::Control(Control::JumpIfFalse);

const CALL: Effect = Effect::Control(Control::Call);

const LOOPCALL: Effect = Effect::Control(Control::LoopCall);

const FDEF: Effect = Effect::Control(Control::FunctionDefinition);

const ENDF: Effect = Effect::Control(Control::EndFunction);

const IDEF: Effect = Effect::Control(Control::InstructionDefinition);

/// The effects of all codes; each comment gives the first of the sixteen codes after it.
static EFFECTS: [Effect; 256] = [
    // 00
    SVTCA,
    SVTCA,
    SPVTCA,
    SPVTCA,
    SFVTCA,
    SFVTCA,
    SPVTL,
    SPVTL,
    SFVTL,
    SFVTL,
    SPVFS,
    SFVFS,
    GPV,
    GFV,
    SFVTPV,
    ISECT,
    // 10
    SRP0,
    SRP1,
    SRP2,
    SZP0,
    SZP1,
    SZP2,
    SZPS,
    SLOOP,
    RTG,
    RTHG,
    SMD,
    ELSE,
    JMPR,
    SCVTCI,
    SSWCI,
    SSW,
    // 20
    DUP,
    POP,
    CLEAR,
    SWAP,
    DEPTH,
    CINDEX,
    MINDEX,
    ALIGNPTS,
    NO_ENTRY,
    UTP,
    LOOPCALL,
    CALL,
    FDEF,
    ENDF,
    MDAP,
    MDAP,
    // 30
    IUP,
    IUP,
    SHP_RP2,
    SHP_RP1,
    SHC_RP2,
    SHC_RP1,
    SHZ_RP2,
    SHZ_RP1,
    SHPIX,
    IP,
    MSIRP,
    MSIRP_SET_RP0,
    ALIGNRP,
    RTDG,
    MIAP,
    MIAP,
    // 40
    NPUSHB,
    NPUSHW,
    WS,
    RS,
    WCVTP,
    RCVT,
    GC,
    GC,
    SCFS,
    MD,
    MD,
    MPPEM,
    MPS,
    FLIPON,
    FLIPOFF,
    DEBUG,
    // 50
    LT,
    LTEQ,
    GT,
    GTEQ,
    EQ,
    NEQ,
    ODD,
    EVEN,
    IF,
    EIF,
    AND,
    OR,
    NOT,
    DELTAP1,
    SDB,
    SDS,
    // 60
    ADD,
    SUB,
    DIV,
    MUL,
    ABS,
    NEG,
    FLOOR,
    CEILING,
    ROUND,
    ROUND,
    ROUND,
    ROUND,
    NROUND,
    NROUND,
    NROUND,
    NROUND,
    // 70
    WCVTF,
    DELTAP2,
    DELTAP3,
    DELTAC1,
    DELTAC2,
    DELTAC3,
    SROUND,
    S45ROUND,
    JROT,
    JROF,
    ROFF,
    NO_ENTRY,
    RUTG,
    RDTG,
    SANGW,
    AA,
    // 80
    FLIPPT,
    FLIPRGON,
    FLIPRGOFF,
    NO_ENTRY,
    NO_ENTRY,
    SCANCTRL,
    SDPVTL,
    SDPVTL,
    GETINFO,
    IDEF,
    ROLL,
    MAX,
    MIN,
    SCANTYPE,
    INSTCTRL,
    NO_ENTRY,
    // 90
    NO_ENTRY,
    NO_ENTRY,
    NO_ENTRY,
    NO_ENTRY,
    NO_ENTRY,
    NO_ENTRY,
    NO_ENTRY,
    NO_ENTRY,
    NO_ENTRY,
    NO_ENTRY,
    NO_ENTRY,
    NO_ENTRY,
    NO_ENTRY,
    NO_ENTRY,
    NO_ENTRY,
    NO_ENTRY,
    // a0
    NO_ENTRY,
    NO_ENTRY,
    NO_ENTRY,
    NO_ENTRY,
    NO_ENTRY,
    NO_ENTRY,
    NO_ENTRY,
    NO_ENTRY,
    NO_ENTRY,
    NO_ENTRY,
    NO_ENTRY,
    NO_ENTRY,
    NO_ENTRY,
    NO_ENTRY,
    NO_ENTRY,
    NO_ENTRY,
    // b0
    PUSHB_1,
    PUSHB_2,
    PUSHB_3,
    PUSHB_4,
    PUSHB_5,
    PUSHB_6,
    PUSHB_7,
    PUSHB_8,
    PUSHW_1,
    PUSHW_2,
    PUSHW_3,
    PUSHW_4,
    PUSHW_5,
    PUSHW_6,
    PUSHW_7,
    PUSHW_8,
    // c0
    MDRP,
    MDRP,
    MDRP,
    MDRP,
    MDRP,
    MDRP,
    MDRP,
    MDRP,
    MDRP,
    MDRP,
    MDRP,
    MDRP,
    MDRP,
    MDRP,
    MDRP,
    MDRP,
    // d0
    MDRP_SET_RP0,
    MDRP_SET_RP0,
    MDRP_SET_RP0,
    MDRP_SET_RP0,
    MDRP_SET_RP0,
    MDRP_SET_RP0,
    MDRP_SET_RP0,
    MDRP_SET_RP0,
    MDRP_SET_RP0,
    MDRP_SET_RP0,
    MDRP_SET_RP0,
    MDRP_SET_RP0,
    MDRP_SET_RP0,
    MDRP_SET_RP0,
    MDRP_SET_RP0,
    MDRP_SET_RP0,
    // e0
    MIRP,
    MIRP,
    MIRP,
    MIRP,
    MIRP,
    MIRP,
    MIRP,
    MIRP,
    MIRP,
    MIRP,
    MIRP,
    MIRP,
    MIRP,
    MIRP,
    MIRP,
    MIRP,
    // f0
    MIRP_SET_RP0,
    MIRP_SET_RP0,
    MIRP_SET_RP0,
    MIRP_SET_RP0,
    MIRP_SET_RP0,
    MIRP_SET_RP0,
    MIRP_SET_RP0,
    MIRP_SET_RP0,
    MIRP_SET_RP0,
    MIRP_SET_RP0,
    MIRP_SET_RP0,
    MIRP_SET_RP0,
    MIRP_SET_RP0,
    MIRP_SET_RP0,
    MIRP_SET_RP0,
    MIRP_SET_RP0,
];

/// The names of all codes; each comment gives the first of the sixteen codes after it. A code
/// without an entry has the empty name.
static NAMES: [&str; 256] = [
    // 00
    "SVTCA",
    "SVTCA",
    "SPVTCA",
    "SPVTCA",
    "SFVTCA",
    "SFVTCA",
    "SPVTL",
    "SPVTL",
    "SFVTL",
    "SFVTL",
    "SPVFS",
    "SFVFS",
    "GPV",
    "GFV",
    "SFVTPV",
    "ISECT",
    // 10
    "SRP0",
    "SRP1",
    "SRP2",
    "SZP0",
    "SZP1",
    "SZP2",
    "SZPS",
    "SLOOP",
    "RTG",
    "RTHG",
    "SMD",
    "ELSE",
    "JMPR",
    "SCVTCI",
    "SSWCI",
    "SSW",
    // 20
    "DUP",
    "POP",
    "CLEAR",
    "SWAP",
    "DEPTH",
    "CINDEX",
    "MINDEX",
    "ALIGNPTS",
    "",
    "UTP",
    "LOOPCALL",
    "CALL",
    "FDEF",
    "ENDF",
    "MDAP",
    "MDAP",
    // 30
    "IUP",
    "IUP",
    "SHP",
    "SHP",
    "SHC",
    "SHC",
    "SHZ",
    "SHZ",
    "SHPIX",
    "IP",
    "MSIRP",
    "MSIRP",
    "ALIGNRP",
    "RTDG",
    "MIAP",
    "MIAP",
    // 40
    "NPUSHB",
    "NPUSHW",
    "WS",
    "RS",
    "WCVTP",
    "RCVT",
    "GC",
    "GC",
    "SCFS",
    "MD",
    "MD",
    "MPPEM",
    "MPS",
    "FLIPON",
    "FLIPOFF",
    "DEBUG",
    // 50
    "LT",
    "LTEQ",
    "GT",
    "GTEQ",
    "EQ",
    "NEQ",
    "ODD",
    "EVEN",
    "IF",
    "EIF",
    "AND",
    "OR",
    "NOT",
    "DELTAP1",
    "SDB",
    "SDS",
    // 60
    "ADD",
    "SUB",
    "DIV",
    "MUL",
    "ABS",
    "NEG",
    "FLOOR",
    "CEILING",
    "ROUND",
    "ROUND",
    "ROUND",
    "ROUND",
    "NROUND",
    "NROUND",
    "NROUND",
    "NROUND",
    // 70
    "WCVTF",
    "DELTAP2",
    "DELTAP3",
    "DELTAC1",
    "DELTAC2",
    "DELTAC3",
    "SROUND",
    "S45ROUND",
    "JROT",
    "JROF",
    "ROFF",
    "",
    "RUTG",
    "RDTG",
    "SANGW",
    "AA",
    // 80
    "FLIPPT",
    "FLIPRGON",
    "FLIPRGOFF",
    "",
    "",
    "SCANCTRL",
    "SDPVTL",
    "SDPVTL",
    "GETINFO",
    "IDEF",
    "ROLL",
    "MAX",
    "MIN",
    "SCANTYPE",
    "INSTCTRL",
    "",
    // 90
    "",
    "",
    "",
    "",
    "",
    "",
    "",
    "",
    "",
    "",
    "",
    "",
    "",
    "",
    "",
    "",
    // a0
    "",
    "",
    "",
    "",
    "",
    "",
    "",
    "",
    "",
    "",
    "",
    "",
    "",
    "",
    "",
    "",
    // b0
    "PUSHB",
    "PUSHB",
    "PUSHB",
    "PUSHB",
    "PUSHB",
    "PUSHB",
    "PUSHB",
    "PUSHB",
    "PUSHW",
    "PUSHW",
    "PUSHW",
    "PUSHW",
    "PUSHW",
    "PUSHW",
    "PUSHW",
    "PUSHW",
    // c0
    "MDRP",
    "MDRP",
    "MDRP",
    "MDRP",
    "MDRP",
    "MDRP",
    "MDRP",
    "MDRP",
    "MDRP",
    "MDRP",
    "MDRP",
    "MDRP",
    "MDRP",
    "MDRP",
    "MDRP",
    "MDRP",
    // d0
    "MDRP",
    "MDRP",
    "MDRP",
    "MDRP",
    "MDRP",
    "MDRP",
    "MDRP",
    "MDRP",
    "MDRP",
    "MDRP",
    "MDRP",
    "MDRP",
    "MDRP",
    "MDRP",
    "MDRP",
    "MDRP",
    // e0
    "MIRP",
    "MIRP",
    "MIRP",
    "MIRP",
    "MIRP",
    "MIRP",
    "MIRP",
    "MIRP",
    "MIRP",
    "MIRP",
    "MIRP",
    "MIRP",
    "MIRP",
    "MIRP",
    "MIRP",
    "MIRP",
    // f0
    "MIRP",
    "MIRP",
    "MIRP",
    "MIRP",
    "MIRP",
    "MIRP",
    "MIRP",
    "MIRP",
    "MIRP",
    "MIRP",
    "MIRP",
    "MIRP",
    "MIRP",
    "MIRP",
    "MIRP",
    "MIRP",
];

/// Returns the effects of all codes.
fn effects() -> &'static [Effect; 256]
    ensures { map view result.now ≡ map effect_of (codes_from 0 256) }
{
    &EFFECTS
}

/// Returns the names of all codes.
fn names() -> &'static [&'static str; 256]
    ensures { map name_text result.now ≡ map name_of (codes_from 0 256) }
{
    &NAMES
}

/// Returns what the instructions of a code take, test, change and push (Apple TrueType Reference
/// Manual, "The TrueType instruction set").
pub fn entry(code: u8) -> &'static Effect
    ensures { view result.now ≡ effect_of code }
{
    &effects()[code as usize]
}

/// Returns a copy of the effect that `entry` returns: what the instructions of a code take, test,
/// change and push.
pub fn effect(code: u8) -> Effect
    ensures { view result ≡ effect_of code }
{
    *entry(code)
}

/// Returns the code's name in the printed instruction set; a code without an entry has none.
pub fn name(code: u8) -> Option<&'static str>
    ensures { option_map (λ n. n.now) result ≡ name_of code }
{
    let name = names()[code as usize];
    if name.is_empty() { None } else { Some(name) }
}

/// Returns the keyword of a code's instructions.
pub fn keyword_of_code(code: u8) -> BlockKeyword
    ensures { result ≡ keyword_of code }
{
    match code {
        0x58 => BlockKeyword::If,
        0x1b => BlockKeyword::Else,
        0x59 => BlockKeyword::Eif,
        0x2c => BlockKeyword::Fdef,
        0x89 => BlockKeyword::Idef,
        0x2d => BlockKeyword::Endf,
        _ => BlockKeyword::Other,
    }
}

/// Returns what the machine with control values says more of the instructions of a code (Apple
/// TrueType Reference Manual, "The TrueType instruction set").
pub fn refinement(code: u8) -> Refinement
    ensures { result ≡ refinement_of code }
{
    match code {
        0x44 => Refinement::WritesControl,
        0x45 => Refinement::ReadsControl,
        0x62 => Refinement::Quotient,
        0x63 => Refinement::Product,
        0x66 => Refinement::Floor,
        0x67 => Refinement::Ceiling,
        0x70 => Refinement::ChangesControl,
        0x73 | 0x74 | 0x75 => Refinement::ChangesControls,
        0x8b => Refinement::Greatest,
        0x8c => Refinement::Least,
        _ => Refinement::Ordinary,
    }
}

/// Returns what the instructions of a code write of the memory that programs share (Apple TrueType
/// Reference Manual, "The TrueType instruction set": WS, WCVTP, WCVTF, DELTAC1 to DELTAC3).
pub fn written(code: u8) -> Written
    ensures { result ≡ written_of code }
{
    match refinement(code) {
        _ if code == 0x42 => Written::StorageCell,
        Refinement::WritesControl | Refinement::ChangesControl => Written::ControlValue,
        Refinement::ChangesControls => Written::ControlValues,
        Refinement::ReadsControl
        | Refinement::Greatest
        | Refinement::Least
        | Refinement::Product
        | Refinement::Quotient
        | Refinement::Floor
        | Refinement::Ceiling
        | Refinement::Ordinary => Written::Nothing,
    }
}
