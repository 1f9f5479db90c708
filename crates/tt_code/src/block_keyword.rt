//! The keywords by which instructions make a program's structure (Apple TrueType Reference Manual,
//! "Managing the flow of control", "Defining and using functions and instructions").

/// What an instruction is for a program's structure: one of six keywords, or none of them.
#[derive(Clone, Copy, PartialEq, Eq)]
pub enum BlockKeyword {
    /// IF, which begins a conditional part.
    If,
    /// ELSE, which ends the part of an IF and begins the other one.
    Else,
    /// EIF, which ends the part of an IF or of an ELSE.
    Eif,
    /// FDEF, which begins the definition of a function.
    Fdef,
    /// IDEF, which begins the definition of an instruction.
    Idef,
    /// ENDF, which ends a definition.
    Endf,
    /// Any other instruction.
    Other,
}
