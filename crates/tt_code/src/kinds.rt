//! What an instruction takes, tests, changes and pushes, by kinds (Apple TrueType Reference Manual,
//! "The TrueType instruction set").

/// One of the three reference points of the graphics state.
#[derive(Clone, Copy)]
pub enum Reference {
    /// The reference point rp0.
    Rp0,
    /// The reference point rp1.
    Rp1,
    /// The reference point rp2.
    Rp2,
}

/// One of the three zone pointers of the graphics state.
#[derive(Clone, Copy)]
pub enum Pointer {
    /// The zone pointer zp0.
    Zp0,
    /// The zone pointer zp1.
    Zp1,
    /// The zone pointer zp2.
    Zp2,
}

/// The zones in which a point number is tested.
#[derive(Clone, Copy)]
pub enum Within {
    /// In the zone of the pointer.
    In(Pointer),
    /// In the zones of both pointers.
    Both(Pointer, Pointer),
    /// In the glyph zone and in the zone of the pointer.
    GlyphAnd(Pointer),
}

/// What an instruction takes from the stack.
#[derive(Clone, Copy)]
pub enum Operand {
    /// Any number.
    Number,
    /// A point number.
    Point(Within),
    /// An index into the control value table.
    Cvt,
    /// An index into the storage area.
    Storage,
    /// A zone, 0 or 1.
    Zone,
    /// The number of a contour in the zone of zp2.
    Contour,
    /// As many point numbers as the loop number says.
    LoopPoints(Within),
    /// A count, and as many pairs of a point number and a number.
    PointPairs(Within),
    /// A count, and as many pairs of a CVT index and a number.
    CvtPairs,
}

/// A reference point that an instruction uses as a point of a pointer's zone.
#[derive(Clone, Copy)]
pub struct Use {
    /// The reference point.
    pub reference: Reference,
    /// The pointer whose zone has to have a point with the reference point's number.
    pub pointer: Pointer,
}

/// Where the new number of a reference point comes from.
#[derive(Clone, Copy)]
pub enum NewNumber {
    /// The element taken at this position, the first one being 0.
    Taken(u8),
    /// The number of this reference point.
    Same(Reference),
}

/// What an instruction changes besides the stack.
#[derive(Clone, Copy)]
pub enum Update {
    /// The reference point gets this new number.
    SetReference(Reference, NewNumber),
    /// The zone pointer becomes the zone taken at this position.
    SetPointer(Pointer, u8),
    /// The loop number becomes the element taken at this position.
    SetLoop(u8),
    /// The loop number becomes 1.
    LoopIsOne,
    /// The storage cell whose index was taken at the first position becomes the element taken at
    /// the second.
    Store(u8, u8),
}

/// What an instruction pushes.
#[derive(Clone, Copy)]
pub enum Pushed {
    /// A number of which nothing is known.
    Any,
    /// The number in the storage cell whose index was taken at this position.
    Stored(u8),
}

/// The effect of an instruction that only takes, tests, changes and pushes. Positions count the
/// elements that the operands take, from 0.
#[derive(Clone, Copy)]
pub struct Row {
    /// The operands, the top of the stack first.
    pub operands: &'static [Operand],
    /// The reference points that are used, tested with their old numbers.
    pub uses: &'static [Use],
    /// The changes, one after the other.
    pub updates: &'static [Update],
    /// What is pushed, the deepest first.
    pub pushes: &'static [Pushed],
}

/// A push instruction, by how its data are laid out after its code.
#[derive(Clone, Copy)]
pub enum Push {
    /// A count byte and that many bytes.
    CountedBytes,
    /// A count byte and that many words of two bytes.
    CountedWords,
    /// This many bytes.
    Bytes(u8),
    /// This many words of two bytes.
    Words(u8),
}

/// An instruction that copies, moves, removes or counts the stack's elements, and reads none of
/// them except for an index.
#[derive(Clone, Copy)]
pub enum StackOp {
    /// DUP: pushes the top again.
    Dup,
    /// POP: removes the top.
    Pop,
    /// CLEAR: removes all elements.
    Clear,
    /// SWAP: exchanges the two upper elements.
    Swap,
    /// DEPTH: pushes how many elements there are.
    Depth,
    /// CINDEX: copies the element that an index names to the top.
    CopyIndexed,
    /// MINDEX: moves the element that an index names to the top.
    MoveIndexed,
    /// ROLL: moves the third element to the top.
    Roll,
}

/// An instruction whose result is computed. Of two operands the first is the one below the top. A
/// number is true if it isn't 0.
#[derive(Clone, Copy)]
pub enum Arithmetic {
    /// ADD: the sum of two numbers.
    Add,
    /// SUB: the first number minus the second.
    Sub,
    /// ABS: the absolute value of a number.
    Abs,
    /// NEG: a number with the other sign.
    Neg,
    /// LT: 1 if the first number is less than the second, otherwise 0.
    Lt,
    /// LTEQ: 1 if the first number is at most the second, otherwise 0.
    LtEq,
    /// GT: 1 if the first number is greater than the second, otherwise 0.
    Gt,
    /// GTEQ: 1 if the first number is at least the second, otherwise 0.
    GtEq,
    /// EQ: 1 if two numbers are equal, otherwise 0.
    Eq,
    /// NEQ: 1 if two numbers differ, otherwise 0.
    Neq,
    /// AND: 1 if both numbers are true, otherwise 0.
    And,
    /// OR: 1 if at least one of two numbers is true, otherwise 0.
    Or,
    /// NOT: 1 if a number is 0, otherwise 0.
    Not,
}

/// An instruction that leads elsewhere than to the next instruction, or defines a function or an
/// instruction.
#[derive(Clone, Copy)]
pub enum Control {
    /// IF: goes on to the next instruction if a number is true, otherwise to just after its ELSE or
    /// EIF.
    If,
    /// ELSE: goes to just after its EIF.
    Else,
    /// JMPR: jumps.
    Jump,
    /// JROT: jumps if a number is true.
    JumpIfTrue,
    /// JROF: jumps if a number is 0.
    JumpIfFalse,
    /// CALL: calls a function once.
    Call,
    /// LOOPCALL: calls a function as often as a count says.
    LoopCall,
    /// FDEF: defines a function and goes to just after its ENDF.
    FunctionDefinition,
    /// ENDF: ends a turn of a function.
    EndFunction,
    /// IDEF: defines an instruction, which isn't followed.
    InstructionDefinition,
}

/// What the machine with control values says more of an instruction than the hint machine, to which
/// control values, and these results, are any numbers.
#[derive(Clone, Copy, PartialEq, Eq)]
pub enum Refinement {
    /// RCVT: reads a control value.
    ReadsControl,
    /// WCVTP: writes a control value.
    WritesControl,
    /// WCVTF: changes a control value, given in the font's units.
    ChangesControl,
    /// DELTAC1, DELTAC2, DELTAC3: change several control values.
    ChangesControls,
    /// MAX: the greatest of two numbers.
    Greatest,
    /// MIN: the least of two numbers.
    Least,
    /// MUL: the product of two numbers.
    Product,
    /// DIV: the quotient of two numbers.
    Quotient,
    /// FLOOR: the greatest whole number that isn't above a number.
    Floor,
    /// CEILING: the least whole number that isn't below a number.
    Ceiling,
    /// Any other instruction: no more than the hint machine says.
    Ordinary,
}

/// What an instruction writes of the memory that programs share: the storage area and the control
/// values.
#[derive(Clone, Copy, PartialEq, Eq)]
pub enum Written {
    /// WS: the storage cell whose index is under the top.
    StorageCell,
    /// WCVTP, WCVTF: the control value whose index is under the top.
    ControlValue,
    /// DELTAC1, DELTAC2, DELTAC3: the control values whose indexes are in pairs under a count.
    ControlValues,
    /// Any other instruction: nothing.
    Nothing,
}

/// What the instructions of a code do.
#[derive(Clone, Copy)]
pub enum Effect {
    /// The code has no entry in the instruction set.
    NoEntry,
    /// It takes, tests, changes and pushes what its row says.
    Plain(Row),
    /// It pushes its data.
    Push(Push),
    /// It copies, moves, removes or counts elements of the stack.
    Stack(StackOp),
    /// It computes a number.
    Arithmetic(Arithmetic),
    /// It leads elsewhere than to the next instruction, or defines something.
    Control(Control),
}
