//! Names of the cells of states, which are the same wherever a body is called from.

/// Which cell of a state it is.
#[derive(Clone, Copy, PartialEq, Eq, Hash)]
pub(crate) enum Part {
    /// How many turns are left of a call of the body.
    Left,
    /// The reference point rp0.
    Rp0,
    /// The reference point rp1.
    Rp1,
    /// The reference point rp2.
    Rp2,
    /// The loop number.
    Loop,
    /// An element of the stack that the body has put there: how many of its own are below.
    Stack(u32),
    /// A storage cell.
    Storage(u16),
    /// A control value.
    Control(u16),
}

/// A cell of the states in a body.
#[derive(Clone, Copy, PartialEq, Eq, Hash)]
pub(crate) struct CellName {
    /// The name of the body; none is the main program.
    pub body: Option<u32>,
    /// Which cell it is there.
    pub part: Part,
}

impl CellName {
    /// Whether the states of the main program always keep this cell's numbers apart.
    pub(crate) fn is_main_element(self) -> bool {
        self.body.is_none() && matches!(self.part, Part::Stack(_))
    }
}
