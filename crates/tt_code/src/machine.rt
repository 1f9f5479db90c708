//! What the hint machine keeps of a call and of the graphics state, and the body that an
//! instruction belongs to (Apple TrueType Reference Manual, "Graphics state").

ghost use Rattle.std.specs.Prelude.{◌≡◌};
ghost use Rattle.tt_code.specs.States.{pointer as pointer_of, reference as reference_of, with_pointer, with_reference};

use crate::kinds::{Pointer, Reference};

/// A call that hasn't returned.
#[derive(Clone, Copy)]
pub struct Frame {
    /// The function's body: its offset in the font program, or 2^31 more than its offset in the CVT
    /// program.
    pub body: u32,
    /// The offset of the CALL or LOOPCALL.
    pub call: u32,
    /// Which turn runs, from 1.
    pub turn: u32,
    /// How many turns there are: 1 for CALL.
    pub count: u32,
}

/// The part of the graphics state that decides which points, zones and counts are in range. `N` and
/// `Z` are numbers and zones in a state of the machine, and what is known of these in an abstract
/// state.
#[derive(Clone, Copy)]
pub struct Graphics<N, Z> {
    /// The point number of the reference point rp0.
    pub rp0: N,
    /// The point number of the reference point rp1.
    pub rp1: N,
    /// The point number of the reference point rp2.
    pub rp2: N,
    /// The zone of the zone pointer zp0.
    pub zp0: Z,
    /// The zone of the zone pointer zp1.
    pub zp1: Z,
    /// The zone of the zone pointer zp2.
    pub zp2: Z,
    /// The loop number, which SLOOP sets.
    pub loop_number: N,
}

impl<N: Copy, Z: Copy> Graphics<N, Z> {
    /// Returns the number of a reference point.
    pub fn reference(&self, reference: Reference) -> N
        ensures { result ≡ reference_of reference self.now }
    {
        match reference {
            Reference::Rp0 => self.rp0,
            Reference::Rp1 => self.rp1,
            Reference::Rp2 => self.rp2,
        }
    }

    /// Returns the zone that a zone pointer names.
    pub fn pointer(&self, pointer: Pointer) -> Z
        ensures { result ≡ pointer_of pointer self.now }
    {
        match pointer {
            Pointer::Zp0 => self.zp0,
            Pointer::Zp1 => self.zp1,
            Pointer::Zp2 => self.zp2,
        }
    }

    /// Sets the number of a reference point.
    pub fn set_reference(&mut self, reference: Reference, number: N)
        ensures { self.new ≡ with_reference reference number self.old }
    {
        match reference {
            Reference::Rp0 => self.rp0 = number,
            Reference::Rp1 => self.rp1 = number,
            Reference::Rp2 => self.rp2 = number,
        }
    }

    /// Sets the zone that a zone pointer names.
    pub fn set_pointer(&mut self, pointer: Pointer, zone: Z)
        ensures { self.new ≡ with_pointer pointer zone self.old }
    {
        match pointer {
            Pointer::Zp0 => self.zp0 = zone,
            Pointer::Zp1 => self.zp1 = zone,
            Pointer::Zp2 => self.zp2 = zone,
        }
    }
}

/// Which part of a program an instruction belongs to.
#[derive(Clone, Copy, PartialEq, Eq)]
pub enum Body {
    /// Outside all definitions: an FDEF or IDEF itself is still outside.
    Main,
    /// After an FDEF, up to and including its ENDF; the offset of the body's first instruction
    /// names it.
    Function(u32),
    /// After an IDEF, up to and including its ENDF, named by the offset of the first instruction.
    /// No function has this body.
    Instruction(u32),
}
