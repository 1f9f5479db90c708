//! The walk is the check's way through the points of a certificate, including those whose states
//! the certificate leaves out; the cursor is where the walk is.

ghost use Rattle.std.specs.Prelude.{◌≡◌, ◌↔◌, ◌<◌, IfOk, IfSome, IsFalse, IsTrue, None, OnOk, length};
ghost use Rattle.std.specs.Option.{is_some};
ghost use Rattle.tt_code.specs.Settings.{Setting as AnySetting};
ghost use Rattle.tt_setting.specs.Entries.{Ascends};
ghost use Rattle.tt_abs.specs.States.{start_of};
ghost use Rattle.tt_family.specs.Contents.{Contents, IsFamily};
ghost use Rattle.tt_family.specs.Representation.Cursors.{AreToCome, IsAtNext, IsComing, IsComingAfter, IsEntry, IsOnWay, IsShorter, IsWalk, TakesOne};
ghost use Rattle.tt_family.specs.declared.listing.Listing.{Listing as AnyListing};

use crate::certificate::Certificate;
use crate::states::States;
use std::alloc::{AllocError, Global};
use tt_abs::State;
use tt_code::Frame;

/// Where a walk is: a context and its calls, the outermost first, the next listed state, and the
/// one state that the walk owns.
#[derive(Drop)]
pub(crate) struct Cursor<'a> {
    pub context: u32,
    pub frames: Vec<Frame>,
    pub next: Option<(u32, u32, &'a State)>,
    /// The walk's state: first the one in which the program starts; then, in the same memory, the
    /// state at the point that is checked, and what that gives.
    pub made: State,
    /// Whether the walk's state is the next listed one: then that one needs no copy.
    pub is_next: bool,
    /// The offset of the context at which the walk's state is added, if it is: the certificate
    /// lists no state there.
    pub carried: Option<u32>,
}

/// Whether the next listed state is this one, at this place.
pub(crate) fn is_coming(
    next: Option<(u32, u32, &State)>,
    context: u32,
    offset: u32,
    state: &State,
) -> bool
    ensures { IsTrue result ↔ IsComing next.entry context offset state.now }
{
    match next {
        Some((next_context, next_offset, above)) => {
            next_context == context && next_offset == offset && state.is_same(above)
        }
        None => false,
    }
}

/// Whether the next listed state comes after this place, or there is none left.
pub(crate) fn is_coming_after(next: Option<(u32, u32, &State)>, context: u32, offset: u32) -> bool
    ensures { IsTrue result ↔ IsComingAfter next.entry (context, offset) }
{
    match next {
        Some((next_context, next_offset, _)) => {
            context < next_context || context == next_context && offset < next_offset
        }
        None => true,
    }
}

impl<'a> Cursor<'a> {
    /// Makes a walk that begins in the empty context, with the state in which a program starts
    /// where these functions are known.
    ///
    /// # Errors
    /// If memory runs out.
    pub(crate) fn start(
        alloc: Global,
        functions: &[(u16, u32)],
        next: Option<(u32, u32, &'a State)>,
    ) -> Result<Cursor<'a>, AllocError>
        requires { Ascends functions.now }
        ensures walk { IfOk result (λ walk. (contents : Contents) → IsFamily contents
            → IsEntry contents next.entry → IsWalk contents walk) }
        ensures next { IfOk result (λ walk. walk.next ≡ next.entry) }
        ensures made { IfOk result (λ walk. walk.made ≡ start_of functions.now) }
        ensures not_next { IfOk result (λ walk. IsFalse walk.is_next) }
        ensures carried { IfOk result (λ walk. walk.carried ≡ None) }
    {
        Ok(Cursor {
            context: 0,
            frames: Vec::new(alloc),
            next,
            made: State::start(alloc, functions)?,
            is_next: false,
            carried: None,
        })
    }

    /// Makes this listed state, which comes next, the walk's state, unless that is the same
    /// already.
    ///
    /// # Errors
    /// If memory runs out.
    fn take(&mut self, state: &State) -> Result<(), AllocError>
        requires { IsTrue self.old.is_next → self.old.made ≡ state.now }
        ensures made { OnOk result (self.new.made ≡ state.now) }
        ensures not_next { OnOk result (IsFalse self.new.is_next) }
        ensures context { self.new.context ≡ self.old.context }
        ensures frames { self.new.frames ≡ self.old.frames }
        ensures next { self.new.next ≡ self.old.next }
    {
        if !self.is_next {
            self.made.copy_from(state)?;
        }
        self.is_next = false;
        Ok(())
    }

    /// Goes to a context, unless the walk is there already.
    ///
    /// # Errors
    /// If memory runs out.
    fn go_to(&mut self, certificate: &Certificate, context: u32) -> Result<(), AllocError>
        requires walk { IsWalk certificate.now self.old }
        requires there { context < length certificate.now.contexts }
        ensures walk { IfOk result (λ _. IsWalk certificate.now self.new) }
        ensures context { IfOk result (λ _. self.new.context ≡ context) }
        ensures next { IfOk result (λ _. self.new.next ≡ self.old.next) }
        ensures made { IfOk result (λ _. self.new.made ≡ self.old.made) }
        ensures is_next { IfOk result (λ _. self.new.is_next ≡ self.old.is_next) }
    {
        if context != self.context {
            let builder = certificate.builder();
            builder.read_frames(context, &mut self.frames)?;
            self.context = context;
        }
        Ok(())
    }

    /// Goes on to the next point: the one at which the walk's state is added, or that of the next
    /// listed state, whichever comes first. The walk's state is then the one at that point.
    /// `states` are the listed states after the next one. Returns the point's offset, `None` after
    /// the last point.
    ///
    /// # Errors
    /// If memory runs out.
    pub(crate) fn go_on(
        &mut self,
        certificate: &Certificate,
        states: &mut States<'a>,
    ) -> Result<Option<u32>, AllocError>
        requires walk { IsWalk certificate.now self.old }
        requires to_come { AreToCome certificate.now self.old.next states.old }
        ensures walk { IfOk result (λ _. IsWalk certificate.now self.new) }
        ensures to_come { IfOk result (λ _. AreToCome certificate.now self.new.next states.new) }
        ensures point { IfOk result (λ to. (s : AnySetting) (listing : AnyListing)
            → IsOnWay s listing certificate.now self.old states.old
            → IsAtNext s listing certificate.now self.new states.new to) }
        ensures shorter { IfOk result (λ to.
            IfSome to (IsShorter self.old self.new states.old states.new)) }
        ensures one { IfOk result (λ to.
            TakesOne (is_some to) self.old self.new states.old states.new) }
    {
        certificate.order_facts();
        if let Some(offset) = self.carried {
            if is_coming_after(self.next, self.context, offset) {
                return Ok(Some(offset));
            }
        }
        let Some((context, offset, state)) = self.next else {
            return Ok(None);
        };
        prove!(u64::from(offset) < 1 << 32);
        self.take(state)?;
        self.next = states.take_first();
        self.go_to(certificate, context)?;
        Ok(Some(offset))
    }
}
