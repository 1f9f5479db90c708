//! Finished families of abstract states.

ghost use Rattle.std.specs.Prelude.{◌≡◌, ◌⊎◌, ◌<◌, ◌≤◌, None, Some, [], ◌∷◌, IfSome, length};
ghost use Rattle.std.specs.List.{All};
ghost use Rattle.std.specs.List.Sorted.{IsStrictlySortedBy};
ghost use Rattle.std.specs.Map.{keys_of};
ghost use Rattle.tt_setting.specs.Entries.{Ascends};
ghost use Rattle.tt_family.specs.Places.{place_cmp, states_of};
ghost use Rattle.tt_family.specs.Puts.{family_state};
ghost use Rattle.tt_family.specs.Ends.{AreDefinedAtEnd, AreDefinedWhereFilled, AreKnownAtEnd, FillingsKeepEnd};
ghost use Rattle.tt_family.specs.Contents.{IsFamily, family_of, points_of, state_at};
ghost use Rattle.tt_family.specs.Ascending.{IsFinished, IsContextAt};

use crate::builder::Builder;
use crate::states::States;
use std::alloc::{AllocError, Global};
use std::marker::Model;
use tt_abs::State;
use tt_code::Frame;
use tt_setting::Spot;

/// A family of states whose contexts have their numbers in order: the empty one is number 0, and
/// the others ascend by parent, call, body, turn and count.
pub struct Certificate {
    builder: Builder,
}

// Written out, so that who holds a certificate proves in one step that its memory is given back.
impl Drop for Certificate {
    fn drop(self) {
        let Certificate { builder } = self;
        drop(builder);
    }
}

impl Model for Certificate {
    ghost use Rattle.tt_family.specs.Contents.{Contents};
    ghost use Rattle.tt_family.specs.Ascending.{IsFinished as IsFinishedFamily};

    ghost Value = { Contents };

    ghost view = { λ c. c.builder };

    ghost invariant = { λ c. IsFinishedFamily c.builder };
}

impl Certificate {
    /// Makes the certificate of a builder's family, whose contexts are in order.
    pub fn of(builder: Builder) -> Self
        requires { IsFinished builder }
        ensures { result ≡ builder }
    {
        Certificate { builder }
    }

    /// Lends the builder that holds the family: it tells what a context is, and which number one has.
    pub fn builder(&self) -> &Builder
        ensures { result.now ≡ self.now }
    {
        &self.builder
    }

    /// States that the contexts and the states are a family, and that the contexts are in order, as
    /// they always are.
    pub fn order_facts(&self)
        ensures { IsFinished self.now }
    {
        self.contexts();
    }

    /// Returns how many contexts there are, including the empty one.
    pub fn contexts(&self) -> u32
        ensures value { result ≡ length self.now.contexts }
        ensures finished { IsFinished self.now }
    {
        self.builder.contexts()
    }

    /// Returns how many points have a state.
    pub fn points(&self) -> u32
        ensures { result ≡ points_of self.now }
    {
        self.builder.points()
    }

    /// Returns a context's parent and last frame: `None` for the empty context, and for a number
    /// that no context has.
    pub fn context(&self, number: u32) -> Option<(u32, Frame)>
        ensures none { result ≡ None → (number ≡ 0) ⊎ (length self.now.contexts ≤ number) }
        ensures some { IfSome result (IsContextAt self.now.contexts number) }
    {
        self.builder.context(number)
    }

    /// Returns the state at a point.
    pub fn state(&self, context: u32, offset: u32) -> Option<&State>
        ensures none { result ≡ None → state_at self.now context offset ≡ None }
        ensures some { IfSome result (λ state. state_at self.now context offset ≡ Some state.now) }
        ensures at { context < length self.now.contexts
            → family_state self.now context offset ≡ state_at self.now context offset }
    {
        self.builder.state(context, offset)
    }

    /// Returns the states with their contexts and offsets, by ascending context, and by ascending
    /// offset within one: each point that has a state comes once.
    pub fn states(&self) -> States<'_>
        ensures rest { result ≡ self.now.states }
        ensures ascends { IsStrictlySortedBy place_cmp (keys_of self.now.states) }
        ensures found { All (λ e. states_of self.now.states e.0 ≡ Some e.1) self.now.states }
        ensures finished { IsFinished self.now }
    {
        self.builder.states()
    }

    /// Makes a builder in the certificate's memory: only the empty context, and no state.
    pub fn into_builder(self) -> Builder
        ensures contexts { result.contexts ≡ [] ∷ [] }
        ensures states { result.states ≡ [] }
        ensures family { IsFamily result }
    {
        let Certificate { mut builder } = self;
        builder.clear();
        builder
    }

    /// Returns the functions that are known at the end of a program of this length, where no call
    /// is open: by ascending numbers, each with its body. `None` if the end has no state. Where the
    /// family is good for the program, or can be filled up to a good one, each run of the program
    /// that reaches its end has these functions there, with these bodies. A filling has the
    /// family's own state at the end.
    pub fn end_functions(&self, length: u32) -> Option<&[(u16, u32)]>
        ensures none { result ≡ None → family_of self.now ([], length) ≡ None }
        ensures some { IfSome result (λ functions.
            AreKnownAtEnd (family_of self.now) length functions.now) }
        ensures ascends { IfSome result (λ functions. Ascends functions.now) }
        ensures defined { IfSome result (λ functions.
            AreDefinedAtEnd (family_of self.now) length functions.now) }
        ensures filled { IfSome result (λ functions.
            AreDefinedWhereFilled (family_of self.now) length functions.now) }
        ensures fillings { FillingsKeepEnd (family_of self.now) length }
    {
        self.builder.end_functions(length)
    }
}
