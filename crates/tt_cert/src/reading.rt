//! Sections read from a source.

ghost use Rattle.std.specs.Prelude.{◌≡◌, ◌++◌, ℕ, List, Some, IfErr, IfOk, OnOk, MatchResult};
ghost use Rattle.tt_family.specs.Ascending.{IsFinished};
ghost use Rattle.tt_family.specs.Contents.{Contents};
ghost use Rattle.tt_stream.specs.Reads.{ConsumesBeginning};
ghost use Rattle.tt_cert.specs.Answers.{AreBytes, CountsRead, GivesSection, IsFormFault, LendsSection, ReadsSection, StopsAtEnd, input_at};
ghost use Rattle.tt_cert.specs.Representation.Clauses.{IsEmptyBuilder, ReadsAs, StopsWhole};
ghost use Rattle.tt_cert.specs.Representation.SharedCells.{IsLast};
ghost use Rattle.tt_cert.specs.Families.{HasText, family_text};
ghost use Rattle.tt_cert.specs.Forms.{IsFormNumber, form_numbered};
ghost use Rattle.tt_cert.specs.Reading.{section_at};
ghost use Rattle.tt_cert.specs.Rules.{Fits};
ghost use Rattle.tt_cert.specs.Sections.{Section, section_of};
ghost use Rattle.tt_cert.specs.Text.{section_text};
ghost use Rattle.tt_setting.specs.declared.name.Name.{Name as ProgramName};

use crate::contexts::{builder_of, read_contexts};
use crate::form::Form;
use crate::states::{LastState, read_states};
use crate::units::read_name;
use std::alloc::{AllocError, Global};
use std::marker::Model;
use tt_family::{Builder, Certificate};
use tt_setting::{CertFault, Name};
use tt_stream::Source;

/// Reads a section, reusing an empty builder's memory; `state` is the one before the first, and
/// becomes the last. Returns the section's name and family, and the place after it.
///
/// # Errors
/// As `decode`.
#[tactic(auto, unfolding(crate::specs::Reading::section_at))]
fn read_section<S: Source>(
    alloc: Global,
    source: &mut S,
    place: u64,
    form: Form,
    spare: Builder,
    state: &mut LastState,
) -> Result<((Name, Certificate), u64), CertFault>
    requires spare { IsEmptyBuilder spare }
    requires before { IsLast state.old }
    ensures reads { ReadsAs (λ x. section_of x.0 x.1) (section_at form) place result
        (S.remaining source.old) (S.remaining source.new) }
    ensures finished { IfOk result (λ r. IsFinished r.0.1) }
    ensures kept { OnOk result (IsLast state.new) }
    ensures beginning { ConsumesBeginning (S.remaining source.old) (S.remaining source.new) }
    ensures stopped { StopsWhole (section_at form) place result
        (S.remaining source.old) (S.remaining source.new) }
    ensures failures { CountsRead result (S.failures source.old) (S.failures source.new) }
{
    let (name, at) = read_name(source, place)?;
    let (contexts, at) = read_contexts(alloc, source, at, form)?;
    let builder = builder_of(spare, &contexts)?;
    let (builder, at) = read_states(builder, source, at, form, state)?;
    Ok(((name, Certificate::of(builder)), at))
}

/// A reader of sections, one after the other: each is read in the memory of those before it, and
/// each state is compared to the state before, which it mostly resembles. What is read doesn't
/// depend on them. A reader holds the family that it read last, which it lends, until it is cleared or
/// reads the next one, and the last state. After a fault it holds neither.
pub struct Decoder {
    /// The state that was read last.
    last: Option<LastState>,
    /// The family that was read last.
    family: Option<Certificate>,
    /// An empty builder, in whose memory the next family is made.
    spare: Option<Builder>,
}

// Written out, so that who holds a decoder proves in one step that its memory is given back.
impl Drop for Decoder {
    fn drop(self) {
        let Decoder {
            last,
            family,
            spare,
        } = self;
        drop(last);
        drop(family);
        drop(spare);
    }
}

impl Model for Decoder {
    ghost use Rattle.std.specs.Prelude.{IfSome};
    ghost use Rattle.tt_cert.specs.Representation.Clauses.{IsEmptyBuilder};
    ghost use Rattle.tt_cert.specs.Representation.SharedCells.{IsLast};

    ghost Value = { Unit {0} };

    ghost view = { λ _. tt };

    ghost invariant = { λ d. IfSome d.last IsLast × IfSome d.spare IsEmptyBuilder };
}

impl Decoder {
    /// Makes a reader that has read nothing. It takes no memory.
    pub fn new() -> Self {
        Decoder {
            last: None,
            family: None,
            spare: None,
        }
    }

    /// Takes the state that was read last, or makes one.
    ///
    /// # Errors
    /// If memory runs out.
    fn take_last(&mut self, alloc: Global) -> Result<LastState, AllocError>
        ensures { IfOk result (λ last. IsLast last) }
    {
        match self.last.take() {
            Some(last) => Ok(last),
            None => LastState::new(alloc),
        }
    }

    /// Empties the family that was read last: nothing is kept but its memory, for the next one.
    pub fn clear(&mut self) {
        if let Some(family) = self.family.take() {
            self.spare = Some(family.into_builder());
        }
    }

    /// Takes an empty builder, in the memory of the family that was read last, or a new one.
    fn take_builder(&mut self, alloc: Global) -> Builder
        ensures { IsEmptyBuilder result }
    {
        self.clear();
        match self.spare.take() {
            Some(spare) => spare,
            None => Builder::new(alloc),
        }
    }

    /// Reads the next section, as `decode` does, in the memory of the family that was read last.
    ///
    /// # Errors
    /// As `decode`.
    fn read_next<S: Source>(
        &mut self,
        alloc: Global,
        source: &mut S,
        start: u64,
        form: Form,
    ) -> Result<(Name, Certificate, u64), CertFault>
        // What is read was at the beginning of the input, of which no more is read.
        ensures found { IfOk result (λ r. (input : List ℕ)
            → S.remaining source.old ≡ Some input → AreBytes input
            → ReadsSection form input start (section_of r.0 r.1) (S.remaining source.new) r.2) }
        // A section at the beginning of the input is read, except for failed reads and out of
        // memory.
        ensures only { (s : Section) (rest : List ℕ) → Fits form s
            → S.remaining source.old ≡ Some (section_text form s ++ rest)
            → MatchResult result (λ r. section_of r.0 r.1 ≡ s) (λ fault. ¬ IsFormFault fault) }
        // The text of a name with a family is read as this name and this family, whatever follows,
        // except for failed reads and out of memory.
        ensures same { (name : ProgramName) (family : Contents) (rest : List ℕ)
            → HasText form name family
            → S.remaining source.old ≡ Some (family_text form name family ++ rest)
            → MatchResult result (λ r. (r.0 ≡ name) × (r.1 ≡ family))
            (λ fault. ¬ IsFormFault fault) }
        ensures finished { IfOk result (λ r. IsFinished r.1) }
        // Which place a fault names.
        ensures exact { GivesSection (S.remaining source.old) (S.remaining source.new) result
            (section_at form (input_at start (S.remaining source.old))) }
        ensures beginning { ConsumesBeginning (S.remaining source.old) (S.remaining source.new) }
        // Where a read failed, no unit that was read whole breaks a rule.
        ensures whole_units { IfErr result
            (StopsAtEnd start (S.remaining source.old) (S.remaining source.new) (section_at form)) }
        ensures failures { CountsRead result (S.failures source.old) (S.failures source.new) }
    {
        let builder = self.take_builder(alloc);
        let mut last = self.take_last(alloc)?;
        let ((name, certificate), after) = read_section(
            alloc, source, start, form, builder, &mut last,
        )?;
        self.last = Some(last);
        Ok((name, certificate, after))
    }

    /// Reads the next section, as `decode` does, and lends its family. The decoder keeps it in
    /// place of the one before.
    ///
    /// # Errors
    /// As `decode`; then the decoder keeps no family.
    pub fn decode<S: Source>(
        &mut self,
        alloc: Global,
        source: &mut S,
        start: u64,
        form: Form,
    ) -> Result<(Name, &Certificate, u64), CertFault>
        // What is read was at the beginning of the input, of which no more is read.
        ensures found { IfOk result (λ r. (input : List ℕ)
            → S.remaining source.old ≡ Some input → AreBytes input
            → ReadsSection form input start (section_of r.0 r.1.now) (S.remaining source.new)
            r.2) }
        // A section at the beginning of the input is read, except for failed reads and out of
        // memory.
        ensures only { (s : Section) (rest : List ℕ) → Fits form s
            → S.remaining source.old ≡ Some (section_text form s ++ rest)
            → MatchResult result (λ r. section_of r.0 r.1.now ≡ s) (λ fault. ¬ IsFormFault fault) }
        // The text of a name with a family is read as this name and this family, whatever follows,
        // except for failed reads and out of memory.
        ensures same { (name : ProgramName) (family : Contents) (rest : List ℕ)
            → HasText form name family
            → S.remaining source.old ≡ Some (family_text form name family ++ rest)
            → MatchResult result (λ r. (r.0 ≡ name) × (r.1.now ≡ family))
            (λ fault. ¬ IsFormFault fault) }
        ensures finished { IfOk result (λ r. IsFinished r.1.now) }
        // Which place a fault names.
        ensures exact { LendsSection (S.remaining source.old) (S.remaining source.new) result
            (section_at form (input_at start (S.remaining source.old))) }
        ensures beginning { ConsumesBeginning (S.remaining source.old) (S.remaining source.new) }
        // Where a read failed, no unit that was read whole breaks a rule.
        ensures whole_units { IfErr result
            (StopsAtEnd start (S.remaining source.old) (S.remaining source.new) (section_at form)) }
        ensures failures { CountsRead result (S.failures source.old) (S.failures source.new) }
    {
        match self.read_next(alloc, source, start, form) {
            Ok((name, family, after)) => Ok((name, self.family.insert(family), after)),
            Err(fault) => Err(fault),
        }
    }
}

/// Reads a section of a certificate file of the form with this number, which `read_header` gives;
/// the section begins at the place `start` of the file. Exactly its bytes are read. Returns the
/// program's name, its family, and the place after the section, which stops at the greatest number
/// of 64 bits.
///
/// # Errors
/// `Form` where no section's text begins what is left, with the place of the first byte of what
/// breaks a rule, or of the input's end where that comes too early; `Read` exactly where a read
/// failed; `OutOfMemory`. Then some beginning of what is left was read, and at `Read` no unit of it
/// that is whole breaks a rule.
pub fn decode<S: Source>(
    alloc: Global,
    source: &mut S,
    start: u64,
    form: u16,
) -> Result<(Name, Certificate, u64), CertFault>
    requires { IsFormNumber form }
    // What is read was at the beginning of the input, of which no more is read.
    ensures found { IfOk result (λ r. (input : List ℕ)
        → S.remaining source.old ≡ Some input → AreBytes input
        → ReadsSection (form_numbered form) input start (section_of r.0 r.1)
        (S.remaining source.new) r.2) }
    // A section at the beginning of the input is read, except for failed reads and out of memory.
    ensures only { (s : Section) (rest : List ℕ) → Fits (form_numbered form) s
        → S.remaining source.old ≡ Some (section_text (form_numbered form) s ++ rest)
        → MatchResult result (λ r. section_of r.0 r.1 ≡ s) (λ fault. ¬ IsFormFault fault) }
    // The text of a name with a family is read as this name and this family, whatever follows,
    // except for failed reads and out of memory: so what `encode` wrote of them is.
    ensures same { (name : ProgramName) (family : Contents) (rest : List ℕ)
        → HasText (form_numbered form) name family
        → S.remaining source.old ≡ Some (family_text (form_numbered form) name family ++ rest)
        → MatchResult result (λ r. (r.0 ≡ name) × (r.1 ≡ family)) (λ fault. ¬ IsFormFault fault) }
    ensures finished { IfOk result (λ r. IsFinished r.1) }
    // Which place a fault names.
    ensures exact { GivesSection (S.remaining source.old) (S.remaining source.new) result
        (section_at (form_numbered form) (input_at start (S.remaining source.old))) }
    ensures beginning { ConsumesBeginning (S.remaining source.old) (S.remaining source.new) }
    // Where a read failed, no unit that was read whole breaks a rule.
    ensures whole_units { IfErr result
        (StopsAtEnd start (S.remaining source.old) (S.remaining source.new)
        (section_at (form_numbered form))) }
    ensures failures { CountsRead result (S.failures source.old) (S.failures source.new) }
{
    Decoder::new().read_next(alloc, source, start, Form::numbered(form))
}
