//! The judge that finds a program's least family, in the memory of those before it.

ghost use Rattle.std.specs.Prelude.{◌≡◌, is_some, option_map, refl, true};
ghost use Rattle.std.specs.Option.{option_copied};
ghost use Rattle.tt_setting.specs.Entries.{Ascends};
ghost use Rattle.tt_setting.specs.Settings.{setting_of};
ghost use Rattle.tt_code.specs.Cut.{size};
ghost use Rattle.hintcheck_programs.specs.Representation.FontVerdicts.{ComesToEnd};
ghost use Rattle.hintcheck_programs.specs.Representation.Judges.{AreWithin, IsFoundIn, IsFoundToEndIn, IsRefusedFor};
ghost use Rattle.hintcheck_programs.specs.ProgramVerdicts.{with_start};

use crate::judge::Judge;
use crate::program::{Search, find_and_check};
use crate::report::Name;
use std::alloc::{AllocError, Global};
use std::mem;
use tt_abs::{Kind, Refusal, Setting};
use tt_family::{Budget, Certificate};
use tt_find::{Finder, Found};

/// Judges a program by its least family, which is found and, where the search asks for that,
/// checked. Its finder keeps what was found last, and uses its memory again.
pub struct Finding {
    search: Search,
    finder: Finder,
}

// Written out, so that who holds a judge proves in one step that its memory is given back.
impl Drop for Finding {
    fn drop(self) {
        let Finding { search: _, finder } = self;
        drop(finder);
    }
}

/// Whether it is a glyph program without instructions, in which nothing can be refused.
fn is_empty_glyph(setting: &Setting<'_>) -> bool
    ensures empty { result ≡ true → size setting.now.main.now ≡ 0 }
    ensures glyph { result ≡ true → ComesToEnd (setting_of setting.now).kind → ⊥ }
{
    match setting.kind {
        Kind::Font | Kind::Cvt => false,
        Kind::Glyph { .. } => setting.main.len() == 0,
    }
}

impl Finding {
    /// Makes a judge for a search. It takes no memory.
    pub fn new(alloc: Global, search: Search) -> Self
        ensures { result.search ≡ search }
    {
        Finding {
            search,
            finder: Finder::new(alloc),
        }
    }

    /// Lends the certificate that was found last.
    pub fn certificate(&self) -> Option<&Certificate>
        ensures value { option_copied result
            ≡ option_map (λ found. found.certificate) self.now.finder.found }
        ensures variant { is_some result ≡ is_some self.now.finder.found }
    {
        self.finder.certificate()
    }

    /// Takes what was found last.
    pub fn take_found(&mut self, alloc: Global) -> Option<Found>
        ensures { result ≡ self.old.finder.found }
    {
        mem::replace(&mut self.finder, Finder::new(alloc)).into_found()
    }
}

impl Judge for Finding {
    type Known = (u16, u32);

    ghost CanStart = { λ limits functions. Ascends functions × AreWithin limits functions };

    ghost Accepts = { λ j x start is. IsFoundIn j (with_start x start) is };

    ghost Ends = { λ j x start is known. IsFoundToEndIn j (with_start x start) is known };

    ghost Refuses = { λ j x start r. IsRefusedFor (with_start x start) r };

    ghost Keeps = { λ j k. k.search ≡ j.search };

    ghost KeepsForGlyphs = { λ j k. Unit {0} };

    fn judge(
        &mut self,
        alloc: Global,
        _program: Name,
        setting: &Setting<'_>,
        start: &[(u16, u32)],
        budget: &mut Budget,
    ) -> Result<(), Refusal> {
        if self.search.is_for_verdict() && is_empty_glyph(setting) {
            return Ok(());
        }
        let started = Setting { start, ..*setting };
        find_and_check(alloc, &mut self.finder, &started, self.search, budget)
    }

    fn uncut_facts(&self) {}

    fn known_at_end(
        &self,
        alloc: Global,
        setting: &Setting<'_>,
        _start: &[(u16, u32)],
    ) -> Result<Vec<(u16, u32)>, AllocError> {
        // A font program or a CVT program that is accepted has a family with a state at its end.
        let certificate = self.finder.certificate().unwrap();
        let functions = certificate.end_functions(setting.main.len()).unwrap();
        Vec::from_slice(alloc, functions)
    }

    ghost keeps_itself = { λ j. refl };

    ghost keeps_itself_for_glyphs = { λ j. tt };
}
