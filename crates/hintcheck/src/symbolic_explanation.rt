//! One program of a font, explained by the symbolic profile.

ghost use Rattle.std.specs.Prelude.{◌≡◌, ◌<◌, ◌^◌, IfErr, IfOk, length};
ghost use Rattle.hintcheck.specs.Commands.{IsNoWriteFault, TellsFailure};
ghost use Rattle.hintcheck_programs.specs.FontPrograms.{IsFontInRange};
ghost use Rattle.hintcheck.specs.SymbolicExplanations.{TellsSymbolicProgram, first_against, keeps_from as keeps_from_it};

use crate::commands::faults::CommandFault;
use crate::explanation::{explain_uncut, tell_unchecked};
use crate::instruction_list::Named;
use hintcheck_explain::{Asked, Details, Explained, Site, explain_symbolic};
use hintcheck_fonts::symbolic_check::SymbolicCheck;
use hintcheck_fonts::symbolic_verdict::refused_programs;
use hintcheck_programs::program::{cut, empty_program};
use hintcheck_programs::report::{Name, Refused};
use std::alloc::Global;
use tt_abs::{Kind, Refusal, Setting};
use tt_code::Program;
use tt_font::Font;
use tt_stream::Sink;
use tt_symbolic_search::{Insight, Question};

/// Whether the second program isn't accepted where the first one is refused: it is the same, or it
/// isn't checked, since the first one is the font program or the CVT program before it.
fn keeps_from(refused: Name, called: Name) -> bool
    ensures { result ≡ keeps_from_it refused called }
{
    match refused {
        Name::Font => true,
        Name::Cvt => match called {
            Name::Font => false,
            Name::Cvt => true,
            Name::Glyph(_) => true,
        },
        Name::Glyph(id) => match called {
            Name::Font => false,
            Name::Cvt => false,
            Name::Glyph(other) => id == other,
        },
    }
}

/// Returns the first of the refused programs because of which the program of this name isn't
/// accepted, if there is one.
fn refused_against(refused: &[Refused], called: Name) -> Option<Refused>
    ensures { result ≡ first_against called refused.now }
{
    refused
        .iter()
        .copied()
        .find(|one| keeps_from(one.program, called))
}

/// Returns what kind of program the font's one of this name is.
fn kind_of(font: &Font<'_>, called: Name) -> Kind {
    match called {
        Name::Font => Kind::Font,
        Name::Cvt => Kind::Cvt,
        Name::Glyph(id) => match font.glyph(id) {
            Some(glyph) => Kind::Glyph {
                points: glyph.points,
                contours: glyph.contours,
            },
            None => Kind::Glyph {
                points: 0,
                contours: 0,
            },
        },
    }
}

/// Cuts a program that others call, which has no instructions if it can't be cut.
///
/// # Errors
/// `OutOfMemory`.
fn cut_before<'a>(alloc: Global, bytes: &'a [u8]) -> Result<Program<'a>, CommandFault>
    requires { length bytes.now < 2 ^ 31 }
    ensures { IfErr result IsNoWriteFault }
{
    match cut(alloc, bytes) {
        Ok(program) => Ok(program),
        Err(Refusal::Refused { .. }) => Ok(empty_program(alloc)?),
        Err(Refusal::Exhausted(_)) => Err(CommandFault::OutOfMemory),
    }
}

/// Prints the explanation of a program that is refused so, or is accepted.
fn tell_program<O: Sink>(
    alloc: Global,
    font: &Font<'_>,
    named: Named<'_>,
    asked: Asked,
    refused: Option<Refused>,
    insight: Option<&Insight>,
    details: &mut Details,
    out: &mut O,
) -> Result<(), CommandFault>
    requires range { IsFontInRange font.now }
    requires few { length named.bytes.now < 2 ^ 31 }
    ensures failures { TellsFailure result (O.failures out.old) (O.failures out.new) }
{
    let main = match cut(alloc, named.bytes) {
        Ok(main) => main,
        Err(fault) => {
            explain_uncut(asked, named.bytes, fault, out)?;
            return Ok(());
        }
    };
    let fpgm = cut_before(alloc, font.fpgm())?;
    let prep = cut_before(alloc, font.prep())?;
    let setting = Setting {
        limits: font.limits(),
        cvt: font.cvt_count(),
        kind: kind_of(font, named.name),
        main: &main,
        font: &fpgm,
        prep: &prep,
        start: &[],
    };
    Ok(explain_symbolic(alloc, &setting, asked, refused, insight, details, out)?)
}

/// Explains a program of the font by the symbolic profile, and returns whether the verdict on the font
/// by symbolic states accepts it and those before it, or how one of them is refused. With a site the
/// explanation tells what the search knows there. The search makes at most so many steps for the font.
///
/// # Errors
/// `Write` exactly where a write to `out` failed; `OutOfMemory`.
pub(crate) fn explain_symbolically<O: Sink>(
    alloc: Global,
    font: &Font<'_>,
    named: Named<'_>,
    site: Option<Site>,
    steps: u64,
    details: &mut Details,
    out: &mut O,
) -> Result<Explained, CommandFault>
    requires range { IsFontInRange font.now }
    requires few { length named.bytes.now < 2 ^ 31 }
    ensures tells { IfOk result (TellsSymbolicProgram font.now named.entry.name) }
    ensures failures { TellsFailure result (O.failures out.old) (O.failures out.new) }
{
    let asked = Asked {
        program: named.name,
        site,
    };
    let mut judge = SymbolicCheck::new(alloc, steps);
    judge.explain(named.name, Question { site });
    let Ok(refused) = refused_programs(alloc, font, &mut judge) else {
        return Err(CommandFault::OutOfMemory);
    };
    let insight = judge.take_insight();
    let Some(one) = refused_against(&refused, named.name) else {
        tell_program(
            alloc,
            font,
            named,
            asked,
            None,
            insight.as_ref(),
            details,
            out,
        )?;
        return Ok(Explained::Accepted);
    };
    if one.program != named.name {
        return tell_unchecked(one, out);
    }
    tell_program(
        alloc,
        font,
        named,
        asked,
        Some(one),
        insight.as_ref(),
        details,
        out,
    )?;
    Ok(Explained::Refused(one))
}
