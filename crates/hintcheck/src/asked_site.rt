//! The site that is asked for: a place in the program that is explained, or in a function that it
//! calls.

ghost use Rattle.std.specs.Prelude.{◌<◌, ◌^◌, IfErr, length};
ghost use Rattle.hintcheck.specs.Commands.{IsNoWriteFault};
ghost use Rattle.hintcheck_programs.specs.FontPrograms.{IsFontInRange};

use crate::commands::faults::CommandFault;
use crate::instruction_list::read_decimal;
use crate::neighbours::neighbours_of;
use hintcheck_explain::Site;
use tt_abs::Spot;
use tt_code::first_uncut;
use tt_font::Font;

/// Returns the site that the word spells, if it spells one.
fn read_site(word: &str) -> Option<Site> {
    let (spot, number) = if let Some(number) = word.strip_prefix("f:") {
        (Spot::Font, number)
    } else if let Some(number) = word.strip_prefix("p:") {
        (Spot::Prep, number)
    } else {
        (Spot::Main, word)
    };
    let offset = read_decimal(number)?;
    Some(Site { spot, offset })
}

/// Returns the site that the word asks for; none where it is left out.
///
/// # Errors
/// `NoOffset` where the word spells no site.
pub(crate) fn asked_site(word: &Option<String>) -> Result<Option<Site>, CommandFault>
    ensures { IfErr result IsNoWriteFault }
{
    let Some(word) = word else {
        return Ok(None);
    };
    match read_site(word) {
        Some(site) => Ok(Some(site)),
        None => Err(CommandFault::NoOffset),
    }
}

/// Whether an instruction of the program begins at the offset: there is a byte, and those before it
/// can be cut into instructions, structured or not.
pub(crate) fn begins_instruction(program: &[u8], offset: u32) -> bool
    requires { length program.now < 2 ^ 31 }
{
    let offset = offset as usize;
    offset < program.len() && first_uncut(&program[..offset]).is_none()
}

/// Checks that an instruction begins at the site, if one is asked for, where the program of these
/// bytes of the font is explained.
///
/// # Errors
/// `OffsetWord` where none begins there, with the instructions around it.
pub(crate) fn check_site<'a>(
    font: &Font<'a>,
    program: &'a [u8],
    site: Option<Site>,
) -> Result<(), CommandFault>
    requires range { IsFontInRange font.now }
    requires few { length program.now < 2 ^ 31 }
    ensures { IfErr result IsNoWriteFault }
{
    let Some(Site { spot, offset }) = site else {
        return Ok(());
    };
    let bytes = match spot {
        Spot::Main => program,
        Spot::Font => font.fpgm(),
        Spot::Prep => font.prep(),
    };
    if begins_instruction(bytes, offset) {
        Ok(())
    } else {
        Err(CommandFault::OffsetWord(neighbours_of(bytes, offset)))
    }
}
