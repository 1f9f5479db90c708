//! The command line, as tables: its subcommands, what each of them takes, and what help says.

ghost use Rattle.std.specs.Prelude.{◌≡◌, IfOk, false};
ghost use Rattle.clap.specs.Words.{app_of, rule_of};
ghost use Rattle.hintcheck_words.specs.CommandLine.{hintcheck, program};
ghost use Rattle.hintcheck_words.specs.Representation.Tables.{app_of_table, rule_of_parameter};

use super::VERSION;
use clap::{Arg, ArgAction, Command, value_parser};
use std::alloc::{AllocError, Global};

/// What the words give a parameter of a subcommand.
#[derive(Clone, Copy)]
enum Form<'a> {
    /// An argument that must be given: a text.
    Text,
    /// An argument that must be given: one text or more.
    Texts,
    /// An argument that must be given: a number from 0 to 65,535.
    Number,
    /// An argument that may be left out: a text.
    OptionalText,
    /// An option of this long name that takes no value.
    Flag(&'a str),
    /// An option of this long name and of this short one that takes no value.
    ShortFlag(&'a str, char),
    /// An option of this long name that takes a text.
    TextOption(&'a str),
    /// An option of this long name that takes a number from 0 to 4,294,967,295.
    Number32Option(&'a str),
    /// An option of this long name that takes a number from 0 to 18,446,744,073,709,551,615.
    Number64Option(&'a str),
}

/// A parameter of a subcommand: an argument, which has its place among the words, or an option, which
/// has a name.
#[derive(Clone, Copy)]
struct Parameter<'a> {
    /// The id by which its values are read. Help shows it as the name of a value.
    id: &'a str,
    /// What the words give it.
    form: Form<'a>,
    /// What help says of it.
    help: &'a str,
}

/// A subcommand.
#[derive(Clone, Copy)]
struct Subcommand<'a> {
    /// The word that names it.
    name: &'a str,
    /// What help says that it does.
    about: &'a str,
    /// An example of its words, which its help ends with.
    example: &'a str,
    /// What it takes: its arguments in the order of their places, and its options in that of help.
    parameters: &'a [Parameter<'a>],
}

/// What help says of the program after its commands and options.
const AFTER_HELP: &str = "\
    `scan` and `explain` ask the strict profile first and, where it doesn't accept the font,\n\
    the symbolic one.\n\n\
    Exit status:\n  \
      0  every program is accepted, or the command has done what it was asked for\n  \
      1  a program is refused\n  \
      2  the command can't take the words, or can't read or write a file\n  \
      3  memory ran out, or the steps of --max-steps did\n\n\
    `man hintcheck` tells more.";

/// The subcommands, in the order in which help lists them.
const SUBCOMMANDS: &[Subcommand<'static>] = &[
    SCAN, EXPLAIN, VERDICT, LIST, FIND, CHECK, UPGRADE, BARE,
];

/// The subcommand `scan`.
const SCAN: Subcommand<'static> = Subcommand {
    name: "scan",
    about: "Checks all programs of fonts, and prints a line for each font",
    example: "Example: hintcheck scan *.ttf",
    parameters: &[
        FONTS,
        STRICT,
        SYMBOLIC,
        MAX_STEPS,
        MAX_BYTES,
        FACE,
        FAIL_ON,
        EXPECT,
        WRITE_EXPECT,
        JSON,
        CAUSES,
        NEEDS,
        ALL_NEEDS,
        FILES_FROM,
        FILES_FROM0,
        NAME,
        QUIET_SCAN,
    ],
};

/// The subcommand `explain`.
const EXPLAIN: Subcommand<'static> = Subcommand {
    name: "explain",
    about: "Tells why programs of a font are refused, or how one program is checked",
    example: "Example: hintcheck explain DejaVuSans.ttf g350",
    parameters: &[
        FONT_OR_REASON,
        EXPLAINED_PROGRAM,
        OFFSET,
        STRICT,
        SYMBOLIC,
        MAX_STEPS,
        MAX_BYTES,
        ONE_FACE,
        JSON,
    ],
};

/// The subcommand `verdict`.
const VERDICT: Subcommand<'static> = Subcommand {
    name: "verdict",
    about: "Checks all programs of a font, and prints a line for each refused program",
    example: "Example: hintcheck verdict DejaVuSans.ttf",
    parameters: &[
        FONT,
        SYMBOLIC,
        BOTH,
        MAX_STEPS,
        MAX_BYTES,
        ONE_FACE,
        JSON,
        QUIET_VERDICT,
    ],
};

/// The subcommand `list`.
const LIST: Subcommand<'static> = Subcommand {
    name: "list",
    about: "Lists the instructions of one program",
    example: "Example: hintcheck list DejaVuSans.ttf g350",
    parameters: &[FONT, PROGRAM, NUMBERS, MAX_BYTES, ONE_FACE],
};

/// The subcommand `find`.
const FIND: Subcommand<'static> = Subcommand {
    name: "find",
    about: "Writes the certificate of a font",
    example: "Example: hintcheck find LiberationSans-Regular.ttf font.cert",
    parameters: &[FONT, CERTIFICATE, MAX_STEPS, MAX_BYTES, ONE_FACE],
};

/// The subcommand `check`.
const CHECK: Subcommand<'static> = Subcommand {
    name: "check",
    about: "Checks a font by its certificate",
    example: "Example: hintcheck check LiberationSans-Regular.ttf font.cert",
    parameters: &[FONT, CERTIFICATE, MAX_STEPS, MAX_BYTES, ONE_FACE],
};

/// The subcommand `upgrade`.
const UPGRADE: Subcommand<'static> = Subcommand {
    name: "upgrade",
    about: "Writes an old certificate again, in the newest form",
    example: "Example: hintcheck upgrade old.cert new.cert",
    parameters: &[OLD, NEW, MAX_BYTES],
};

/// The subcommand `bare`.
const BARE: Subcommand<'static> = Subcommand {
    name: "bare",
    about: "Checks one glyph program by itself",
    example: "Example: hintcheck bare \
        0001000000010004000100000000000200040004000200000008004000000000 10 4 1 B100093E",
    parameters: &[
        MAXP,
        CVT,
        POINTS,
        CONTOURS,
        BARE_PROGRAM,
        SYMBOLIC,
        BOTH,
        MAX_STEPS,
    ],
};

/// The fonts of a scan.
const FONTS: Parameter<'static> = Parameter {
    id: "FONT",
    form: Form::Texts,
    help: "The names of the font files",
};

/// A font.
const FONT: Parameter<'static> = Parameter {
    id: "FONT",
    form: Form::Text,
    help: "The name of the font file",
};

/// A font, or a reason to be explained.
const FONT_OR_REASON: Parameter<'static> = Parameter {
    id: "FONT",
    form: Form::Text,
    help: "The name of the font file; or, alone, the number of a reason, as 28",
};

/// A program of a font.
const PROGRAM: Parameter<'static> = Parameter {
    id: "PROGRAM",
    form: Form::Text,
    help: "The program: f, p, g and a number, or a glyph's name",
};

/// A program of a font, where it may be left out.
const EXPLAINED_PROGRAM: Parameter<'static> = Parameter {
    id: "PROGRAM",
    form: Form::OptionalText,
    help: "The program: f, p, g12 or a glyph's name; without it, causes of the font's refusals",
};

/// A place in a program.
const OFFSET: Parameter<'static> = Parameter {
    id: "OFFSET",
    form: Form::OptionalText,
    help: "An offset in it, or, as f:366 or p:12, in a function that it calls;{n}\
        without it, where it is refused",
};

/// A certificate's file.
const CERTIFICATE: Parameter<'static> = Parameter {
    id: "CERT",
    form: Form::Text,
    help: "The name of the certificate's file",
};

/// An old certificate's file.
const OLD: Parameter<'static> = Parameter {
    id: "OLD",
    form: Form::Text,
    help: "The name of the old certificate's file",
};

/// A new certificate's file.
const NEW: Parameter<'static> = Parameter {
    id: "NEW",
    form: Form::Text,
    help: "The name of the new certificate's file",
};

/// The limits of a program that is checked by itself.
const MAXP: Parameter<'static> = Parameter {
    id: "MAXP",
    form: Form::Text,
    help: "The maxp table, in hexadecimal digits",
};

/// How many control values there are.
const CVT: Parameter<'static> = Parameter {
    id: "CVT",
    form: Form::Number,
    help: "How many control values there are",
};

/// How many points there are.
const POINTS: Parameter<'static> = Parameter {
    id: "POINTS",
    form: Form::Number,
    help: "How many points the glyph has",
};

/// How many contours there are.
const CONTOURS: Parameter<'static> = Parameter {
    id: "CONTOURS",
    form: Form::Number,
    help: "How many contours the glyph has",
};

/// A program that is checked by itself.
const BARE_PROGRAM: Parameter<'static> = Parameter {
    id: "PROGRAM",
    form: Form::OptionalText,
    help: "The program, in hexadecimal digits",
};

/// The option `--strict`.
const STRICT: Parameter<'static> = Parameter {
    id: "STRICT",
    form: Form::Flag("strict"),
    help: "Asks the strict profile alone",
};

/// The option `--symbolic`.
const SYMBOLIC: Parameter<'static> = Parameter {
    id: "SYMBOLIC",
    form: Form::Flag("symbolic"),
    help: "Asks the symbolic profile alone, which follows computed values;{n}\
        its acceptances have further premises (see the manual)",
};

/// The option `--both`.
const BOTH: Parameter<'static> = Parameter {
    id: "BOTH",
    form: Form::Flag("both"),
    help: "Asks the strict profile and, where it doesn't accept, the symbolic one",
};

/// The option `--max-steps`.
const MAX_STEPS: Parameter<'static> = Parameter {
    id: "STEPS",
    form: Form::Number64Option("max-steps"),
    help: "How often a state may be carried over an instruction (symbolic){n}\
        or on from a place of a program (strict)",
};

/// The option `--max-bytes`.
const MAX_BYTES: Parameter<'static> = Parameter {
    id: "BYTES",
    form: Form::Number64Option("max-bytes"),
    help: "How many bytes a file may have; 1,073,741,824 where it is left out",
};

/// The option `--face` where all faces are checked without it.
const FACE: Parameter<'static> = Parameter {
    id: "FACE",
    form: Form::Number32Option("face"),
    help: "The number of a collection's face, from 0; without it, all faces",
};

/// The option `--face` where one face is meant.
const ONE_FACE: Parameter<'static> = Parameter {
    id: "FACE",
    form: Form::Number32Option("face"),
    help: "The number of a collection's face, from 0, where it has several",
};

/// The option `--fail-on`.
const FAIL_ON: Parameter<'static> = Parameter {
    id: "CLASS",
    form: Form::TextOption("fail-on"),
    help: "For which refused programs the exit status is 1: `possible` for{n}\
        possible faults alone; without it, for all",
};

/// The option `--expect`.
const EXPECT: Parameter<'static> = Parameter {
    id: "FILE",
    form: Form::TextOption("expect"),
    help: "The name of a file that lists known refusals: only others count",
};

/// The option `--write-expect`.
const WRITE_EXPECT: Parameter<'static> = Parameter {
    id: "NEW",
    form: Form::TextOption("write-expect"),
    help: "The name of a file to which the scan writes the refusals that count",
};

/// The option `--json`.
const JSON: Parameter<'static> = Parameter {
    id: "JSON",
    form: Form::Flag("json"),
    help: "Prints objects of JSON, each in a line, in place of lines for people",
};

/// The option `--causes`.
const CAUSES: Parameter<'static> = Parameter {
    id: "CAUSES",
    form: Form::Flag("causes"),
    help: "Tells the causes of each font's refusals",
};

/// The option `--needs`.
const NEEDS: Parameter<'static> = Parameter {
    id: "NEEDS",
    form: Form::Flag("needs"),
    help: "Tells what fonts need of the numbers for which programs are refused",
};

/// The option `--all-needs`.
const ALL_NEEDS: Parameter<'static> = Parameter {
    id: "ALL_NEEDS",
    form: Form::Flag("all-needs"),
    help: "Tells what fonts need of all seven numbers that bound programs",
};

/// The option `--files-from`.
const FILES_FROM: Parameter<'static> = Parameter {
    id: "LINES",
    form: Form::Flag("files-from"),
    help: "Each FONT is a file that lists names of fonts, each ended by a line feed",
};

/// The option `--files-from0`, or `-0`.
const FILES_FROM0: Parameter<'static> = Parameter {
    id: "NULS",
    form: Form::ShortFlag("files-from0", '0'),
    help: "Each FONT is a file that lists names of fonts, each ended by a NUL",
};

/// The option `--name`.
const NAME: Parameter<'static> = Parameter {
    id: "NAME",
    form: Form::TextOption("name"),
    help: "The name by which the scan of one font tells it",
};

/// The option `--quiet` of `scan`.
const QUIET_SCAN: Parameter<'static> = Parameter {
    id: "QUIET",
    form: Form::Flag("quiet"),
    help: "Prints nothing of a font whose programs are all accepted",
};

/// The option `--quiet` of `verdict`.
const QUIET_VERDICT: Parameter<'static> = Parameter {
    id: "QUIET",
    form: Form::Flag("quiet"),
    help: "Prints the last line alone; with --json it changes nothing",
};

/// The option `--numbers`.
const NUMBERS: Parameter<'static> = Parameter {
    id: "NUMBERS",
    form: Form::Flag("numbers"),
    help: "Lists the numbers that instructions push, after their names",
};

/// Makes the argument or the option that a table tells.
fn argument<'a>(alloc: Global, parameter: Parameter<'a>) -> Arg<'a>
    ensures rule { rule_of result ≡ rule_of_parameter parameter.entry }
    ensures local { result.global ≡ false }
{
    let arg = Arg::new(alloc, parameter.id).help(parameter.help);
    match parameter.form {
        Form::Text => arg.required(true),
        Form::Texts => arg.required(true).num_args(1..),
        Form::Number => arg.required(true).value_parser(value_parser!(u16)),
        Form::OptionalText => arg,
        Form::Flag(name) => arg.long(name).action(ArgAction::SetTrue),
        Form::ShortFlag(name, short) => arg.long(name).short(short).action(ArgAction::SetTrue),
        Form::TextOption(name) => arg.long(name),
        Form::Number32Option(name) => arg.long(name).value_parser(value_parser!(u32)),
        Form::Number64Option(name) => arg.long(name).value_parser(value_parser!(u64)),
    }
}

/// Makes the subcommand that a table tells.
///
/// # Errors
/// If memory runs out.
fn subcommand_of<'a>(alloc: Global, table: Subcommand<'a>) -> Result<Command<'a>, AllocError>
    ensures { IfOk result (λ c. app_of c ≡ app_of_table table.entry) }
{
    let mut command = Command::new(alloc, table.name)
        .about(table.about)
        .after_help(table.example);
    for &parameter in table.parameters {
        command = command.arg(argument(alloc, parameter))?;
    }
    Ok(command)
}

/// Makes the program without its subcommands.
///
/// # Errors
/// If memory runs out.
fn bare_program<'a>(alloc: Global) -> Result<Command<'a>, AllocError>
    ensures { IfOk result (λ c. app_of c ≡ program) }
{
    Command::new(alloc, "hintcheck")
        .about("Checks the hint programs of TrueType fonts")
        .after_help(AFTER_HELP)
        .version(VERSION)
        .subcommand_required(true)
        .bin_name("hintcheck")
}

/// Makes the command line with its eight subcommands.
///
/// # Errors
/// If memory runs out.
pub(super) fn command_line<'a>(alloc: Global) -> Result<Command<'a>, AllocError>
    ensures { IfOk result (λ c. app_of c ≡ hintcheck) }
{
    let mut command = bare_program(alloc)?;
    for &table in SUBCOMMANDS {
        command = command.subcommand(subcommand_of(alloc, table)?)?;
    }
    Ok(command)
}
