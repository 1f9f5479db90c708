//! What an instruction takes from the stack and pushes onto it, in words.

ghost use Rattle.tt_stream.specs.Streams.{CountsPrintFailure};

use crate::describing::Numbers;
use crate::exchange::is_of_one;
use crate::scene::Scene;
use std::fmt;
use tt_code::entry;
use tt_code::kinds::{Control, Effect, Operand, StackOp};
use tt_stream::{PrintFailed, Sink};

/// Returns an operand in words.
fn operand_text(operand: Operand) -> &'static str {
    match operand {
        Operand::Number => "a number",
        Operand::Point(_) => "a point",
        Operand::Cvt => "the index of a control value",
        Operand::Storage => "the index of a storage cell",
        Operand::Zone => "a zone",
        Operand::Contour => "a contour",
        Operand::LoopPoints(_) => "as many points as the loop number says",
        Operand::PointPairs(_) => "a count, and that many pairs of a point and a number",
        Operand::CvtPairs => "a count, and that many pairs of a control value's index and a number",
    }
}

/// Returns what a stack instruction takes, in words.
fn stack_text(operation: StackOp) -> &'static str {
    match operation {
        StackOp::Dup | StackOp::Pop => "a number",
        StackOp::Clear => "all numbers",
        StackOp::Swap => "two numbers",
        StackOp::Depth => "nothing",
        StackOp::CopyIndexed | StackOp::MoveIndexed => "an index, which counts numbers from 1 on",
        StackOp::Roll => "three numbers",
    }
}

/// Returns what a control instruction takes, in words.
fn control_text(operation: Control) -> &'static str {
    match operation {
        Control::If => "a condition",
        Control::Jump => "a distance in bytes",
        Control::JumpIfTrue | Control::JumpIfFalse => "a condition, a distance in bytes",
        Control::Call | Control::FunctionDefinition => "a function's number",
        Control::LoopCall => "a function's number, how often to call it",
        Control::Else | Control::EndFunction | Control::InstructionDefinition => "nothing",
    }
}

/// Returns what an instruction takes whose operands aren't listed, in words.
fn taken_text(effect: &Effect) -> &'static str {
    match effect {
        Effect::NoEntry | Effect::Push(_) | Effect::Plain(_) => "nothing",
        Effect::Stack(operation) => stack_text(*operation),
        Effect::Arithmetic(operation) if is_of_one(*operation) => "a number",
        Effect::Arithmetic(_) => "two numbers",
        Effect::Control(operation) => control_text(*operation),
    }
}

/// Writes operands, the top first.
fn write_operands<W: fmt::Write>(operands: &[Operand], f: &mut fmt::Formatter<W>) -> fmt::Result {
    if operands.is_empty() {
        return f.write_str("nothing");
    }
    let mut comma = "";
    for operand in operands {
        write!(f, "{comma}{}", operand_text(*operand))?;
        comma = ", ";
    }
    Ok(())
}

/// What the instruction with this code takes and pushes.
#[derive(Clone, Copy)]
struct EffectText<'a>(Scene<'a>, u8);

impl fmt::Display for EffectText<'_> {
    fn fmt<W: fmt::Write>(&self, f: &mut fmt::Formatter<W>) -> fmt::Result {
        let EffectText(scene, code) = *self;
        let name = scene.name();
        write!(f, "{name} takes, the top of the stack first: ")?;
        match entry(code) {
            Effect::Plain(row) => write_operands(row.operands, f)?,
            effect => f.write_str(taken_text(effect))?,
        }
        write!(f, "; it pushes {}.", Numbers(scene.exchange.pushes))
    }
}

/// Prints what the instruction at a place takes and pushes, if one is there.
///
/// # Errors
/// `Write` exactly where a write failed.
pub(crate) fn tell_effect<O: Sink>(scene: Scene<'_>, out: &mut O) -> Result<(), PrintFailed>
    ensures failures { CountsPrintFailure result (O.failures out.old) (O.failures out.new) }
{
    if let Some(code) = scene.code {
        let effect = EffectText(scene, code);
        writeln!(out, "What is there: {effect}")?;
    }
    Ok(())
}
