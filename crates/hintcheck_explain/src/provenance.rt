//! Where a number was kept before an instruction.

use crate::element::Element;
use crate::exchange::{count_of, exchange_of, is_of_one};
use crate::view::View;
use tt_code::kinds::{Arithmetic, Effect, NewNumber, Pushed, Row, StackOp, Update};
use tt_code::{Instr, entry};
use tt_setting::Register;

/// Returns the storage cell whose index is the number under this many others.
fn stored_under(before: View<'_>, taken: usize) -> Option<Element> {
    let index = u16::try_from(before.number_under(taken)?).ok()?;
    Some(Element::Storage(index))
}

/// Returns where a number was kept that is under this many others after a stack instruction.
fn kept_of_shuffled(
    before: View<'_>,
    operation: StackOp,
    taken: usize,
    place: usize,
) -> Option<Element> {
    // What CINDEX and MINDEX take from the top.
    let index = count_of(before.number_under(0), 0);
    let under = match (operation, taken) {
        (StackOp::Dup, 0) | (StackOp::Swap, 1) | (StackOp::Roll, 1) => 0,
        (StackOp::Swap, 0) | (StackOp::Roll, 2) => 1,
        (StackOp::Roll, 0) => 2,
        (StackOp::CopyIndexed, 0) | (StackOp::MoveIndexed, 0) => index,
        (StackOp::MoveIndexed, above) if above < index => above,
        (StackOp::Depth, 0) => return None,
        _ => return Some(Element::Stack(place)),
    };
    Element::under(before.depth(), under)
}

/// Returns where an operand of an arithmetic instruction was kept that isn't known: the top of the
/// stack, or the other operand, where there are two and the top is known.
fn kept_of_result(before: View<'_>, operation: Arithmetic) -> Option<Element> {
    let is_second = !is_of_one(operation) && before.number_under(0).is_some();
    Element::under(before.depth(), usize::from(is_second))
}

/// Returns where the number was kept that a plain line pushes at this index.
fn kept_of_pushed(before: View<'_>, row: &Row, index: usize) -> Option<Element> {
    match row.pushes.get(index)? {
        Pushed::Stored(position) => stored_under(before, usize::from(*position)),
        _ => None,
    }
}

/// Returns where a number on the stack, above this many others, was kept.
fn kept_of_stack(before: View<'_>, instr: &Instr<'_>, place: usize) -> Option<Element> {
    let exchange = exchange_of(before, instr);
    let left = before.depth().saturating_sub(exchange.takes);
    let effect = entry(instr.code());
    if let Effect::Stack(operation) = effect {
        let depth_after = left.saturating_add(exchange.pushes);
        let taken = depth_after.saturating_sub(place).saturating_sub(1);
        return kept_of_shuffled(before, *operation, taken, place);
    }
    if place < left {
        return Some(Element::Stack(place));
    }
    match effect {
        Effect::Plain(row) => kept_of_pushed(before, row, place.saturating_sub(left)),
        Effect::Arithmetic(operation) => kept_of_result(before, *operation),
        _ => None,
    }
}

/// Returns which number a change sets, if it is one that isn't on the stack.
fn number_set(before: View<'_>, update: Update) -> Option<Element> {
    match update {
        Update::SetReference(reference, _) => Some(Element::Register(Register::of(reference))),
        Update::SetLoop(_) | Update::LoopIsOne => Some(Element::Register(Register::Loop)),
        Update::Store(at, _) => stored_under(before, usize::from(at)),
        _ => None,
    }
}

/// Returns where the number was kept that a change sets.
fn kept_of_set(before: View<'_>, update: Update) -> Option<Element> {
    match update {
        Update::SetReference(_, NewNumber::Same(other)) => {
            Some(Element::Register(Register::of(other)))
        }
        Update::SetReference(_, NewNumber::Taken(position))
        | Update::SetLoop(position)
        | Update::Store(_, position) => Element::under(before.depth(), usize::from(position)),
        _ => None,
    }
}

/// Returns where a number was kept before an instruction that is kept here after it, or one of which
/// it is computed: nowhere, if the instruction makes it.
pub(crate) fn kept_before(
    before: View<'_>,
    instr: &Instr<'_>,
    element: Element,
) -> Option<Element> {
    if let Element::Stack(place) = element {
        return kept_of_stack(before, instr, place);
    }
    let mut kept = Some(element);
    if let Effect::Plain(row) = entry(instr.code()) {
        for update in row.updates {
            if number_set(before, *update) == Some(element) {
                kept = kept_of_set(before, *update);
            }
        }
    }
    kept
}
