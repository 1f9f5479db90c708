//! The landing of a way: the context and the offset to which it leads from a context.

ghost use Rattle.std.specs.Prelude.{◌≡◌, ◌<◌, IfErr, IfOk, None, length};
ghost use Rattle.tt_setting.specs.Refusals.{IsOfNoBudget};
ghost use Rattle.tt_family.specs.Checks.{FitOffsetsBefore, HasNextTurn};
ghost use Rattle.tt_family.specs.Contents.{frames_at};
ghost use Rattle.tt_family.specs.Landings.{IsLanding, IsMissing, IsPointOf, IsTurnCountable, place_from};

use crate::builder::Builder;
use crate::certificate::Certificate;
use crate::slot_index::PointKey;
use tt_abs::Move;
use tt_code::{Frame, Reason};
use tt_setting::setting::body_offset;
use tt_setting::{Failed, Refusal, Spot};

/// The landing of a way: the context and the offset to which it leads from a context.
#[derive(Clone, Copy)]
pub enum Landing {
    /// At an offset of the context of this number.
    In { context: u32, offset: u32 },
    /// At the start of a function's body, in the context that has one call more than the one of
    /// this number.
    Body { parent: u32, frame: Frame },
    /// After a call at the greatest offset of 32 bits, in the context of this number: no program is
    /// that long.
    Beyond { context: u32 },
}

/// Returns where a way leads from a context, for the check and the finder: the check looks up the
/// context in which a body starts, and the finder adds it.
pub fn landing_of(builder: &Builder, context: u32, way: Move) -> Landing
    requires there { context < length builder.now.contexts }
    requires turn { way ≡ Move.NextTurn → IsTurnCountable (frames_at builder.now.contexts context) }
    ensures { IsLanding builder.now.contexts context
        (place_from builder.now.contexts context way) result }
{
    builder.family_facts();
    match way {
        Move::To(offset) => Landing::In { context, offset },
        Move::Enter(frame) => Landing::Body {
            parent: context,
            frame,
        },
        Move::NextTurn => match builder.context(context) {
            Some((parent, frame)) => {
                let turn = frame.turn + 1;
                let frame = Frame { turn, ..frame };
                Landing::Body { parent, frame }
            }
            None => Landing::In {
                context: 0,
                offset: 0,
            },
        },
        Move::Return => match builder.context(context) {
            Some((parent, frame)) => match frame.call.checked_add(1) {
                Some(offset) => Landing::In {
                    context: parent,
                    offset,
                },
                None => Landing::Beyond { context: parent },
            },
            None => Landing::In {
                context: 0,
                offset: 0,
            },
        },
    }
}

/// Returns the fault that names a place where the certificate has no state.
fn missing(spot: Spot, offset: u32) -> Refusal
    ensures { result ≡ Refusal.Refused spot offset (Failed.Only Reason.MissingPoint) }
{
    Refusal::Refused {
        spot,
        offset,
        failed: Failed::Only(Reason::MissingPoint),
    }
}

/// Returns the number of the context, and the offset, to which a way leads from a context.
///
/// # Errors
/// `MissingPoint` where the certificate can't have a state: it lacks the context, or the offset has
/// more than 32 bits.
pub(crate) fn look_up_successor(
    certificate: &Certificate,
    context: u32,
    way: Move,
) -> Result<PointKey, Refusal>
    requires there { context < length certificate.now.contexts }
    requires fit { FitOffsetsBefore certificate.now context }
    requires turn { way ≡ Move.NextTurn → HasNextTurn (frames_at certificate.now.contexts context) }
    ensures point { IfOk result
        (IsPointOf certificate.now.contexts (place_from certificate.now.contexts context way)) }
    ensures missing { IfErr result
        (IsMissing certificate.now (place_from certificate.now.contexts context way)) }
    ensures within { IfErr result IsOfNoBudget }
{
    certificate.order_facts();
    let builder = certificate.builder();
    match landing_of(builder, context, way) {
        Landing::In { context, offset } => Ok((context, offset)),
        Landing::Body { parent, frame } => {
            let offset = body_offset(frame.body);
            match builder.number(parent, frame) {
                Some(number) => Ok((number, offset)),
                None => Err(missing(Spot::of_body(frame.body), offset)),
            }
        }
        Landing::Beyond { context } => Err(missing(builder.spot(context), u32::MAX)),
    }
}
