//! The point to which a way leads.

ghost use Rattle.std.specs.Prelude.{◌≡◌, ◌<◌, IfErr, IfOk, OnErr, length};
ghost use Rattle.tt_family.specs.Contents.{AddsContext, IsFamily, IsFullWithout};
ghost use Rattle.tt_family.specs.Landings.{place_from};
ghost use Rattle.tt_find.specs.Representation.Solvers.{IsCountable};

use tt_abs::Move;
use tt_family::{Builder, Landing, PointKey, landing_of};
use tt_setting::StepFault;
use tt_setting::setting::body_offset;

/// Returns the context's number and the offset to which a way leads from a context. The context to
/// which it leads is added if it isn't there.
///
/// # Errors
/// As `Builder::add_context`.
pub(crate) fn resolve_successor(
    builder: &mut Builder,
    context: u32,
    way: Move,
) -> Result<PointKey, StepFault>
    requires there { context < length builder.old.contexts }
    requires countable { IsCountable builder.old.contexts context }
    ensures added { IfOk result (λ at. AddsContext builder.old.contexts builder.new.contexts
        (place_from builder.old.contexts context way).0 at.0) }
    ensures offset { IfOk result (λ at. at.1 ≡ (place_from builder.old.contexts context way).1) }
    ensures states { builder.new.states ≡ builder.old.states }
    ensures full { IfErr result (IsFullWithout builder.old.contexts
        (place_from builder.old.contexts context way).0) }
    ensures kept { OnErr result (builder.new ≡ builder.old) }
    ensures family { IsFamily builder.new }
{
    builder.family_facts();
    match landing_of(builder, context, way) {
        Landing::In { context, offset } => Ok((context, offset)),
        Landing::Body { parent, frame } => {
            let number = builder.add_context(parent, frame)?;
            Ok((number, body_offset(frame.body)))
        }
        Landing::Beyond { .. } => unreachable!(),
    }
}
