//! Explains in words why a program is refused, and what is known at a place of a program: by the strict
//! profile (`explain`) or by the symbolic one (`explain_symbolic`).
#![tactic(auto)]

mod accepted;
mod arrivals;
mod asked;
mod cause;
mod certainty;
mod describing;
mod details;
mod effect_text;
mod element;
mod excerpt;
mod exchange;
mod explaining;
mod explored_program;
mod instruction_text;
mod knowledge;
mod legend;
mod makers;
mod making;
mod meaning;
mod needs;
mod origin;
mod origin_text;
mod provenance;
mod reached;
mod reason_text;
mod refusal;
mod route;
mod scene;
mod stepping;
mod symbolic;
mod unread;
mod view;

pub use asked::{Asked, Explained};
pub use details::{Details, OpenedCall, Operand};
pub use explaining::explain;
pub use reason_text::explain_reason;
pub use symbolic::explain_symbolic;
pub use tt_symbolic_check::Site;
pub use unread::explain_unread;
