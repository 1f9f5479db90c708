//! What an instruction takes from cells, computes of cells, and makes of a stack of cells: nothing
//! here knows a whole state.
#![tactic(auto)]

mod answer;
mod data;
mod exact;
mod failures;
mod operands;
mod results;
mod stack_moves;
mod zones;

pub use answer::Answer;
pub use data::push_data;
pub use exact::{Exact, answer_of_one, answer_of_two};
pub use failures::{Named, UNDECIDED, failed_index, too_deep, too_few, unknown, unknown_index};
pub use operands::{is_index, take_operands, test_uses};
pub use results::{result_of_one, result_of_two, takes_one, truth_of};
pub use stack_moves::{cell_under, shuffle};
pub use zones::{reference, set_pointer, set_reference};
