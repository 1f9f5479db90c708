//! Laws of orders, of the flow of abstract states, and of runs. The functions here do nothing:
//! their contracts are the laws.

ghost use Rattle.tt_abs.specs.Cells.{Covers, CoversStack, CoversState, CoversStorage, CoversZone};
ghost use Rattle.tt_setting.specs.Functions.{CoversFunctions};
ghost use Rattle.tt_abs.specs.CellOrders.{cell_order, zone_order};
ghost use Rattle.tt_abs.specs.Coverage.{IsCoverage};
ghost use Rattle.tt_abs.specs.StorageCells.{storage_of};
ghost use Rattle.tt_abs.specs.Goodness.{GoodFamiliesAreSafe, IsGoodByMachines, IsRefusedExactly, OutcomeStandsForMachines};
ghost use Rattle.tt_abs.specs.Stacks.{stack_order};
ghost use Rattle.tt_abs.specs.StateFlow.{HasFlowLaws};
ghost use Rattle.tt_abs.specs.States.{abstract_of, function_order, state_order, storage_order};

/// States that one value is below another exactly if the other covers all that the one covers.
pub fn below_is_coverage()
    ensures of_cells { IsCoverage cell_order Covers }
    ensures of_zones { IsCoverage zone_order CoversZone }
    ensures of_stacks { IsCoverage stack_order CoversStack }
    ensures of_functions { IsCoverage function_order CoversFunctions }
    ensures of_storage { IsCoverage storage_order
        (λ cells area. CoversStorage (storage_of cells) area) }
    ensures of_states { IsCoverage state_order
        (λ state machine. CoversState (abstract_of state) machine) }
{}

/// States that what a transfer refuses and gives, state by state, is a monotone flow of finite
/// height. That is so for each font's limits and programs, and for each list of functions in
/// ascending order of their numbers that is within the limits.
pub fn flow_laws()
    ensures { HasFlowLaws }
{}

/// States that a good family is safe. A family of abstract states, at most one at each place, is
/// good if it covers a program's start and what each of its states gives, and none of them is
/// refused. Then it covers every machine that a run from the start comes to, and none of these
/// faults.
pub fn good_families_are_safe()
    ensures { GoodFamiliesAreSafe }
{}

/// States that what an abstract state becomes at a place, computed on its cells, is what the
/// machines that it covers become there, for every instruction, where no two open calls of the
/// place are of one body. The state is refused exactly where one of these machines faults or comes
/// to have two open calls of one body, or where they come to more lists of calls than a program may
/// have. Otherwise it gives one state for each place to which they come: the smallest that covers
/// those there.
pub fn outcome_on_cells_is_exact()
    ensures stands { OutcomeStandsForMachines }
    ensures refused { IsRefusedExactly }
{}

/// States that a family of abstract states is good exactly if it covers every machine that starts,
/// no machine that it covers faults, and it covers each successor of one that it covers. That is so
/// of each family with states in at most 65,535 contexts, where each call is in one of its turns
/// and no context has two calls of one body.
pub fn good_families_cover_steps()
    ensures { IsGoodByMachines }
{}
