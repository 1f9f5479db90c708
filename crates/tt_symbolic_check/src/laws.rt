//! Laws of the machine with control values. The functions here do nothing: their contracts are the
//! laws.

ghost use Rattle.tt_symbolic_check.specs.Laws.{RunsAreRuns, StartsAreStarts, StrictSafetySuffices};

/// States that each run of the machine with control values is a run of the hint machine.
pub fn runs_are_runs()
    ensures { RunsAreRuns }
{}

/// States that each machine with which a program starts here is one with which it starts there,
/// with the known functions.
pub fn starts_are_starts()
    ensures { StartsAreStarts }
{}

/// States that a program of which no run of the hint machine faults is safe here too.
pub fn strict_safety_suffices()
    ensures { StrictSafetySuffices }
{}
