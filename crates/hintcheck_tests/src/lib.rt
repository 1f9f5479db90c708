//! Tests of the command, whose steps matter: outputs that can't be written, files with two names,
//! and growths of memory that are refused. What it prints otherwise is in the cases of
//! `hintcheck_cases`, and the memory of the calls below it in `tt_memory_tests`.
#![tactic(auto)]

#[cfg(test)]
mod failing_outputs;
#[cfg(test)]
mod outputs;
#[cfg(test)]
mod refused_memory;
#[cfg(test)]
mod two_names;
