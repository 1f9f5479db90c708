//! Runs the cases on the command and its words in the files that its own words name.
#![tactic(auto)]

mod commands;
mod kinds;
mod tasks;

use crate::kinds::CommandKinds;
use std::process::ExitCode;
use tt_cases::running::run_files;

fn main(rt: HostRuntime) -> anyhow::Result<ExitCode> {
    run_files(&CommandKinds, &rt)
}
