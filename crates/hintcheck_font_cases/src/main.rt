//! Runs the cases on programs, fonts and certificates in the files that its words name.
#![tactic(auto)]

mod calls;
mod faults;
mod kinds;
mod needs;
mod sessions;
mod sweeps;

use crate::kinds::FontKinds;
use std::process::ExitCode;
use tt_cases::running::run_files;

fn main(rt: HostRuntime) -> anyhow::Result<ExitCode> {
    run_files(&FontKinds, &rt)
}
