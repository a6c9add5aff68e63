// Reads a ticket and prints its report: see the crate `command_line`.
#![tactic(auto)]

use std::process::ExitCode;

fn main(rt: HostRuntime) -> anyhow::Result<ExitCode> {
    command_line::explain(&rt)
}
