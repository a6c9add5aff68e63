// The program as the gate runs it on a file that the command line names.
#![tactic(auto)]

use std::process::ExitCode;

fn main(rt: HostRuntime) -> anyhow::Result<ExitCode> {
    command_line::explain(&rt)
}
