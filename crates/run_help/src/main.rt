// The program as the gate asks it for help. Its name is that of the file that is run.
#![tactic(auto)]

use std::process::ExitCode;

fn main(rt: HostRuntime) -> anyhow::Result<ExitCode> {
    command_line::explain(&rt)
}
