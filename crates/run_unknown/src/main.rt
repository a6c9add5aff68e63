// The program as the gate runs it with an option that there is not.
#![tactic(auto)]

use std::process::ExitCode;

fn main(rt: HostRuntime) -> anyhow::Result<ExitCode> {
    command_line::explain(&rt)
}
