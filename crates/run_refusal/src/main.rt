// The program as the gate runs it on a ticket that is refused, from standard input.
#![tactic(auto)]

use std::process::ExitCode;

fn main(rt: HostRuntime) -> anyhow::Result<ExitCode> {
    command_line::explain(&rt)
}
