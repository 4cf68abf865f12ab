//! The program `peritext`.
#![tactic(auto)]

mod asking;
mod error_way;
mod greeting;
mod held;
mod importing;
mod looking;
mod origins;
mod refusing;
mod serving;
mod sockets;
mod standard;
mod telling;

use std::process::ExitCode;

fn main(rt: HostRuntime) -> ExitCode {
    let (mut output, mut faults) = (rt.stdout(), rt.stderr());
    greeting::greet(&rt, &rt.stdin(), &mut faults);
    ExitCode::from(standard::run(&rt, &mut output, &mut faults))
}
