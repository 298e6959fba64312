//! The program `arcs`: a script over windows, from standard input to standard output.
#![tactic(auto)]

use arc_script::io::Counted;
use arc_script::program;
use arc_script::program::OfSystem;
use std::process::ExitCode;

fn main(rt: HostRuntime) -> ExitCode {
    let mut reader = Counted::new(rt.stdin());
    let mut writer = Counted::new(rt.stdout());
    let mut faults = Counted::new(rt.stderr());
    let given = OfSystem { env: &rt };
    ExitCode::from(program::start(
        &rt,
        rt.alloc(),
        &given,
        &mut reader,
        &mut writer,
        &mut faults,
    ))
}
