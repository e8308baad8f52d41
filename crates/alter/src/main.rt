//! The program `alter`.
#![tactic(auto)]

use al_cli::{FreeGate, program, words};
use al_io::{HostErr, HostFiles, HostOut};
use std::process::ExitCode;

fn main(rt: HostRuntime) -> ExitCode {
    let (mut out, mut err) = (HostOut::new(rt.stdout()), HostErr::new(rt.stderr()));
    ExitCode::from(program(
        &rt,
        rt.alloc(),
        &words(&rt),
        &mut HostFiles::new(&rt),
        &mut out,
        &mut err,
        &FreeGate,
    ))
}
