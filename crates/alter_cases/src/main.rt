//! Calls of `alter` over files and sinks in memory, with what is to come of each, from the files that the words name.
//! Says which calls give something else, and for each file how many there are. The README says how they are written.
#![tactic(auto)]

mod programs;
mod script;

use anyhow::Error;
use script::Script;
use std::{env, fs, str};

fn main(rt: HostRuntime) -> Result<(), Error> {
    for name in env::args(&rt)?.skip(1) {
        let bytes = fs::read(&rt, name.as_str())?;
        let text = str::from_utf8(bytes.as_slice())?;
        let mut script = Script::new(&rt, rt.alloc());
        for line in text.lines() {
            script.take(line)?;
        }
        script.end()?;
        println!(rt; "{name}: {} calls", script.many())?;
    }
    Ok(())
}
