//! Sources with what is said of them, in the file that the first word names: a line `==== ` and what is said, up to
//! ` | ` where a remark follows, and then the source. Says which do not hold, and how many there are.
#![tactic(auto)]

use al_front::resolve;
use al_report::refusal_text;
use anyhow::Error;
use std::alloc::{AllocError, Global};
use std::{env, fs, str};

/// Whether this is said of a source: `ok`, or the text of the cause for which it is refused.
fn holds(alloc: Global, said: &str, source: &str) -> Result<bool, AllocError> {
    match resolve(alloc, source.as_bytes()) {
        Ok(_) => Ok(said == "ok"),
        Err(fault) => match fault.cause() {
            Some(cause) => {
                let text = refusal_text(alloc, "c", cause)?;
                let at_a_line = format!(in alloc; "alter: c:{said}\n")?;
                let of_the_whole = format!(in alloc; "alter: c: {said}\n")?;
                Ok(
                    text.as_slice() == at_a_line.as_bytes()
                        || text.as_slice() == of_the_whole.as_bytes(),
                )
            }
            None => Err(AllocError),
        },
    }
}

fn main(rt: HostRuntime) -> Result<(), Error> {
    let mut many = 0u64;
    for name in env::args(&rt)?.skip(1) {
        let bytes = fs::read(&rt, name)?;
        let text = str::from_utf8(bytes.as_slice())?;
        for case in text.split("==== ").skip(1) {
            let (said, source) = case.split_once('\n').unwrap_or((case, ""));
            let (said, _) = said.split_once(" | ").unwrap_or((said, ""));
            if !holds(rt.alloc(), said, source)? {
                println!(rt; "does not hold: {case}")?;
            }
            many = many.wrapping_add(1);
        }
    }
    println!(rt; "{many} cases")?;
    Ok(())
}
