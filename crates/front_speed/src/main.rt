//! Lexes and parses a source, to see how long that takes.
#![tactic(auto)]

use al_lexer::lex;
use al_parser::first_bad;
use anyhow::Error;
use std::{env, fs};

/// Reads the file that the first word names, and says `parsed` where it is a program, or else at which token, from 0,
/// it goes wrong.
fn main(rt: HostRuntime) -> Result<(), Error> {
    for name in env::args(&rt)?.skip(1) {
        let source = fs::read(&rt, name)?;
        let tokens = lex(rt.alloc(), source.as_slice())?;
        match first_bad(rt.alloc(), tokens.as_slice())? {
            Some(place) => println!(rt; "bad token {place}")?,
            None => println!(rt; "parsed")?,
        }
    }
    Ok(())
}
