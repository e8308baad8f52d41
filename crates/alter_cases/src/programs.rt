//! The programs that lie beside the cases, and texts with repeated words.

use al_calls::File;
use anyhow::Error;
use std::alloc::{AllocError, Global};
use std::fs;
use std::rt::Files;

/// A text in which the first such piece is another.
fn changed(alloc: Global, text: &str, old: &str, new: &str) -> Result<String, AllocError> {
    let (before, behind) = text.split_once(old).unwrap_or((text, ""));
    format!(in alloc; "{before}{new}{behind}")
}

/// The program of this name beside the cases. With `s/OLD/NEW/` behind the name the first such piece of it is changed.
pub fn program<R: Files + Alloc>(rt: &R, alloc: Global, told: &str) -> Result<File, Error> {
    let (name, change) = told.split_once(" s/").unwrap_or((told, ""));
    let (_, place) = name.rsplit_once('/').unwrap_or(("", name));
    let text = fs::read_to_string(rt, place)?;
    match change.split_once('/') {
        Some((old, new)) => {
            let new = new.strip_suffix('/').unwrap_or(new);
            let text = changed(alloc, text.as_str(), old, new)?;
            Ok(File::new(alloc, name, text.as_str())?)
        }
        None => Ok(File::new(alloc, name, text.as_str())?),
    }
}

/// Adds a line in which `N**WORD` stands for so many times the word. A blank follows each word.
pub fn add_repeated(text: &mut String, line: &str) -> Result<(), AllocError> {
    for word in line.split(' ') {
        let (count, word) = word.split_once("**").unwrap_or(("1", word));
        for _ in 0..count.parse::<u32>().unwrap_or(0) {
            text.push_str(word)?;
            text.push(' ')?;
        }
    }
    Ok(())
}
