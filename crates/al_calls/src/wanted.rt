//! What is wanted of a stream.

use std::alloc::{AllocError, Global};

/// Adds a line to a text: without its line feed where `\` stands at its end.
pub fn add_line(text: &mut String, line: &str) -> Result<(), AllocError> {
    match line.strip_suffix('\\') {
        Some(begun) => text.push_str(begun),
        None => {
            text.push_str(line)?;
            text.push('\n')
        }
    }
}

/// The bytes that a stream is to get, and how many of them it takes where it is cut short.
#[derive(Drop)]
pub struct Wanted {
    text: String,
    /// Whether anything may stand before the text, and behind it.
    before: bool,
    behind: bool,
    pub taken: Option<u32>,
}

impl Wanted {
    /// Nothing.
    pub fn new(alloc: Global) -> Wanted {
        Wanted {
            text: String::new(alloc),
            before: false,
            behind: false,
            taken: None,
        }
    }

    /// One line more; `..` stands for any lines before the first or behind the last.
    pub fn add(&mut self, line: &str) -> Result<(), AllocError> {
        if line != ".." {
            return add_line(&mut self.text, line);
        }
        if self.text.is_empty() {
            self.before = true;
        } else {
            self.behind = true;
        }
        Ok(())
    }

    /// Whether the bytes that came in so many puts are those. There is one put where there is something to put.
    pub fn are(&self, bytes: &[u8], puts: u64) -> bool {
        let text = self.text.as_bytes();
        let same = match (self.before, self.behind) {
            (false, false) => bytes == text,
            (false, true) => bytes.starts_with(text),
            _ => bytes.ends_with(text),
        };
        same && puts == u64::from(!bytes.is_empty() || self.taken.is_some())
    }

    /// The same with this number in place of the first `LINE`.
    pub fn at_line(&self, alloc: Global, line: u32) -> Result<Wanted, AllocError> {
        let text = self.text.as_str();
        let text = match text.split_once("LINE") {
            Some((before, behind)) => format!(in alloc; "{before}{line}{behind}")?,
            None => String::from_str(alloc, text)?,
        };
        Ok(Wanted {
            text,
            before: self.before,
            behind: self.behind,
            taken: self.taken,
        })
    }
}
