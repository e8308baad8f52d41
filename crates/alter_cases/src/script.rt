//! Reads cases line by line, and makes their calls.

use crate::programs::{add_repeated, program};
use al_calls::{Asked, File, add_line, gives};
use al_cli::FreeGate;
use anyhow::Error;
use std::alloc::{AllocError, Global};
use std::mem;
use std::rt::Files;
use std::thread::Threads;

/// Where a file is cut off.
#[derive(Clone, Copy, PartialEq, Eq)]
enum Behind {
    Byte,
    Word,
}

/// The case that is read: its title, its files, and the calls that have not been made.
#[derive(Drop)]
pub struct Script<'a, R> {
    rt: &'a R,
    alloc: Global,
    title: String,
    files: Vec<File>,
    calls: Vec<String>,
    asked: Asked,
    /// Whether it was said what is to come of the calls.
    is_answered: bool,
    cut: Option<Behind>,
    lines: u64,
    many: u64,
}

/// The text with each alternative of its first braces, as `{run,plain}`, or as it is.
fn alternatives(alloc: Global, text: &str) -> Result<Vec<String>, AllocError> {
    let mut all = Vec::new(alloc);
    let (before, rest) = text.split_once('{').unwrap_or((text, "}"));
    let (inner, behind) = rest.split_once('}').unwrap_or((rest, ""));
    for one in inner.split(',') {
        all.push(format!(in alloc; "{before}{one}{behind}")?)?;
    }
    Ok(all)
}

/// The first number of a text.
fn number_in(text: &str) -> Option<u32> {
    text.split(' ').find_map(|word| word.parse().ok())
}

impl<'a, R: Files + Alloc + Print + Threads + Sync> Script<'a, R> {
    pub fn new(rt: &'a R, alloc: Global) -> Script<'a, R> {
        Script {
            rt,
            alloc,
            title: String::new(alloc),
            files: Vec::new(alloc),
            calls: Vec::new(alloc),
            asked: Asked::new(alloc),
            is_answered: false,
            cut: None,
            lines: 0,
            many: 0,
        }
    }

    /// How many calls were made.
    pub fn many(&self) -> u64 {
        self.many
    }

    /// Reads a line, and says so where it is none.
    pub fn take(&mut self, line: &str) -> Result<(), Error> {
        self.lines = self.lines.saturating_add(1);
        let (mark, rest) = line.split_once(' ').unwrap_or((line, ""));
        let is_known = match mark {
            "" | "#" => true,
            "====" => self.begin(rest)?,
            "program" => self.add_file(program(self.rt, self.alloc, rest)?)?,
            "file" => self.add_file(File::new(self.alloc, rest, "")?)?,
            "|" | "*" => self.add_text(mark, rest)?,
            "$" => self.add_calls(rest)?,
            _ => self.answer(mark, rest)?,
        };
        if !is_known {
            println!(self.rt; "{}: no such line: {line}", self.lines)?;
        }
        Ok(())
    }

    /// Begins a case.
    fn begin(&mut self, title: &str) -> Result<bool, Error> {
        self.end()?;
        self.title = String::from_str(self.alloc, title)?;
        self.files = Vec::new(self.alloc);
        Ok(true)
    }

    fn add_file(&mut self, file: File) -> Result<bool, AllocError> {
        self.files.push(file)?;
        Ok(true)
    }

    /// Adds a line to the last file, where there is one.
    fn add_text(&mut self, mark: &str, line: &str) -> Result<bool, AllocError> {
        let Some(file) = self.files.last_mut() else {
            return Ok(false);
        };
        if mark == "|" {
            add_line(&mut file.text, line)?;
        } else {
            add_repeated(&mut file.text, line)?;
        }
        Ok(true)
    }

    /// Adds the calls of a line in which up to two words may have alternatives.
    fn add_calls(&mut self, line: &str) -> Result<bool, Error> {
        if self.is_answered {
            self.end()?;
        }
        for line in alternatives(self.alloc, line)? {
            for words in alternatives(self.alloc, line.as_str())? {
                self.calls.push(words)?;
            }
        }
        Ok(true)
    }

    /// Takes what is said of the calls. Tells whether it is something that can be said.
    fn answer(&mut self, mark: &str, rest: &str) -> Result<bool, AllocError> {
        self.is_answered = true;
        let number = number_in(rest);
        match (mark, number) {
            (">", _) => self.asked.out.add(rest)?,
            ("!", _) => self.asked.err.add(rest)?,
            ("=", Some(number)) => self.asked.status = u8::try_from(number).unwrap_or(255),
            ("read", Some(number)) => self.asked.fails.push(number)?,
            ("reads", Some(number)) => self.asked.reads = Some(u64::from(number)),
            ("out", Some(number)) => self.asked.out.taken = Some(number),
            ("err", Some(number)) => self.asked.err.taken = Some(number),
            ("cut", _) if rest.ends_with("byte") => self.cut = Some(Behind::Byte),
            ("cut", _) => self.cut = Some(Behind::Word),
            _ => return Ok(false),
        }
        Ok(true)
    }

    /// Makes the calls that stand there.
    pub fn end(&mut self) -> Result<(), Error> {
        match self.cut {
            None => self.make()?,
            Some(behind) => self.cut_off(behind)?,
        }
        self.calls = Vec::new(self.alloc);
        self.asked = Asked::new(self.alloc);
        self.is_answered = false;
        self.cut = None;
        Ok(())
    }

    /// Makes the calls over each beginning of the last file but the whole of it. `LINE` stands for the line of the last
    /// token.
    fn cut_off(&mut self, behind: Behind) -> Result<(), Error> {
        let Some(file) = self.files.pop() else {
            return Ok(());
        };
        let text = file.text.as_str().trim_end();
        let (mut line, mut last, mut before) = (1u32, 1, ' ');
        for (at, letter) in text.char_indices() {
            let begun = text.get(..at).unwrap_or("");
            let is_word = letter.is_whitespace() && !before.is_whitespace();
            // a `#pragma` with nothing behind it is skipped
            if is_word && !begun.ends_with("#pragma") {
                last = line;
            }
            if is_word || behind == Behind::Byte {
                self.files
                    .push(File::new(self.alloc, file.name.as_str(), begun)?)?;
                let err = self.asked.err.at_line(self.alloc, last)?;
                let told = mem::replace(&mut self.asked.err, err);
                self.make()?;
                self.asked.err = told;
                self.files.pop();
            }
            line = line.saturating_add(u32::from(letter == '\n'));
            before = letter;
        }
        Ok(())
    }

    /// Makes the calls, and says which give something else than they are to.
    fn make(&mut self) -> Result<(), Error> {
        for words in &self.calls {
            let holds = gives(
                self.rt,
                self.alloc,
                words.as_str(),
                self.files.as_slice(),
                &self.asked,
                &FreeGate,
            )?;
            if !holds {
                println!(self.rt;
                    "above {}: {}: does not hold: {words}",
                    self.lines, self.title
                )?;
            }
            self.many = self.many.saturating_add(1);
        }
        Ok(())
    }
}
