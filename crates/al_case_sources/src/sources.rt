//! Sources with what is said of them, as data files have them, and their code.
ghost use Rattle.std.specs.Prelude.{IfSome, IfOk};
ghost use Rattle.al_code.specs.Valid.{IsValid};

use al_code::Code;
use al_core::{LoopInfo, Typed};
use al_front::{FrontFault, resolve};
use al_lower::{LowerFault, lower};
use sqlite_items::Items;
use std::alloc::{AllocError, Global};

/// A program's tree, its annotated loops and its code.
#[derive(Drop)]
pub struct Source {
    pub typed: Typed,
    pub infos: Items<LoopInfo>,
    pub code: Code,
}

/// A source with its input and the budgets of an iteration and of all other code.
#[derive(Clone, Copy)]
pub struct Trial<'a> {
    pub source: &'a Source,
    pub input: &'a [i64],
    pub iter_steps: u64,
    pub serial_steps: u64,
}

/// What the first line of a case says, and its source.
#[derive(Clone, Copy)]
pub struct Said<'a> {
    pub name: &'a str,
    /// The layers that run it.
    pub layers: &'a str,
    pub input: &'a str,
    /// The budgets of an iteration and of all other code, or nothing.
    pub budgets: &'a str,
    /// How a run or a round is to end, or nothing.
    pub wanted: &'a str,
    pub source: &'a str,
}

/// The first field of a line, and the others.
fn field(line: &str) -> (&str, &str) {
    line.split_once(" | ").unwrap_or((line, ""))
}

/// What is said of a case, and its source.
pub fn read_case(case: &str) -> Said<'_> {
    let (line, source) = case.split_once('\n').unwrap_or((case, ""));
    let (name, line) = field(line);
    let (layers, line) = field(line);
    let (input, line) = field(line);
    let (budgets, wanted) = field(line);
    Said {
        name,
        layers,
        input,
        budgets,
        wanted,
        source,
    }
}

/// The numbers of a text.
pub fn numbers(alloc: Global, text: &str) -> Result<Vec<i64>, AllocError> {
    let mut all = Vec::new(alloc);
    for word in text.split(' ') {
        if let Ok(n) = word.parse::<i64>() {
            all.push(n)?;
        }
    }
    Ok(all)
}

/// Adds a line, or where it begins with `#times N `, what follows so many times.
fn push_line(text: &mut String, line: &str) -> Result<(), AllocError> {
    if let Some(rest) = line.strip_prefix("#times ") {
        let (many, part) = rest.split_once(' ').unwrap_or(("0", ""));
        for _ in 0..many.parse::<u32>().unwrap_or(0) {
            text.push_str(part)?;
        }
    } else {
        text.push_str(line)?;
    }
    text.push('\n')?;
    Ok(())
}

/// A source with its repeated parts written out.
pub fn expanded(alloc: Global, source: &str) -> Result<String, AllocError> {
    let mut text = String::new(alloc);
    for line in source.lines() {
        push_line(&mut text, line)?;
    }
    Ok(text)
}

/// A source lowered, or none where it is refused.
pub fn lower_source(alloc: Global, source: &[u8]) -> Result<Option<Source>, AllocError>
    ensures { IfOk result (λ made. IfSome made (λ s. IsValid s.code)) }
{
    match resolve(alloc, source) {
        Ok((typed, infos)) => match lower(alloc, &typed, infos.as_slice()) {
            Ok(code) => Ok(Some(Source { typed, infos, code })),
            Err(LowerFault::TooLarge) => Ok(None),
            Err(LowerFault::Memory) => Err(AllocError),
        },
        Err(FrontFault::Memory) => Err(AllocError),
        Err(_) => Ok(None),
    }
}
