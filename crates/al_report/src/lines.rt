//! Lines for standard error.

ghost use Rattle.std.specs.Prelude.{◌≡◌, ◌++◌, codes, IfOk};
ghost use Rattle.al_report.specs.Lines as spec;

use crate::builder::Text;
use al_source::Bytes;
use std::alloc::{AllocError, Global};

/// A line about a whole file.
pub fn of_file(alloc: Global, name: &str, text: &[u8]) -> Result<Bytes, AllocError>
    ensures { IfOk result (λ line. line ≡ spec.of_file name.now text.now) }
{
    let mut line = Text::new(alloc);
    line.push(b"alter: ")?;
    line.push(name.as_bytes())?;
    line.push(b": ")?;
    line.push(text)?;
    line.push(b"\n")?;
    Ok(line.finish())
}

/// A line about a line of a file.
pub fn of_line(alloc: Global, name: &str, at: u32, text: &[u8]) -> Result<Bytes, AllocError>
    ensures { IfOk result (λ line. line ≡ spec.of_line name.now at text.now) }
{
    let mut line = Text::new(alloc);
    line.push(b"alter: ")?;
    line.push(name.as_bytes())?;
    line.push(b":")?;
    line.push_number(u128::from(at))?;
    line.push(b": ")?;
    line.push(text)?;
    line.push(b"\n")?;
    Ok(line.finish())
}
