ghost use Rattle.std.specs.Prelude.{◌≡◌, IfOk};
ghost use Rattle.al_answers.specs.Lines as spec;

use sqlite_items::Items;
use std::alloc::{AllocError, Global};

/// A line for standard error: a text round a name.
pub fn line(
    alloc: Global,
    before: &[u8],
    name: &[u8],
    after: &[u8],
) -> Result<Items<u8>, AllocError>
    ensures { IfOk result (λ l. l ≡ spec.line before.now name.now after.now) }
{
    let mut text = Vec::from_slice(alloc, b"alter: ")?;
    text.extend_from_slice(before)?;
    text.extend_from_slice(name)?;
    text.extend_from_slice(after)?;
    text.push(b'\n')?;
    Ok(Items::from_vec(text))
}
