ghost use Rattle.std.specs.Prelude.{◌≡◌, List, ◌∷◌, ◌++◌, IfOk};
ghost use Rattle.al_source.specs.declared.texts.Piece.{Piece};
ghost use Rattle.al_source.specs.declared.texts.Piece.TheVariants as piece;
ghost use Rattle.al_core.specs.Values as spec;

use al_core::{Piece, Trap, Val, number};
use itoa::Buffer;
use sqlite_items::Items;
use std::alloc::{AllocError, Global};

/// The numbers of values, up to the first pointer.
#[tactic(auto, using(crate::proofs::Printed::number_steps))]
pub fn numbers(alloc: Global, vs: &[Val]) -> Result<Result<Items<i64>, Trap>, AllocError>
    ensures { IfOk result (λ r. r ≡ spec.numbers vs.now) }
{
    let mut ns = Items::new(alloc);
    for v in vs {
        match number(*v) {
            Ok(n) => ns.push(n)?,
            Err(t) => return Ok(Err(t)),
        }
    }
    Ok(Ok(ns))
}

/// Prints a number where a format says so, and answers the numbers that are left.
fn number_of<'a>(bytes: &mut Vec<u8>, rest: &'a [i64]) -> Result<&'a [i64], AllocError>
    ensures { IfOk result (λ left. (format : List Piece)
        → bytes.old.items ++ spec.text (piece.Number ∷ format) rest.now
        ≡ bytes.new.items ++ spec.text format left.now) }
{
    match rest {
        [] => Ok(rest),
        [n, more @ ..] => {
            let mut buffer = Buffer::new();
            bytes.extend_from_slice(buffer.format(*n).as_bytes())?;
            Ok(more)
        }
    }
}

/// The bytes that a format prints of numbers.
pub fn text(alloc: Global, format: &[Piece], ns: &[i64]) -> Result<Vec<u8>, AllocError>
    ensures { IfOk result (λ bytes. bytes.items ≡ spec.text format.now ns.now) }
{
    let mut bytes = Vec::new(alloc);
    let mut rest = ns;
    for piece in format {
        match piece {
            Piece::Plain(plain) => bytes.extend_from_slice(plain.as_slice())?,
            Piece::Number => rest = number_of(&mut bytes, rest)?,
        }
    }
    Ok(bytes)
}
