ghost use Rattle.std.specs.Prelude.{◌≡◌, ◌∷◌, ◌++◌, ◌≤◌, ◌+◌, ◌<◌, ◌^◌, List, ℤ, Some, Ok, Err, IfOk, OnOk, MatchResult, slice_get};
ghost use Rattle.al_source.specs.declared.texts.Piece.{Piece};
ghost use Rattle.al_source.specs.declared.texts.Piece.TheVariants as piece;
ghost use Rattle.al_core.specs.Values as spec;
ghost use Rattle.al_code.specs.Machine as machine;
ghost use Rattle.al_code.specs.declared.lowered.Code.{Code};
ghost use Rattle.al_code.specs.declared.instructions.Instr.TheVariants as i;
ghost use Rattle.al_exec.specs.Meets.{Did};
ghost use Rattle.al_exec.specs.Printing.{int_in, ints};

use crate::active::Active;
use al_core::{Piece, Trap, Val, ViewFault, number};
use al_values::{PackedValue, PackedView};
use itoa::Buffer;
use std::alloc::AllocError;

/// How many numbers a text prints.
#[tactic(auto, using(al_code::proofs::Holes::holes_counted))]
fn holes(pieces: &[Piece]) -> usize
    ensures { result ≡ machine.holes pieces.now }
{
    pieces
        .iter()
        .filter(|piece| matches!(piece, Piece::Number))
        .count()
}

fn int(v: PackedValue) -> i64
    ensures { result ≡ int_in v }
{
    match v.unpack() {
        Val::Int(n) => n,
        Val::Ptr(_, _) => 0,
    }
}

/// Checks that all values are numbers.
#[tactic(auto, using(crate::proofs::Printed::number_steps))]
fn all_numbers(vs: &[PackedValue]) -> Result<(), Trap>
    ensures { MatchResult result (λ _. spec.numbers vs.now ≡ Ok (ints vs.now)) (λ t. spec.numbers vs.now ≡ Err t) }
{
    for v in vs {
        number(v.unpack())?;
    }
    Ok(())
}

/// Prints a number where a text says so, and answers the numbers that are left.
fn number_of<'a>(
    bytes: &mut Vec<u8>,
    rest: &'a [PackedValue],
) -> Result<&'a [PackedValue], AllocError>
    ensures { IfOk result (λ left. (format : List Piece)
        → bytes.old.items ++ spec.text (piece.Number ∷ format) (ints rest.now)
        ≡ bytes.new.items ++ spec.text format (ints left.now)) }
{
    match rest {
        [] => Ok(rest),
        [v, more @ ..] => {
            let mut buffer = Buffer::new();
            bytes.extend_from_slice(buffer.format(int(*v)).as_bytes())?;
            Ok(more)
        }
    }
}

/// Writes what a text prints of numbers.
fn write_text(bytes: &mut Vec<u8>, format: &[Piece], vs: &[PackedValue]) -> Result<(), AllocError>
    ensures { OnOk result (bytes.new.items ≡ bytes.old.items ++ spec.text format.now (ints vs.now)) }
{
    let mut rest = vs;
    for piece in format {
        match piece {
            Piece::Plain(plain) => bytes.extend_from_slice(plain.as_slice())?,
            Piece::Number => rest = number_of(bytes, rest)?,
        }
    }
    Ok(())
}

impl Active {
    /// Prints a text. The bytes are a place to write it first.
    #[tactic(auto, unfolding(al_core::specs::Action::bind, al_core::specs::Action::pure, al_core::specs::Action::lift, al_core::specs::Action::asks))]
    #[inline(always)]
    pub fn print<V: PackedView>(
        &mut self,
        k: u32,
        format: &[Piece],
        bytes: &mut Vec<u8>,
        view: &mut V,
    ) -> Result<(), ViewFault>
        requires place { self.old.place + 1 < 2 ^ 64 }
        requires operands { machine.holes format.now ≤ self.old.height }
        ensures { (input : List ℤ) (code : Code) → slice_get code.texts k ≡ Some format.now
            → Did input code (i.Print k) self.old (V.content view.old) result self.new (V.content view.new) }
    {
        let count = holes(format);
        let vs = self.top_values(count);
        if let Err(t) = all_numbers(vs) {
            return Err(ViewFault::Trap(t));
        }
        bytes.clear();
        write_text(bytes, format, vs)?;
        view.print(bytes.as_slice())?;
        self.drop_values(count);
        self.advance();
        Ok(())
    }
}
