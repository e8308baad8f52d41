//! Numbers as decimal text, and the numbers that a text lists.
#![tactic(auto)]

ghost use Rattle.std.specs.Prelude.{◌≡◌, [], ◌∷◌, Ok, IfOk};
ghost use Rattle.std.specs.Fmt.{signed_decimal};
ghost use Rattle.al_text.specs.Numbers.{numbers_of};

mod digits;
mod faults;
mod numbers;

pub use digits::numeral;
pub use faults::{InputCause, InputFault};
use itoa::Buffer;
pub use numbers::read_numbers;
use sqlite_items::Items;
use std::alloc::{AllocError, Global};

/// The decimal text of a number, with `-` before a negative one.
#[tactic(auto, using(crate::proofs::ReadingBack::reads_back))]
pub fn number_text(alloc: Global, n: i64) -> Result<Items<u8>, AllocError>
    ensures exact { IfOk result (λ text. text ≡ signed_decimal n) }
    ensures reads_back { IfOk result (λ text. numbers_of text ≡ Ok (n ∷ [])) }
{
    let mut buffer = Buffer::new();
    Items::from_slice(alloc, buffer.format(n).as_bytes())
}
