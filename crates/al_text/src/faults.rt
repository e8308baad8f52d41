ghost use Rattle.std.specs.Prelude.{◌≡◌};
ghost use Rattle.al_text.specs.Faults as spec;

use std::alloc::AllocError;
use thiserror::Error;

/// Why a text is no list of numbers. A number is a line, from 1.
#[derive(Clone, Copy, Debug, PartialEq, Eq)]
pub enum InputCause {
    /// It has more than `INPUT_BYTES` bytes.
    TooLong,
    /// A word is not an optional `-` and digits.
    NotNumber(u32),
    /// A number has more than 64 bits.
    OutOfRange(u32),
    /// There are more than `INPUT_NUMBERS` words.
    TooMany,
}

/// The cause, or want of memory.
#[derive(Clone, Copy, Debug, PartialEq, Eq, Error)]
#[error("the text is no list of numbers")]
pub enum InputFault {
    TooLong,
    NotNumber(u32),
    OutOfRange(u32),
    TooMany,
    Memory,
}

impl InputFault {
    /// The cause, unless it is want of memory.
    pub fn cause(self) -> Option<InputCause>
        ensures { result ≡ spec.told self }
    {
        match self {
            InputFault::TooLong => Some(InputCause::TooLong),
            InputFault::NotNumber(line) => Some(InputCause::NotNumber(line)),
            InputFault::OutOfRange(line) => Some(InputCause::OutOfRange(line)),
            InputFault::TooMany => Some(InputCause::TooMany),
            InputFault::Memory => None,
        }
    }
}

impl From<AllocError> for InputFault {
    ghost use Rattle.al_text.specs.declared.faults.InputFault.TheVariants.{Memory};

    ghost from_gives = { λ _ e. e ≡ Memory };

    fn from(_: AllocError) -> InputFault {
        InputFault::Memory
    }
}

/// The fault of a cause.
pub fn by_cause(cause: InputCause) -> InputFault
    ensures { spec.told result ≡ Some cause }
{
    match cause {
        InputCause::TooLong => InputFault::TooLong,
        InputCause::NotNumber(line) => InputFault::NotNumber(line),
        InputCause::OutOfRange(line) => InputFault::OutOfRange(line),
        InputCause::TooMany => InputFault::TooMany,
    }
}
