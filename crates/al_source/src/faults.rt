use std::alloc::AllocError;
use thiserror::Error;

/// Why a source has no tokens. A number is a line, from 1.
#[derive(Clone, Copy, Debug, PartialEq, Eq, Error)]
pub enum LexFault {
    /// It has more than 1,048,576 bytes.
    #[error("source too long")]
    TooLong,
    #[error("line {0}: bad byte")]
    BadByte(u32),
    #[error("line {0}: bad number")]
    BadNumber(u32),
    #[error("line {0}: bad text")]
    BadText(u32),
    #[error("line {0}: open comment")]
    OpenComment(u32),
    #[error("out of memory")]
    Memory,
}

impl From<AllocError> for LexFault {
    ghost use Rattle.std.specs.Prelude.{◌≡◌};
    ghost use Rattle.al_source.specs.declared.faults.LexFault.TheVariants.{Memory};

    ghost from_gives = { λ _ e. e ≡ Memory };

    fn from(_: AllocError) -> LexFault {
        LexFault::Memory
    }
}

/// Why tokens are no program.
#[derive(Clone, Copy, Debug, PartialEq, Eq, Error)]
pub enum ParseFault {
    #[error("not a program")]
    Syntax,
    #[error("out of memory")]
    Memory,
}

impl From<AllocError> for ParseFault {
    ghost use Rattle.std.specs.Prelude.{◌≡◌};
    ghost use Rattle.al_source.specs.declared.faults.ParseFault.TheVariants.{Memory};

    ghost from_gives = { λ _ e. e ≡ Memory };

    fn from(_: AllocError) -> ParseFault {
        ParseFault::Memory
    }
}
