ghost use Rattle.std.specs.Prelude.{◌≡◌};
ghost use Rattle.al_front.specs.Answers.{refused};

use al_rules::Refusal;
use al_source::Token;
use sqlite_items::Items;
use std::alloc::AllocError;
use std::fmt;
use thiserror::Error;

/// Tokens that derive no program, and the place of the first with which those so far begin none, from 0; the place
/// past the last where only more tokens are missing.
#[derive(Drop)]
pub struct BadTokens {
    pub tokens: Items<Token>,
    pub place: usize,
}

impl fmt::Debug for BadTokens {
    fn fmt<W: fmt::Write>(&self, f: &mut fmt::Formatter<W>) -> fmt::Result {
        let place = self.place;
        write!(f, "bad token {place}")
    }
}

/// Why a source gives no typed tree.
#[derive(Debug, Drop, Error)]
pub enum FrontFault {
    /// For another cause than the grammar.
    #[error("refused: {0:?}")]
    Refused(Refusal),
    /// Its tokens derive no program.
    #[error("no program: {0:?}")]
    NoProgram(BadTokens),
    #[error("out of memory")]
    Memory,
}

impl FrontFault {
    /// The cause, unless it is want of memory.
    pub fn cause(&self) -> Option<Refusal>
        ensures { result ≡ refused self.now }
    {
        match self {
            FrontFault::Refused(cause) => Some(*cause),
            FrontFault::NoProgram(_) => Some(Refusal::Grammar),
            FrontFault::Memory => None,
        }
    }
}

impl From<AllocError> for FrontFault {
    ghost use Rattle.al_front.specs.declared.fault.FrontFault.TheVariants.{Memory};

    ghost from_gives = { λ _ e. e ≡ Memory };

    fn from(_: AllocError) -> FrontFault {
        FrontFault::Memory
    }
}

/// The fault of this cause. No cause is want of memory.
pub fn by_cause(cause: Option<Refusal>) -> FrontFault
    ensures { refused result ≡ cause }
{
    match cause {
        Some(cause) => FrontFault::Refused(cause),
        None => FrontFault::Memory,
    }
}
