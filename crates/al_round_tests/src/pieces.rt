//! Pieces that have the sets of a chunk.
ghost use Rattle.std.specs.Prelude.{◌≡◌, []};
ghost use Rattle.al_core.specs.Lines.{IsLineSize};
ghost use Rattle.al_book.specs.Shelves.{pieces_on, IsShelfFor};
ghost use Rattle.al_round_tests.specs.Outcomes.{accessed};

use al_board::Piece;
use al_book::{BookPiece, Bookshelf, Weigh};
use al_core::{Addr, Choice, CommitOrder, Ending, Policy};
use al_sets::AddrSet;
use sqlite_items::Items;
use std::alloc::{AllocError, Global};

/// By what the pieces are judged, and how many they are.
#[derive(Drop)]
pub(crate) struct Terms {
    pub(crate) choice: Choice,
    pub(crate) lanes: u32,
}

/// What a chunk read and wrote, and how it ended.
#[derive(Drop)]
pub(crate) struct Accesses {
    pub(crate) reads: AddrSet,
    pub(crate) touched: AddrSet,
    pub(crate) ending: Ending,
}

impl Piece for Accesses {
    type Task = Terms;

    type Shelf = Bookshelf<Accesses>;

    ghost fits = { λ terms lane a. lane ≡ lane };

    ghost lanes = { λ terms. terms.lanes };

    ghost laid = { pieces_on };

    ghost stands = { λ terms. IsShelfFor (λ lane a. lane ≡ lane)
        (λ a. accessed a.reads.members a.touched.members a.ending) terms.choice terms.lanes };

    fn lay(task: &Terms, shelf: &mut Bookshelf<Accesses>, piece: Accesses) {
        let _ = task;
        shelf.lay(piece);
    }

    ghost stands_fit = { λ task shelf h. h.fit };
}

impl Weigh for Accesses {
    ghost outcome = { λ a. accessed a.reads.members a.touched.members a.ending };

    fn clashes(&self, by: &Choice, earlier: &Accesses) -> bool {
        let written = &earlier.touched;
        match by.policy {
            Policy::Full => {
                self.reads.meets_lines(written, by.line)
                    || self.touched.meets_lines(written, by.line)
            }
            Policy::Raw => self.reads.meets_lines(written, by.line),
            Policy::Waw => self.touched.meets_lines(written, by.line),
            Policy::None => false,
        }
    }

    fn trapped(&self) -> bool {
        match self.ending {
            Ending::Done => false,
            Ending::Trap(_, _) => true,
        }
    }
}

impl BookPiece for Accesses {
    ghost use Rattle.std.specs.Prelude.{refl};

    ghost choice = { λ terms. terms.choice };

    fn choice_of(task: &Terms) -> &Choice {
        &task.choice
    }

    ghost lays = { λ shelf. refl };

    ghost stands_where = { λ task shelf. (λ h. h, λ h. h) };
}

/// The choice of these rules, without reductions.
pub(crate) fn choice_of(alloc: Global, policy: Policy, order: CommitOrder, line: u32) -> Choice
    ensures { result ≡ record { policy = policy; order = order; reds = []; line = line } }
{
    Choice {
        policy,
        order,
        reds: Items::new(alloc),
        line,
    }
}

fn set_of(alloc: Global, all: &[Addr]) -> Result<AddrSet, AllocError> {
    let mut set = AddrSet::new(alloc);
    for at in all {
        set.insert(*at)?;
    }
    Ok(set)
}

/// A chunk that read and wrote these addresses.
pub(crate) fn chunk(
    alloc: Global,
    reads: &[Addr],
    touched: &[Addr],
    ending: Ending,
) -> Result<Accesses, AllocError> {
    Ok(Accesses {
        reads: set_of(alloc, reads)?,
        touched: set_of(alloc, touched)?,
        ending,
    })
}
