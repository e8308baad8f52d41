//! What the lanes of a round are for, and what is put into them.
ghost use Rattle.std.specs.Prelude.{◌≡◌, length, slice_index};
ghost use Rattle.al_snap.specs.Changes.{told};
ghost use Rattle.al_book.specs.Shelves.{pieces_on, IsShelfFor};
ghost use Rattle.al_round.specs.Rounds.{IsChunkOf};

use al_board::Piece;
use al_book::{BookPiece, Bookshelf, Weigh};
use al_chunk::LoopEnv;
use al_code::Code;
use al_core::{Choice, Ending, LoopInfo};
use al_heap::Store;
use al_snap::Change;
use al_validate::clashes_with;
use std::marker::PhantomData;
use std::snapshot::Snapshot;

/// What a round is of.
#[derive(Clone, Copy)]
pub(crate) struct Plan<'a> {
    pub(crate) code: &'a Code,
    pub(crate) info: &'a LoopInfo,
    pub(crate) choice: &'a Choice,
    pub(crate) env: &'a LoopEnv,
    pub(crate) input: &'a [i64],
    pub(crate) chunks: &'a [u64],
}

/// The task of a round: a chunk for each lane, and the store as it was, which is shown and not borrowed.
#[derive(Drop)]
pub(crate) struct Task<'a, S> {
    pub(crate) plan: Plan<'a>,
    pub(crate) store: Snapshot<S>,
}

/// What a chunk did to the store that is shown.
#[derive(Drop)]
pub(crate) struct Done<'a, S> {
    pub(crate) change: Change,
    pub(crate) plan: PhantomData<&'a [u64]>,
    pub(crate) store: Snapshot<S>,
}

impl<'a, S: Store + Sync> Piece for Done<'a, S> {
    type Task = Task<'a, S>;

    type Shelf = Bookshelf<Done<'a, S>>;

    ghost fits = { λ t lane d.
        IsChunkOf t.plan.code.now t.plan.info.now t.plan.input.now t.plan.env.now t.plan.choice.now.reds
        (S.memory t.store.value) (slice_index t.plan.chunks.now lane) d.change };

    ghost lanes = { λ t. length t.plan.chunks.now };

    ghost laid = { pieces_on };

    ghost stands = { λ t shelf. IsShelfFor (λ lane d.
        IsChunkOf t.plan.code.now t.plan.info.now t.plan.input.now t.plan.env.now t.plan.choice.now.reds
        (S.memory t.store.value) (slice_index t.plan.chunks.now lane) d.change) (λ d. told d.change)
        t.plan.choice.now (length t.plan.chunks.now) shelf };

    fn lay(task: &Task<'a, S>, shelf: &mut Bookshelf<Done<'a, S>>, piece: Done<'a, S>) {
        let _ = task;
        shelf.lay(piece);
    }

    ghost stands_fit = { λ task shelf h. h.fit };
}

impl<'a, S> Weigh for Done<'a, S> {
    ghost outcome = { λ d. told d.change };

    fn clashes(&self, by: &Choice, earlier: &Done<'a, S>) -> bool {
        clashes_with(by, &self.change, &earlier.change)
    }

    #[tactic(auto, unfolding(al_snap::specs::Changes::told))]
    fn trapped(&self) -> bool {
        match self.change.ending {
            Ending::Done => false,
            Ending::Trap(_, _) => true,
        }
    }
}

impl<'a, S: Store + Sync> BookPiece for Done<'a, S> {
    ghost use Rattle.std.specs.Prelude.{refl};

    ghost choice = { λ t. t.plan.choice.now };

    fn choice_of<'t>(task: &'t Task<'a, S>) -> &'t Choice {
        task.plan.choice
    }

    ghost lays = { λ shelf. refl };

    ghost stands_where = { λ task shelf. (λ h. h, λ h. h) };
}
