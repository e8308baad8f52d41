//! Jobs and their answers, as the pieces of a board.
ghost use Rattle.std.specs.Prelude.{◌≡◌, ◌<◌, IfOk, length};
ghost use Rattle.al_board.specs.Piles.{on_pile, IsPileFor};
ghost use Rattle.al_batch.specs.Answers.{FitsAt};

use al_board::{Maker, Piece, Pile};
use std::alloc::AllocError;
use std::marker::PhantomData;

/// What does a job.
pub trait Work: Sync {
    type Job: Sync;

    type Answer: Send + Drop;

    // The answer fits the job.
    ghost fits: { Self.Job → Self.Answer → Type 0 };

    /// An answer that fits the job. The error is want of memory.
    fn work(&self, job: &Self::Job) -> Result<Self::Answer, AllocError>
        ensures { IfOk result (fits job.now) };
}

/// The answer to one job of a list. Its board has no shelf.
#[derive(Drop)]
pub(crate) struct Done<'a, W: Work> {
    pub(crate) answer: W::Answer,
    pub(crate) jobs: PhantomData<&'a [W::Job]>,
}

impl<'a, W: Work> Piece for Done<'a, W> {
    type Task = &'a [W::Job];

    type Shelf = Pile<Done<'a, W>>;

    ghost fits = { λ jobs lane done. FitsAt W.fits jobs.now lane done.answer };

    ghost lanes = { λ jobs. length jobs.now };

    ghost laid = { on_pile };

    ghost stands = { λ jobs. IsPileFor (λ lane done. FitsAt W.fits jobs.now lane done.answer) (length jobs.now) };

    fn lay(_task: &&'a [W::Job], shelf: &mut Pile<Done<'a, W>>, piece: Done<'a, W>) {
        shelf.lay(piece);
    }

    ghost stands_fit = { λ task shelf h. h.fit };
}

/// Does the job of a lane.
#[derive(Drop)]
pub(crate) struct Doer<'a, 'b, W: Work> {
    pub(crate) work: &'b W,
    pub(crate) jobs: &'a [W::Job],
}

impl<'a, 'b, W: Work> Maker<Done<'a, W>> for Doer<'a, 'b, W> {
    ghost task = { λ m. m.jobs };

    ghost lanes = { λ m. length m.jobs.now };

    fn make(&self, lane: u32) -> Result<Done<'a, W>, AllocError> {
        let answer = self.work.work(&self.jobs[lane as usize])?;
        Ok(Done {
            answer,
            jobs: PhantomData,
        })
    }
}
