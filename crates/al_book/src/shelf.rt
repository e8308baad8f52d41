//! Pieces with their verdicts, in the order of their lanes.
ghost use Rattle.std.specs.Prelude.{◌≡◌, ◌&&◌, ◌||◌, ◌++◌, ◌<◌, [], ◌∷◌, IfOk, length, map};
ghost use Rattle.al_core.specs.Lines.{IsLineSize};
ghost use Rattle.al_core.specs.Verdicts as spec;
ghost use Rattle.al_book.specs.Judging as judging;
ghost use Rattle.al_book.specs.Judging.{verdict_by, ends_in_trap};
ghost use Rattle.al_book.specs.Shelves.{pieces_on, verdicts_told, lanes_of, IsMadeFor, IsMadeAs, IsSound};

use crate::weigh::Weigh;
use al_core::{Choice, CommitOrder, Verdict};
use sqlite_items::Items;
use std::alloc::{AllocError, Global};

/// Pieces in the order of their lanes, each with its verdict, and room for more.
#[derive(Drop)]
pub struct Bookshelf<T> {
    pub(crate) choice: Choice,
    pub(crate) lanes: u32,
    pub(crate) pieces: Vec<T>,
    pub(crate) verdicts: Vec<Verdict>,
    // whether one failed, and whether a trap was committed
    pub(crate) failed: bool,
    pub(crate) trapped: bool,
}

fn is_in_order(order: CommitOrder) -> bool
    ensures { result ≡ spec.is_in_order order }
{
    match order {
        CommitOrder::InOrder => true,
        CommitOrder::OutOfOrder => false,
    }
}

fn is_committed(verdict: Verdict) -> bool
    ensures { result ≡ spec.is_committed verdict }
{
    match verdict {
        Verdict::Commit | Verdict::CommitTrap => true,
        Verdict::Fail | Verdict::After => false,
    }
}

fn failed_after(verdict: Verdict, failed: bool) -> bool
    ensures { result ≡ judging.failed_after verdict failed }
{
    match verdict {
        Verdict::Fail => true,
        Verdict::Commit | Verdict::CommitTrap | Verdict::After => failed,
    }
}

fn trapped_after(verdict: Verdict, trapped: bool) -> bool
    ensures { result ≡ judging.trapped_after verdict trapped }
{
    match verdict {
        Verdict::CommitTrap => true,
        Verdict::Commit | Verdict::Fail | Verdict::After => trapped,
    }
}

// Whether a piece clashes with what one of the committed ones wrote.
#[tactic(auto, using(crate::proofs::Verdicts::nothing_met))]
fn clashes_with_one<T: Weigh>(
    choice: &Choice,
    piece: &T,
    pieces: &[T],
    verdicts: &[Verdict],
) -> bool
    requires { IsLineSize choice.now.line }
    ensures { result
        ≡ judging.clashes_with_one choice.now (T.outcome piece.now)
        (spec.committed (map T.outcome pieces.now) verdicts.now) }
{
    match (pieces, verdicts) {
        ([earlier, pieces @ ..], [verdict, verdicts @ ..]) => {
            if is_committed(*verdict) && piece.clashes(choice, earlier) {
                return true;
            }
            clashes_with_one(choice, piece, pieces, verdicts)
        }
        ([], _) => false,
        (_, []) => false,
    }
}

impl<T: Weigh> Bookshelf<T> {
    /// An empty shelf for pieces that are judged by the choice, with room for as many as there are lanes. The error is
    /// want of memory.
    pub fn new(alloc: Global, choice: &Choice, lanes: u32) -> Result<Bookshelf<T>, AllocError>
        requires { IsLineSize choice.now.line }
        ensures sound { IfOk result (IsSound T.outcome) }
        ensures made { IfOk result (IsMadeFor choice.now lanes) }
        ensures empty { IfOk result (λ s. pieces_on s ≡ []) }
    {
        let pieces = Vec::with_capacity(alloc, lanes as usize)?;
        let verdicts = Vec::with_capacity(alloc, lanes as usize)?;
        let choice = Choice {
            policy: choice.policy,
            order: choice.order,
            reds: Items::new(alloc),
            line: choice.line,
        };
        Ok(Bookshelf {
            choice,
            lanes,
            pieces,
            verdicts,
            failed: false,
            trapped: false,
        })
    }

    // The verdict on a piece, judged after those on the shelf.
    fn verdict(&self, piece: &T) -> Verdict
        requires { IsSound T.outcome self.now }
        ensures { result
            ≡ verdict_by self.now.choice.order self.now.failed self.now.trapped
            (judging.clashes_with_one self.now.choice (T.outcome piece.now)
            (spec.committed (map T.outcome (pieces_on self.now)) (verdicts_told self.now)))
            (ends_in_trap (T.outcome piece.now).ending) }
    {
        if (is_in_order(self.choice.order) && self.failed) || self.trapped {
            return Verdict::After;
        }
        let pieces = self.pieces.as_slice();
        if clashes_with_one(&self.choice, piece, pieces, self.verdicts.as_slice()) {
            return Verdict::Fail;
        }
        if piece.trapped() {
            Verdict::CommitTrap
        } else {
            Verdict::Commit
        }
    }

    /// Lays a piece after the others, with the verdict on it. It takes no memory.
    pub fn lay(&mut self, piece: T)
        requires sound { IsSound T.outcome self.old }
        requires room { length (pieces_on self.old) < lanes_of self.old }
        ensures sound { IsSound T.outcome self.new }
        ensures laid { pieces_on self.new ≡ pieces_on self.old ++ piece ∷ [] }
        ensures same { IsMadeAs self.old self.new }
    {
        let verdict = self.verdict(&piece);
        self.failed = failed_after(verdict, self.failed);
        self.trapped = trapped_after(verdict, self.trapped);
        self.verdicts.push_reserved(verdict);
        self.pieces.push_reserved(piece);
    }
}
