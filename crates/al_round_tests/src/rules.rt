//! Verdicts of every policy and order.
ghost use Rattle.std.specs.Prelude.{◌≡◌, []};
ghost use Rattle.al_core.specs.Lines.{IsLineSize};

use crate::pieces::{Accesses, Terms, choice_of, chunk};
use al_board::Maker;
use al_book::Book;
use al_core::{Addr, CommitOrder, Ending, Obj, Policy, Trap, Verdict};
use sqlite_items::Items;
use std::alloc::{AllocError, Global};
use std::test::Fail;

// The word of a global.
fn word(at: u32) -> Addr {
    Addr::Word(Obj::Global(0), at)
}

const LANES: u32 = 5;

// Lane 0 writes word 0. Lane 1 reads word 0, and writes word 4. Lane 2 writes word 0. Lane 3 reads word 1, writes
// word 5 and traps. Lane 4 does nothing.
#[derive(Drop)]
struct Script {
    terms: Terms,
    alloc: Global,
}

impl Maker<Accesses> for Script {
    ghost task = { λ s. s.terms };

    ghost lanes = { λ s. s.terms.lanes };

    fn make(&self, lane: u32) -> Result<Accesses, AllocError> {
        match lane {
            0 => chunk(self.alloc, &[], &[word(0)], Ending::Done),
            1 => chunk(self.alloc, &[word(0)], &[word(4)], Ending::Done),
            2 => chunk(self.alloc, &[], &[word(0)], Ending::Done),
            3 => {
                let ending = Ending::Trap(Trap::Divide, 7);
                chunk(self.alloc, &[word(1)], &[word(5)], ending)
            }
            _ => chunk(self.alloc, &[], &[], Ending::Done),
        }
    }
}

fn terms_of(alloc: Global, policy: Policy, order: CommitOrder, line: u32) -> Terms
    ensures { result
        ≡ record { choice = record { policy = policy; order = order; reds = []; line = line }; lanes = LANES } }
{
    Terms {
        choice: choice_of(alloc, policy, order, line),
        lanes: LANES,
    }
}

fn judged(
    alloc: Global,
    policy: Policy,
    order: CommitOrder,
    line: u32,
) -> Result<Items<Verdict>, AllocError>
    requires { IsLineSize line }
{
    let terms = terms_of(alloc, policy, order, line);
    let (book, mut pass) = Book::<Accesses>::new(alloc, LANES, terms)?;
    let script = Script {
        terms: terms_of(alloc, policy, order, line),
        alloc,
    };
    book.work(&mut pass, &script)?;
    let settled = book.finish_pieces(pass);
    Ok(settled.verdicts)
}

fn told(verdict: Verdict) -> u8 {
    match verdict {
        Verdict::Commit => b'c',
        Verdict::CommitTrap => b't',
        Verdict::Fail => b'f',
        Verdict::After => b'a',
    }
}

// Whether the verdicts are those of the text, a letter for each.
fn are(verdicts: &[Verdict], text: &str) -> bool {
    let text = text.as_bytes();
    let mut same = verdicts.len() == text.len();
    for (verdict, letter) in verdicts.iter().zip(text) {
        same = same && told(*verdict) == *letter;
    }
    same
}

#[test]
fn verdicts_by_words(rt: HostRuntime) -> Result<(), Fail> {
    for (policy, order, want) in [
        (Policy::Full, CommitOrder::InOrder, "cfaaa"),
        (Policy::Full, CommitOrder::OutOfOrder, "cffta"),
        (Policy::Raw, CommitOrder::InOrder, "cfaaa"),
        (Policy::Raw, CommitOrder::OutOfOrder, "cfcta"),
        (Policy::Waw, CommitOrder::InOrder, "ccfaa"),
        (Policy::Waw, CommitOrder::OutOfOrder, "ccfta"),
        (Policy::None, CommitOrder::InOrder, "cccta"),
        (Policy::None, CommitOrder::OutOfOrder, "cccta"),
    ] {
        let verdicts = judged(rt.alloc(), policy, order, 1)?;
        assert!(rt; are(verdicts.as_slice(), want), "{want}");
    }
    Ok(())
}

#[test]
fn verdicts_by_lines(rt: HostRuntime) -> Result<(), Fail> {
    for (policy, line, want) in [
        (Policy::Raw, 2, "cfcfc"),
        (Policy::Waw, 2, "ccffc"),
        (Policy::Waw, 8, "cfffc"),
        (Policy::None, 16, "cccta"),
    ] {
        let verdicts = judged(rt.alloc(), policy, CommitOrder::OutOfOrder, line)?;
        assert!(rt; are(verdicts.as_slice(), want), "{want}");
    }
    Ok(())
}

#[test]
fn pieces_come_in_lane_order(rt: HostRuntime) -> Result<(), Fail> {
    let terms = terms_of(rt.alloc(), Policy::None, CommitOrder::InOrder, 1);
    let (book, mut pass) = Book::<Accesses>::new(rt.alloc(), LANES, terms)?;
    let script = Script {
        terms: terms_of(rt.alloc(), Policy::None, CommitOrder::InOrder, 1),
        alloc: rt.alloc(),
    };
    book.work(&mut pass, &script)?;
    let (pieces, verdicts) = book.finish_vec(pass);
    assert!(rt; are(verdicts.as_slice(), "cccta") && pieces.len() == 5);
    assert!(rt; pieces[1].touched.has(&word(4)) && pieces[3].touched.has(&word(5)));
    Ok(())
}
