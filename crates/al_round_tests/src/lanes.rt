//! Lanes that are put in another order than they are judged.

use crate::pieces::{Accesses, Terms, choice_of, chunk};
use al_book::{Book, Helped};
use al_core::{Addr, CommitOrder, Ending, Obj, Policy, Verdict};
use std::alloc::{AllocError, Global};
use std::test::Fail;

const X: Obj = Obj::Global(0);

const Y: Obj = Obj::Global(1);

// Writes x.
fn writer(alloc: Global) -> Result<Accesses, AllocError> {
    let reads = [Addr::Head(X)];
    chunk(alloc, &reads, &[Addr::Word(X, 0)], Ending::Done)
}

// Reads x and writes y.
fn reader(alloc: Global) -> Result<Accesses, AllocError> {
    let reads = [Addr::Head(X), Addr::Word(X, 0), Addr::Head(Y)];
    chunk(alloc, &reads, &[Addr::Word(Y, 0)], Ending::Done)
}

// Does neither.
fn idler(alloc: Global) -> Result<Accesses, AllocError> {
    chunk(alloc, &[], &[], Ending::Done)
}

#[test]
fn lanes_are_judged_in_order(rt: HostRuntime) -> Result<(), Fail> {
    for (order, last) in [
        (CommitOrder::InOrder, Verdict::After),
        (CommitOrder::OutOfOrder, Verdict::Commit),
    ] {
        let terms = Terms {
            choice: choice_of(rt.alloc(), Policy::Raw, order, 1),
            lanes: 3,
        };
        let (book, mut one) = Book::<Accesses>::new(rt.alloc(), 3, terms)?;
        let pieces = (writer(rt.alloc())?, reader(rt.alloc())?, idler(rt.alloc())?);
        let board = book.board();
        let mut two = board.split(&mut one);
        let mut three = board.split(&mut two);
        let a = board.draw(&mut one).expect(&rt, "a lane");
        let b = board.draw(&mut two).expect(&rt, "a lane");
        let c = board.draw(&mut three).expect(&rt, "a lane");
        assert!(rt; a == 0 && b == 1 && c == 2);
        board.put(&mut three, c, pieces.2);
        assert_eq!(rt; book.help(&mut three), Helped::Advanced(0));
        board.put(&mut one, a, pieces.0);
        assert_eq!(rt; book.help(&mut one), Helped::Advanced(1));
        board.put(&mut two, b, pieces.1);
        assert_eq!(rt; book.help(&mut two), Helped::Advanced(3));
        board.join(&mut one, two);
        board.join(&mut one, three);
        let verdicts = book.finish(one);
        assert!(rt; verdicts.as_slice() == [Verdict::Commit, Verdict::Fail, last].as_slice());
    }
    Ok(())
}
