//! The verdicts on the chunks of a round.
ghost use Rattle.al_core.specs.Lines.{IsLineSize};

use al_core::{Addr, Choice, CommitOrder, Ending, Obj, Policy, Trap, Verdict};
use al_heap::Slots;
use al_sets::{AddrMap, AddrSet};
use al_snap::Change;
use al_validate::{Judge, clash, clashes_with};
use sqlite_items::Items;
use std::alloc::{AllocError, Global};
use std::test::Fail;

fn word(w: u32) -> Addr {
    Addr::Word(Obj::Global(0), w)
}

fn set(alloc: Global, addresses: &[Addr]) -> Result<AddrSet, AllocError> {
    let mut set = AddrSet::new(alloc);
    for at in addresses {
        set.insert(*at)?;
    }
    Ok(set)
}

/// A chunk that read and touched these addresses.
fn chunk(
    alloc: Global,
    reads: &[Addr],
    touched: &[Addr],
    ending: Ending,
) -> Result<Change, AllocError> {
    Ok(Change {
        reads: set(alloc, reads)?,
        touched: set(alloc, touched)?,
        writes: AddrMap::new(alloc),
        made: Slots::new(alloc),
        freed: Items::new(alloc),
        accumulators: Items::new(alloc),
        printed: Items::new(alloc),
        ending,
        steps: 0,
    })
}

/// The next verdict, with room for it.
fn next(judge: &mut Judge, change: &Change) -> Result<Verdict, AllocError> {
    judge.reserve(change.touched.size())?;
    Ok(judge.judge(change))
}

/// The verdicts on three chunks, word by word.
fn verdicts(
    alloc: Global,
    policy: Policy,
    order: CommitOrder,
    chunks: &[Change; 3],
) -> Result<[Verdict; 3], AllocError> {
    let mut judge = Judge::new(alloc, policy, order, 1);
    let first = next(&mut judge, &chunks[0])?;
    let second = next(&mut judge, &chunks[1])?;
    let third = next(&mut judge, &chunks[2])?;
    Ok([first, second, third])
}

/// The first writes word 0; the second reads it; the third writes it again.
fn three(alloc: Global, ending: Ending) -> Result<[Change; 3], AllocError> {
    Ok([
        chunk(alloc, &[], &[word(0)], ending)?,
        chunk(alloc, &[word(0)], &[word(64)], Ending::Done)?,
        chunk(
            alloc,
            &[word(128)],
            &[word(0)],
            Ending::Trap(Trap::Divide, 7),
        )?,
    ])
}

#[test]
fn policies_and_orders(rt: HostRuntime) -> Result<(), Fail> {
    use CommitOrder::{InOrder, OutOfOrder};
    use Verdict::{After, Commit, CommitTrap, Fail};
    let table = [
        (Policy::Full, InOrder, [Commit, Fail, After]),
        (Policy::Full, OutOfOrder, [Commit, Fail, Fail]),
        (Policy::Raw, InOrder, [Commit, Fail, After]),
        (Policy::Raw, OutOfOrder, [Commit, Fail, CommitTrap]),
        (Policy::Waw, InOrder, [Commit, Commit, Fail]),
        (Policy::Waw, OutOfOrder, [Commit, Commit, Fail]),
        (Policy::None, InOrder, [Commit, Commit, CommitTrap]),
        (Policy::None, OutOfOrder, [Commit, Commit, CommitTrap]),
    ];
    let chunks = three(rt.alloc(), Ending::Done)?;
    for (policy, order, wanted) in table {
        assert_eq!(rt; verdicts(rt.alloc(), policy, order, &chunks)?, wanted);
    }
    Ok(())
}

#[test]
fn nothing_commits_after_a_trap(rt: HostRuntime) -> Result<(), Fail> {
    use CommitOrder::{InOrder, OutOfOrder};
    let wanted = [Verdict::CommitTrap, Verdict::After, Verdict::After];
    let chunks = three(rt.alloc(), Ending::Trap(Trap::Bounds, 3))?;
    for policy in [Policy::Full, Policy::Raw, Policy::Waw, Policy::None] {
        for order in [InOrder, OutOfOrder] {
            assert_eq!(rt; verdicts(rt.alloc(), policy, order, &chunks)?, wanted);
        }
    }
    Ok(())
}

/// The verdict on a chunk that reads a word, after one that wrote word 0.
fn after_word_0(alloc: Global, line: u32, read: u32) -> Result<Verdict, AllocError>
    requires { IsLineSize line }
{
    let mut judge = Judge::new(alloc, Policy::Raw, CommitOrder::InOrder, line);
    next(&mut judge, &chunk(alloc, &[], &[word(0)], Ending::Done)?)?;
    next(&mut judge, &chunk(alloc, &[word(read)], &[], Ending::Done)?)
}

#[test]
fn lines(rt: HostRuntime) -> Result<(), Fail> {
    use Verdict::{Commit, Fail};
    let table = [
        (0, [Fail, Fail, Fail]),
        (1, [Commit, Fail, Fail]),
        (2, [Commit, Commit, Fail]),
        (3, [Commit, Commit, Fail]),
        (4, [Commit, Commit, Commit]),
    ];
    for (read, [by_1, by_2, by_4]) in table {
        assert_eq!(rt; after_word_0(rt.alloc(), 1, read)?, by_1);
        assert_eq!(rt; after_word_0(rt.alloc(), 2, read)?, by_2);
        assert_eq!(rt; after_word_0(rt.alloc(), 4, read)?, by_4);
    }
    Ok(())
}

#[test]
fn two_chunks_that_free_one_object(rt: HostRuntime) -> Result<(), Fail> {
    let head = Addr::Head(Obj::Serial(0));
    let first = chunk(rt.alloc(), &[head], &[head], Ending::Done)?;
    let second = chunk(rt.alloc(), &[head], &[head], Ending::Done)?;
    for (policy, clashing) in [
        (Policy::Full, true),
        (Policy::Raw, true),
        (Policy::Waw, true),
        (Policy::None, false),
    ] {
        let choice = Choice::by_words(policy, CommitOrder::InOrder, Items::new(rt.alloc()));
        assert_eq!(rt; clashes_with(&choice, &second, &first), clashing);
        assert_eq!(rt; clash(&choice, &second, &first.touched), clashing);
    }
    Ok(())
}
