//! The entries of annotated loops, and the choices that are tried for one, in their order.

use al_core::{Addr, Bound, Choice, CommitOrder, Policy, Red, RedOp};
use al_front::resolve;
use al_loops::{candidates, notes};
use sqlite_items::Items;
use std::alloc::Global;
use std::test::Fail;

const POLICIES: [Policy; 4] = [Policy::None, Policy::Waw, Policy::Raw, Policy::Full];

const ORDERS: [CommitOrder; 2] = [CommitOrder::OutOfOrder, CommitOrder::InOrder];

const ONE_UPDATE: &str = "int main(void) {\n int s;\n\
    #pragma alter RAW InOrder reduce(+: s)\n for (int i = 0; i < 4; i++) s += input(i);\n}";

const TWO_UPDATES: &str = "int main(void) {\n int i, s, t;\n\
    #pragma alter\n for (i = 0; i < 4; i++) { s += 1; t *= 2; }\n}";

const SUM: Red = Red {
    op: RedOp::Add,
    at: Addr::Local(0),
};

const SECOND_SUM: Red = Red {
    op: RedOp::Add,
    at: Addr::Local(1),
};

const PRODUCT: Red = Red {
    op: RedOp::Mul,
    at: Addr::Local(2),
};

#[test]
fn a_loop_has_an_entry(rt: HostRuntime) -> Result<(), Fail> {
    let (typed, _) = resolve(rt.alloc(), ONE_UPDATE.as_bytes())?;
    let infos = notes(rt.alloc(), &typed)?;
    let info = infos.get(0).ok_or("no entry")?;
    assert_eq!(rt;
        (infos.len(), info.number, info.func, info.line),
        (1, 0, 0, 4)
    );
    assert_eq!(rt; (info.counter, info.bound), (1, Bound::Number(4)));
    assert_eq!(rt; info.own.policy, Policy::Raw);
    assert_eq!(rt; info.own.reds.as_slice(), [SUM].as_slice());
    Ok(())
}

/// The choices for the first loop of a program.
fn tried(alloc: Global, source: &str) -> Result<Items<Choice>, Fail> {
    let (typed, infos) = resolve(alloc, source.as_bytes())?;
    let info = infos.get(0).ok_or("no entry")?;
    Ok(candidates(alloc, &typed, info)?)
}

/// Whether a choice has the policy and the order of its place, and these reductions.
fn is_choice(k: usize, choice: &Choice, reds: &[Red]) -> bool {
    choice.policy == POLICIES[k / 2 % 4]
        && choice.order == ORDERS[k % 2]
        && choice.reds.as_slice() == reds
}

#[test]
fn one_update_has_sixteen_choices(rt: HostRuntime) -> Result<(), Fail> {
    let choices = tried(rt.alloc(), ONE_UPDATE)?;
    let reds: [&[Red]; 2] = [&[], &[SUM]];
    assert_eq!(rt; choices.len(), 16);
    for (k, choice) in choices.as_slice().iter().enumerate() {
        assert!(rt; is_choice(k, choice, reds[k / 8 % 2]));
    }
    Ok(())
}

#[test]
fn two_updates_are_tried_alone_and_together(rt: HostRuntime) -> Result<(), Fail> {
    let choices = tried(rt.alloc(), TWO_UPDATES)?;
    let reds: [&[Red]; 4] = [&[], &[SECOND_SUM], &[PRODUCT], &[SECOND_SUM, PRODUCT]];
    assert_eq!(rt; choices.len(), 32);
    for (k, choice) in choices.as_slice().iter().enumerate() {
        assert!(rt; is_choice(k, choice, reds[k / 8 % 4]));
    }
    Ok(())
}
