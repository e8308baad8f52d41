//! The choices that are tried for a loop.

ghost use Rattle.std.specs.Prelude.{◌≡◌, ◌∷◌, [], ◌++◌, map, IfOk, OnOk};
ghost use Rattle.std.specs.List.{flat_map};
ghost use Rattle.al_core.specs.Lines.{by_words};
ghost use Rattle.al_rules.specs.Candidates as spec;

use crate::reductions::reductions;
use al_core::{Choice, CommitOrder, LoopInfo, Policy, Red, Typed, program_loops};
use al_loop_notes::{Program, program_uses};
use sqlite_items::Items;
use std::alloc::{AllocError, Global};

fn choice(
    alloc: Global,
    policy: Policy,
    order: CommitOrder,
    reds: &[Red],
) -> Result<Choice, AllocError>
    ensures { IfOk result (λ choice. choice ≡ by_words policy order reds.now) }
{
    let reds = Items::from_slice(alloc, reds)?;
    Ok(Choice::by_words(policy, order, reds))
}

fn add_both(
    alloc: Global,
    reds: &[Red],
    policy: Policy,
    list: &mut Items<Choice>,
) -> Result<(), AllocError>
    ensures { OnOk result (list.new ≡ list.old ++ spec.in_both_orders reds.now policy) }
{
    list.push(choice(alloc, policy, CommitOrder::OutOfOrder, reds)?)?;
    list.push(choice(alloc, policy, CommitOrder::InOrder, reds)?)?;
    Ok(())
}

/// Adds the choices with these reductions.
fn add(alloc: Global, reds: &[Red], list: &mut Items<Choice>) -> Result<(), AllocError>
    ensures { OnOk result (list.new ≡ list.old ++ spec.with_reductions reds.now) }
{
    add_both(alloc, reds, Policy::None, list)?;
    add_both(alloc, reds, Policy::Waw, list)?;
    add_both(alloc, reds, Policy::Raw, list)?;
    add_both(alloc, reds, Policy::Full, list)?;
    Ok(())
}

fn add_each(alloc: Global, reds: &[Red], list: &mut Items<Choice>) -> Result<(), AllocError>
    ensures { OnOk result (list.new ≡ list.old ++ flat_map spec.with_reductions (map (λ r. r ∷ []) reds.now)) }
{
    for r in reds {
        add(alloc, &[*r], list)?;
    }
    Ok(())
}

fn choices(alloc: Global, reds: &[Red]) -> Result<Items<Choice>, AllocError>
    ensures { IfOk result (λ list. list ≡ flat_map spec.with_reductions (spec.reduction_lists reds.now)) }
{
    let mut list = Items::new(alloc);
    add(alloc, &[], &mut list)?;
    add_each(alloc, reds, &mut list)?;
    if let [_, _, ..] = reds {
        add(alloc, reds, &mut list)?;
    }
    Ok(list)
}

/// The choices that are tried for a loop by its entry, in the order in which they are tried. They do not depend on its
/// written annotation.
#[tactic(auto, unfolding(al_rules::specs::Candidates::choices))]
pub fn candidates(
    alloc: Global,
    typed: &Typed,
    info: &LoopInfo,
) -> Result<Items<Choice>, AllocError>
    ensures { IfOk result (λ list. list ≡ spec.choices typed.now info.now) }
{
    let loops = program_loops(alloc, typed)?;
    let Some(l) = loops.get(info.number as usize) else {
        return Ok(Items::new(alloc));
    };
    let uses = program_uses(alloc, typed)?;
    let program = Program {
        typed,
        uses: uses.as_slice(),
    };
    let reds = reductions(alloc, &program, info, l.parts.body)?;
    choices(alloc, reds.as_slice())
}
