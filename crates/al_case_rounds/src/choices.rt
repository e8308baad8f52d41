//! What a row of options says of a loop and of a run.
ghost use Rattle.std.specs.Prelude.{IfOk, IfSome, OnOk};
ghost use Rattle.al_core.specs.Limits.{AreInRange};
ghost use Rattle.al_core.specs.Lines.{IsLineSize};
ghost use Rattle.al_engine.specs.Jobs.{HaveLineSizes};

use al_case_sources::{Row, Trial};
use al_core::{Choice, Knobs, LoopInfo, is_line_size};
use sqlite_items::Items;
use std::alloc::{AllocError, Global};

/// The words of a line, or 1 where they are none.
fn line_of(words: u32) -> u32
    ensures { IsLineSize result }
{
    if is_line_size(words) { words } else { 1 }
}

/// A loop's choice by a row, with the reductions of its own annotation.
pub fn choice_of(alloc: Global, info: &LoopInfo, row: &Row) -> Result<Choice, AllocError>
    ensures { IfOk result (λ c. IsLineSize c.line) }
{
    Ok(Choice {
        policy: row.policy,
        order: row.order,
        reds: Items::from_slice(alloc, info.own.reds.as_slice())?,
        line: line_of(row.line),
    })
}

/// A loop's choice by a row, or none without a row.
fn choice_by(
    alloc: Global,
    info: &LoopInfo,
    row: Option<&Row>,
) -> Result<Option<Choice>, AllocError>
    ensures { IfOk result (λ choice. IfSome choice (λ c. IsLineSize c.line)) }
{
    match row {
        Some(row) => Ok(Some(choice_of(alloc, info, row)?)),
        None => Ok(None),
    }
}

#[tactic(auto, using(crate::proofs::LineSizes::one_more_has))]
fn push_choice(all: &mut Items<Option<Choice>>, choice: Option<Choice>) -> Result<(), AllocError>
    requires one { IfSome choice (λ c. IsLineSize c.line) }
    requires before { HaveLineSizes all.old }
    ensures { OnOk result (HaveLineSizes all.new) }
{
    all.push(choice)
}

/// For each loop its choice by a row, or none without a row.
#[tactic(auto, using(crate::proofs::LineSizes::none_has))]
pub fn choices_of(
    alloc: Global,
    infos: &[LoopInfo],
    row: Option<&Row>,
) -> Result<Items<Option<Choice>>, AllocError>
    ensures { IfOk result (λ choices. HaveLineSizes choices) }
{
    let mut all = Items::new(alloc);
    for info in infos {
        push_choice(&mut all, choice_by(alloc, info, row)?)?;
    }
    Ok(all)
}

/// The numbers of a run, brought into their ranges.
pub fn knobs_of(row: &Row, trial: &Trial<'_>) -> Knobs
    ensures { AreInRange result }
{
    Knobs {
        lanes: row.lanes.clamp(1, 64),
        chunk: row.chunk.clamp(1, 65_536),
        threads: row.threads.clamp(1, 64),
        line: line_of(row.line),
        iter_steps: trial.iter_steps.clamp(1, 1_000_000_000),
        serial_steps: trial.serial_steps.clamp(1, 1_000_000_000),
    }
}
