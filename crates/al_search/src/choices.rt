//! Lists of choices, one for each loop of a program.
ghost use Rattle.std.specs.Prelude.{◌≡◌, IfOk, map, slice_set};
ghost use Rattle.al_core.specs.Lines.{with_line};
ghost use Rattle.al_runs_laws.specs.Accepted.{unannotated};
ghost use Rattle.al_search.specs.Search as spec;

use al_core::{Choice, LoopInfo};
use sqlite_items::Items;
use std::alloc::{AllocError, Global};

/// A choice for the loop of a number, or none, and no choice for any other loop.
pub fn choices_for(
    alloc: Global,
    infos: &[LoopInfo],
    number: u32,
    choice: Option<Choice>,
) -> Result<Vec<Option<Choice>>, AllocError>
    ensures { IfOk result (λ cs. cs.items ≡ spec.choices_for infos.now number choice) }
{
    let mut choices = no_choices(alloc, infos)?;
    set(choices.as_mut_slice(), number as usize, choice);
    Ok(choices)
}

/// No choice, for each loop.
pub fn no_choices(alloc: Global, infos: &[LoopInfo]) -> Result<Vec<Option<Choice>>, AllocError>
    ensures { IfOk result (λ cs. cs.items ≡ unannotated infos.now) }
{
    let mut choices = Vec::with_capacity(alloc, infos.len())?;
    for _ in infos {
        choices.push(None)?;
    }
    Ok(choices)
}

fn set(choices: &mut [Option<Choice>], place: usize, choice: Option<Choice>)
    ensures { choices.new ≡ slice_set choices.old place choice }
{
    if place < choices.len() {
        choices[place] = choice;
    }
}

/// A choice with lines of so many words.
pub fn with_line(alloc: Global, line: u32, choice: &Choice) -> Result<Choice, AllocError>
    ensures { IfOk result (λ c. c ≡ with_line line choice.now) }
{
    Ok(Choice {
        policy: choice.policy,
        order: choice.order,
        reds: Items::from_slice(alloc, choice.reds.as_slice())?,
        line,
    })
}

/// The choices, each with lines of so many words.
pub fn with_lines(alloc: Global, line: u32, list: &[Choice]) -> Result<Items<Choice>, AllocError>
    ensures { IfOk result (λ cs. cs ≡ map (with_line line) list.now) }
{
    let mut lined = Items::new(alloc);
    for choice in list {
        lined.push(with_line(alloc, line, choice)?)?;
    }
    Ok(lined)
}
