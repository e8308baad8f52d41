ghost use Rattle.std.specs.Prelude.{◌≡◌, IfOk};

use al_core::{Choice, LoopInfo, TGlobal};
use sqlite_items::Items;
use std::alloc::{AllocError, Global};

fn copy_global(alloc: Global, global: &TGlobal) -> Result<TGlobal, AllocError>
    ensures { IfOk result (λ g. g ≡ global.now) }
{
    Ok(TGlobal {
        name: Items::from_slice(alloc, global.name.as_slice())?,
        words: global.words,
        scalar: global.scalar,
        start: global.start,
    })
}

/// The same globals.
pub fn copy_globals(alloc: Global, globals: &[TGlobal]) -> Result<Items<TGlobal>, AllocError>
    ensures { IfOk result (λ gs. gs ≡ globals.now) }
{
    let mut copy = Items::new(alloc);
    for global in globals {
        copy.push(copy_global(alloc, global)?)?;
    }
    Ok(copy)
}

fn copy_choice(alloc: Global, choice: &Choice) -> Result<Choice, AllocError>
    ensures { IfOk result (λ c. c ≡ choice.now) }
{
    Ok(Choice {
        policy: choice.policy,
        order: choice.order,
        reds: Items::from_slice(alloc, choice.reds.as_slice())?,
        line: choice.line,
    })
}

fn copy_info(alloc: Global, info: &LoopInfo) -> Result<LoopInfo, AllocError>
    ensures { IfOk result (λ i. i ≡ info.now) }
{
    Ok(LoopInfo {
        number: info.number,
        func: info.func,
        line: info.line,
        counter: info.counter,
        bound: info.bound,
        first: info.first,
        last: info.last,
        own: copy_choice(alloc, &info.own)?,
    })
}

/// The same entries of annotated loops.
pub fn copy_infos(alloc: Global, infos: &[LoopInfo]) -> Result<Items<LoopInfo>, AllocError>
    ensures { IfOk result (λ is. is ≡ infos.now) }
{
    let mut copy = Items::new(alloc);
    for info in infos {
        copy.push(copy_info(alloc, info)?)?;
    }
    Ok(copy)
}
