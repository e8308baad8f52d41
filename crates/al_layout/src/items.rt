ghost use Rattle.std.specs.Prelude.{◌≡◌, sum};
ghost use Rattle.std.specs.List.{list_any};
ghost use Rattle.al_source.specs.declared.source_tree.Item.TheVariants as item;
ghost use Rattle.al_rules.specs.Layouts as spec;
ghost use Rattle.al_source.specs.Answers.{Gives, Puts, Walks};
ghost use Rattle.al_rules.specs.Faults.{laid};
ghost use Rattle.al_layout.specs.Steps.{placed, added, summed};

use crate::types::{holds, words};
use al_rules::{Layout, LayoutFault, StructLayout};
use al_source::limits::OBJECT_WORDS;
use al_source::{Field, GlobalDef, Item, Program, StructDef};
use sqlite_items::Items;
use std::alloc::Global;

fn any_holds(name: &[u8], fields: &[Field]) -> bool
    ensures { result ≡ list_any (λ f. spec.holds name.now f.ty) fields.now }
{
    fields.iter().any(|f| holds(name, &f.ty))
}

fn struct_layout(
    alloc: Global,
    structs: &[StructLayout],
    s: &StructDef,
) -> Result<StructLayout, LayoutFault>
    ensures { Gives laid (placed structs.now s.now) result }
{
    let mut offsets = Items::new(alloc);
    let mut at: u32 = 0;
    let mut fields = s.fields.as_slice();
    while let [field, rest @ ..] = fields {
        offsets.push(at)?;
        at = at.saturating_add(words(structs, &field.ty));
        if OBJECT_WORDS < at {
            return Err(LayoutFault::TooLarge(s.line));
        }
        fields = rest;
    }
    Ok(StructLayout {
        name: Items::from_slice(alloc, s.name.as_slice())?,
        words: at,
        offsets,
    })
}

fn add_struct(alloc: Global, done: &mut Layout, s: &StructDef) -> Result<(), LayoutFault>
    ensures { Puts laid (added done.old (item.Struct s.now)) result done.new }
{
    if any_holds(s.name.as_slice(), s.fields.as_slice()) {
        return Err(LayoutFault::SelfHolding(s.line));
    }
    let known = struct_layout(alloc, done.structs.as_slice(), s)?;
    done.structs.push(known)?;
    Ok(())
}

/// `total` is the words of all globals so far, and then with this one.
fn add_global(done: &mut Layout, total: u32, g: &GlobalDef) -> Result<u32, LayoutFault>
    requires { total ≡ sum done.old.globals }
    ensures { Walks laid (summed done.old (item.Global g.now)) result done.new }
{
    let words = words(done.structs.as_slice(), &g.ty);
    let total = total.saturating_add(words);
    if OBJECT_WORDS < total {
        return Err(LayoutFault::TooLarge(g.line));
    }
    done.globals.push(words)?;
    Ok(total)
}

/// The sizes of a program whose structs, and whose globals together, have at most `OBJECT_WORDS` words, or else its
/// first fault in source order.
///
/// A struct by value is known where an earlier item defines it (C99 6.7.2.3p1). One that is not known has no words.
#[tactic(auto, unfolding(al_rules::specs::Layouts::layout_of))]
pub fn layout(alloc: Global, program: &Program) -> Result<Layout, LayoutFault>
    ensures { Gives laid (spec.layout_of program.now) result }
{
    let mut done = Layout {
        structs: Items::new(alloc),
        globals: Items::new(alloc),
    };
    let mut total = 0;
    let mut items = program.items.as_slice();
    while let [item, rest @ ..] = items {
        match item {
            Item::Struct(s) => add_struct(alloc, &mut done, s)?,
            Item::Global(g) => total = add_global(&mut done, total, g)?,
            Item::Func(_) => {}
        }
        items = rest;
    }
    Ok(done)
}
