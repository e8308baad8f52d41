ghost use Rattle.std.specs.Prelude.{◌≡◌, ◌≤◌, [], ◌∷◌, ◌++◌, length, Ok, IfOk, OnOk};
ghost use Rattle.al_rules.specs.Walks as spec;

use al_core::{Choice, Kind, TLocal, TNote};
use al_source::CType;
use al_type_names::fault::number;
use al_type_names::scope::{Binding, Scope};
use al_type_names::types::kind_of;
use sqlite_items::Items;
use std::alloc::{AllocError, Global};
use std::marker::Model;

/// What the walk over a function has found so far: the names in scope, the locals,
/// and the annotated loops of the program.
#[derive(Drop)]
pub struct Progress<'a> {
    scope: Scope<'a>,
    locals: Items<TLocal>,
    loops: Vec<TNote>,
}

impl<'a> Model for Progress<'a> {
    ghost use Rattle.std.specs.Coded.{codes};
    ghost use Rattle.al_source.specs.contracts.source_tree.CType as ctype;
    ghost use Rattle.al_core.specs.contracts.typed_tree.TLocal as local;
    ghost use Rattle.al_core.specs.contracts.typed_tree.TNote as note;
    ghost use Rattle.al_rules.specs.Walks.{Progress};

    ghost Value = { Progress };

    ghost coded = { Prim.hlevel (codes, ctype.the_row.coded, local.the_row.coded, note.the_row.coded) };

    ghost view = { λ p. record { scope = p.scope; locals = p.locals; loops = p.loops.items } };
}

fn push(loops: &mut Vec<TNote>, note: TNote) -> Result<(), AllocError>
    ensures { OnOk result (loops.new.items ≡ loops.old.items ++ note ∷ []) }
{
    loops.push(note)?;
    Ok(())
}

impl<'a> Progress<'a> {
    ghost use Rattle.al_rules.specs.Scopes as scopes;
    ghost use Rattle.al_type_names.specs.Bindings.{without_inner};

    /// No names and locals yet, and the annotated loops of earlier functions.
    pub fn new(alloc: Global, loops: Vec<TNote>) -> Progress<'a>
        ensures { result ≡ record { scope = scopes.no_scope; locals = []; loops = loops.items } }
    {
        Progress {
            scope: Scope::new(alloc),
            locals: Items::new(alloc),
            loops,
        }
    }

    pub fn scope(&self) -> &Scope<'a>
        ensures { result.now ≡ self.now.scope }
    {
        &self.scope
    }

    /// The locals, and the annotated loops.
    pub fn into_parts(self) -> (Items<TLocal>, Vec<TNote>)
        ensures { (result.0 ≡ self.entry.locals) × (result.1.items ≡ self.entry.loops) }
    {
        let Progress {
            scope: _,
            locals,
            loops,
        } = self;
        (locals, loops)
    }

    /// One more local, which hides what had its name. Its number.
    #[tactic(auto, unfolding(al_rules::specs::Walks::add_local))]
    pub fn add_local(
        &mut self,
        alloc: Global,
        name: &'a [u8],
        ty: &'a CType,
    ) -> Result<u32, AllocError>
        ensures walks { IfOk result (λ n. spec.add_local name.entry.now ty.entry.now self.old ≡ Ok (n, self.new)) }
        ensures outer { OnOk result (self.new.scope.outer ≡ self.old.scope.outer) }
    {
        let number = number(self.locals.len())?;
        let local = TLocal {
            name: Items::from_slice(alloc, name)?,
            kind: kind_of(ty).unwrap_or(Kind::Int),
        };
        self.locals.push(local)?;
        self.scope.declare(Binding { name, number, ty })?;
        Ok(number)
    }

    /// One more annotated loop, whose body's locals begin here. Its number.
    #[tactic(auto, unfolding(al_rules::specs::Walks::begin_loop))]
    pub fn begin_loop(&mut self, func: u32, line: u32, own: Choice) -> Result<u32, AllocError>
        ensures walks { IfOk result (λ n. spec.begin_loop func line own self.old ≡ Ok (n, self.new)) }
        ensures scope { self.new.scope ≡ self.old.scope }
    {
        let first = number(self.locals.len())?;
        let number = number(self.loops.len())?;
        let note = TNote {
            func,
            line,
            own,
            first,
            last: first,
        };
        push(&mut self.loops, note)?;
        Ok(number)
    }

    /// The locals of the loop's body end here.
    #[tactic(auto, unfolding(al_rules::specs::Walks::end_loop))]
    pub fn end_loop(&mut self, loop_number: u32) -> Result<(), AllocError>
        ensures walks { IfOk result (λ u. spec.end_loop loop_number self.old ≡ Ok (u, self.new)) }
        ensures scope { self.new.scope ≡ self.old.scope }
    {
        let last = number(self.locals.len())?;
        if let Some(note) = self.loops.get_mut(loop_number as usize) {
            note.last = last;
        }
        Ok(())
    }

    /// Begins a scope within this one, which `leave` takes back to.
    pub fn enter(&mut self) -> usize
        ensures inside { self.new ≡ record self.old { scope = scopes.nested self.old.scope } }
        ensures mark { result ≡ length self.old.scope.outer }
    {
        self.scope.enter()
    }

    /// Ends the innermost scope. The one around it begins behind so many names.
    pub fn leave(&mut self, mark: usize)
        requires { mark ≤ length self.old.scope.outer }
        ensures { self.new ≡ record self.old { scope = without_inner mark self.old.scope } }
    {
        self.scope.leave(mark);
    }
}
