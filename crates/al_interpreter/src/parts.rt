ghost use Rattle.std.specs.Prelude.{◌≡◌};
ghost use Rattle.std.specs.Option.{option_copied};
ghost use Rattle.al_source.specs.Answers.{Does};
ghost use Rattle.al_core.specs.Loops as loops;
ghost use Rattle.al_core.specs.Meaning as meaning;
ghost use Rattle.al_core.specs.declared.typed_tree.TExpr.{out-TExpr};
ghost use Rattle.al_core.specs.declared.typed_tree.TKind.{out-TKind};
ghost use Rattle.al_core.specs.declared.typed_tree.TKind.TheVariants as kind;
ghost use Rattle.al_interpreter.specs.Faults.{stopped};
ghost use Rattle.al_interpreter.specs.Flows.{flowed};
ghost use Rattle.al_interpreter.specs.Starts.{any_start};
ghost use Rattle.al_interpreter.specs.Scenes.{scene, execute_kind, test_value};

use crate::calls::Calls;
use crate::fault::Fault;
use crate::flow::Flow;
use crate::machine::Machine;
use crate::printing::{numbers, text};
use crate::walker::Walker;
use al_core::{Bound, Piece, TExpr, TKind, TStmt, Val, number as of_value};
use sqlite_items::{Boxed, Items};

/// The start of an annotated loop: the local that its first part sets, to which expression, and the line of that
/// part.
#[derive(Clone, Copy)]
pub struct Start<'a> {
    pub counter: u32,
    pub value: &'a TExpr,
    pub line: u32,
}

#[tactic(auto, using(al_core::specs::declared::typed_tree::TKind::the_lemmas))]
fn start_in(line: u32, k: &TKind) -> Option<Start<'_>>
    ensures { any_start result ≡ loops.start_in line (out-TKind k.now) }
{
    match k {
        TKind::SetLocal(k, e) => Some(Start {
            counter: *k,
            value: e,
            line,
        }),
        _ => None,
    }
}

/// A first part that sets no local is no start.
pub fn start_of(first: Option<&TStmt>) -> Option<Start<'_>>
    ensures { any_start result ≡ loops.start_of (option_copied first.entry) }
{
    let first = first?;
    start_in(first.line, &first.kind)
}

/// The statement of a part that may be absent.
pub fn part(s: &Option<Boxed<TStmt>>) -> Option<&TStmt>
    ensures { option_copied result ≡ s.now }
{
    match s {
        Some(s) => Some(s.get()),
        None => None,
    }
}

#[tactic(auto, using(al_core::specs::declared::typed_tree::TExpr::the_lemmas))]
fn bound_in(e: &TExpr) -> Bound
    ensures { result ≡ loops.bound_in (out-TExpr e.now) }
{
    match e {
        TExpr::Number(n) => Bound::Number(*n),
        TExpr::Local(k) => Bound::Local(*k),
        _ => Bound::Number(0),
    }
}

/// What an annotated loop's counter is compared with.
#[tactic(auto, using(al_core::specs::declared::typed_tree::TExpr::the_lemmas))]
fn right_side(test: &TExpr) -> Bound
    ensures { result ≡ loops.right_side (out-TExpr test.now) }
{
    match test {
        TExpr::Binary(_, _, b) => bound_in(b.get()),
        _ => Bound::Number(0),
    }
}

pub fn bound_of(test: Option<&TExpr>) -> Bound
    ensures { result ≡ loops.bound_of (option_copied test.entry) }
{
    match test {
        Some(test) => right_side(test),
        None => Bound::Number(0),
    }
}

impl<'a, C: Calls> Walker<'a, C> {
    /// A loop's test. One that is absent holds.
    #[tactic(auto, unfolding(crate::specs::Acts::bind, crate::specs::Acts::pure))]
    pub fn test(&self, m: &mut Machine<C::On>, e: Option<&TExpr>, line: u32) -> Result<Val, Fault>
        requires { C.can_call self.now.calls self.now.on.now }
        ensures { let x = scene C.On.world C.On.place C.does self.now in
            Does stopped (test_value x (option_copied e.entry) line m.old) result m.new }
    {
        match e {
            Some(e) => self.value(m, e, line),
            None => Ok(Val::Int(1)),
        }
    }

    #[tactic(auto, using(crate::proofs::Doing::kinds), unfolding(crate::specs::Acts::bind, crate::specs::Acts::pure))]
    pub fn print(
        &self,
        m: &mut Machine<C::On>,
        format: &[Piece],
        es: &[TExpr],
        line: u32,
    ) -> Result<Flow, Fault>
        requires { C.can_call self.now.calls self.now.on.now }
        ensures { let x = scene C.On.world C.On.place C.does self.now in
            Does stopped (execute_kind x (kind.Print format.now es.now) line m.old) (flowed result) m.new }
    {
        let vs = self.values(m, es, line)?;
        let read = numbers(self.alloc, vs.as_slice())?;
        let ns = m.lift(line, read)?;
        let bytes = text(self.alloc, format, ns.as_slice())?;
        m.print(self.on, bytes.as_slice())?;
        Ok(Flow::Next)
    }

    /// The bound of an annotated loop.
    #[tactic(auto, unfolding(crate::specs::Acts::bind, crate::specs::Acts::pure))]
    pub fn bound(
        &self,
        m: &mut Machine<C::On>,
        test: Option<&TExpr>,
        line: u32,
    ) -> Result<i64, Fault>
        ensures { let bound = loops.bound_of (option_copied test.entry) in
            Does stopped (meaning.bound_value (C.On.world self.now.on.now) bound line m.old) result m.new }
    {
        match bound_of(test) {
            Bound::Number(n) => Ok(n),
            Bound::Local(k) => {
                let v = m.get_local(self.on, k, line)?;
                m.lift(line, of_value(v))
            }
        }
    }
}
