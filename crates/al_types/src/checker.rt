ghost use Rattle.std.specs.Prelude.{◌≡◌, ℕ, Bool, OnOk};
ghost use Rattle.al_source.specs.declared.source_tree.CType as ctype;
ghost use Rattle.al_source.specs.declared.source_tree.StmtKind.TheVariants as stmt;
ghost use Rattle.al_core.specs.declared.typed_tree.TKind.TheVariants as k;
ghost use Rattle.al_rules.specs.declared.faults.TypeKind.TheVariants.{Outside, Unknown};
ghost use Rattle.al_rules.specs.Checks as check;
ghost use Rattle.al_source.specs.Steps.{and_then};
ghost use Rattle.al_rules.specs.Checks.{each, some_or};
ghost use Rattle.al_rules.specs.Operands as operand_spec;
ghost use Rattle.al_rules.specs.Scopes as scopes;
ghost use Rattle.al_rules.specs.Scopes.{in_scope, variable_named};
ghost use Rattle.al_rules.specs.Statements as spec;
ghost use Rattle.al_rules.specs.Walks as walks;
ghost use Rattle.al_type_names.specs.Meanings.{variable_of};
ghost use Rattle.al_source.specs.Answers.{Gives, Walks};
ghost use Rattle.al_rules.specs.Faults.{typed};
ghost use Rattle.al_type_names.specs.Steps.{kind_of};

use crate::progress::Progress;
use crate::sorts::may_update;
use al_ast::copy_format;
use al_core::{Addr, Choice, Obj, Red, TExpr, TKind};
use al_rules::{Operand, TypeFault, TypeKind};
use al_source::{BinOp, CType, Expr, LoopNote, Name, NamedRed, Piece};
use al_type_names::fault::{Fault, at_line, ensure};
use al_type_names::known::{Known, Variable};
use al_type_names::scope::Scope;
use al_type_names::types::{Role, is_int, is_void};
use al_type_operands::expressions::{call_alone, operand, operands};
use al_type_operands::operands::{fitting, integer, scalar};
use al_type_operands::places::boxed_place;
use al_type_operands::queue::Queue;
use sqlite_items::{Boxed, Items};
use std::alloc::Global;

/// What checks the body of the function of this number, which gives a value of this type.
#[derive(Clone, Copy)]
pub struct Checker<'k, 'a> {
    pub alloc: Global,
    pub known: &'k Known<'a>,
    pub func: u32,
    pub gives: &'a CType,
}

fn is_place(x: &Operand) -> bool
    ensures { result ≡ spec.is_place x.now }
{
    match x {
        Operand::Variable(_, _) | Operand::Place(_, _) => true,
        Operand::Literal(_) | Operand::Null | Operand::Value(_, _) => false,
    }
}

/// An assignment to what an operand is.
fn assigned(alloc: Global, to: Boxed<Operand>, value: Boxed<Operand>) -> Result<TKind, Fault>
    ensures { Gives kind_of (spec.assigned to value) result }
{
    match to.into_inner() {
        Operand::Variable(n, ty) => Ok(TKind::SetLocal(
            n,
            fitting(alloc, &ty, value)?.into_inner(),
        )),
        Operand::Place(ty, q) => {
            let (ty, q) = boxed_place(alloc, ty, q)?;
            let x = fitting(alloc, ty.get(), value)?;
            Ok(TKind::Store(q.into_inner(), x.into_inner()))
        }
        Operand::Literal(_) | Operand::Null | Operand::Value(_, _) => {
            Err(Fault::Kind(TypeKind::NotPlace))
        }
    }
}

/// An update of an integer.
fn updated(
    alloc: Global,
    op: BinOp,
    to: Boxed<Operand>,
    value: Boxed<Operand>,
) -> Result<TKind, Fault>
    ensures { Gives kind_of (spec.updated op to value) result }
{
    match to.into_inner() {
        Operand::Variable(n, ty) => {
            ensure(is_int(&ty), TypeKind::Mismatch)?;
            let x = integer(alloc, value)?;
            Ok(TKind::UpdateLocal(op, n, x.into_inner()))
        }
        Operand::Place(ty, q) => {
            let (ty, q) = boxed_place(alloc, ty, q)?;
            ensure(is_int(ty.get()), TypeKind::Mismatch)?;
            let x = integer(alloc, value)?;
            Ok(TKind::UpdateAt(op, q.into_inner(), x.into_inner()))
        }
        Operand::Literal(_) | Operand::Null | Operand::Value(_, _) => {
            Err(Fault::Kind(TypeKind::NotPlace))
        }
    }
}

/// A reduction variable is an integer.
fn variable_at(v: Variable<'_>) -> Result<Addr, Fault>
    ensures { Gives kind_of (spec.variable_at (variable_of v.entry)) result }
{
    match v {
        Variable::Local(n, ty) => {
            ensure(is_int(ty), TypeKind::Mismatch)?;
            Ok(Addr::Local(n))
        }
        Variable::Global(n, ty) => {
            ensure(is_int(ty), TypeKind::Mismatch)?;
            Ok(Addr::Word(Obj::Global(n), 0))
        }
    }
}

fn reduced<'a>(known: &Known<'a>, scope: &Scope<'a>, name: &[u8]) -> Result<Addr, Fault>
    ensures { Gives kind_of
        (and_then
        (some_or (variable_named known.now (in_scope scope.now) name.now) Unknown)
        spec.variable_at)
        result }
{
    match known.variable_named(scope, name) {
        Some(v) => variable_at(v),
        None => Err(Fault::Kind(TypeKind::Unknown)),
    }
}

/// How many arguments a text prints.
fn numbers_in(format: &[Piece]) -> usize
    ensures { result ≡ spec.numbers_in format.now }
{
    format
        .iter()
        .filter(|piece| matches!(piece, Piece::Number))
        .count()
}

#[tactic(auto, using(al_type_operands::proofs::Gathered::gathered))]
fn integers(alloc: Global, mut xs: Queue<Boxed<Operand>>) -> Result<Items<TExpr>, Fault>
    ensures { Gives kind_of (each operand_spec.integer xs) result }
{
    let mut done = Items::new(alloc);
    while let Some(x) = xs.take() {
        done.push(integer(alloc, x)?.into_inner())?;
    }
    Ok(done)
}

/// A `break` or `continue` stands in a loop.
fn in_loop(line: u32, looped: bool) -> Result<(), TypeFault>
    ensures { Gives typed (walks.at_line line (check.ensure looped Outside)) result }
{
    at_line(line, ensure(looped, TypeKind::Outside))
}

#[tactic(auto, unfolding(al_rules::specs::Walks::bind, al_rules::specs::Walks::pure, al_rules::specs::Walks::checks))]
pub fn break_loop(line: u32, looped: bool) -> Result<TKind, TypeFault>
    ensures { (known : scopes.Known) (func : ℕ) (gives : ctype.CType) (s : walks.Progress)
        → Walks typed (spec.leave known func gives line looped k.Break s) result s }
{
    in_loop(line, looped)?;
    Ok(TKind::Break)
}

#[tactic(auto, unfolding(al_rules::specs::Walks::bind, al_rules::specs::Walks::pure, al_rules::specs::Walks::checks))]
pub fn continue_loop(line: u32, looped: bool) -> Result<TKind, TypeFault>
    ensures { (known : scopes.Known) (func : ℕ) (gives : ctype.CType) (s : walks.Progress)
        → Walks typed (spec.leave known func gives line looped k.Continue s) result s }
{
    in_loop(line, looped)?;
    Ok(TKind::Continue)
}

#[tactic(auto, using(al_rules::proofs::StatementNodes::walk_nodes), unfolding(al_rules::specs::Walks::bind, al_rules::specs::Walks::pure, al_rules::specs::Walks::checks))]
impl<'k, 'a> Checker<'k, 'a> {
    /// What an expression in a statement of this line is.
    pub fn operand(
        &self,
        p: &Progress<'a>,
        x: &Expr,
        line: u32,
    ) -> Result<Boxed<Operand>, TypeFault>
        ensures { Walks typed
            (spec.operand_of self.now.known.now self.now.func self.now.gives.now line x.now p.now)
            result p.now }
    {
        at_line(line, operand(self.alloc, self.known, p.scope(), x))
    }

    fn operands(
        &self,
        p: &Progress<'a>,
        xs: &[Expr],
        line: u32,
    ) -> Result<Queue<Boxed<Operand>>, TypeFault>
        ensures { Walks typed
            (spec.operands_of self.now.known.now self.now.func self.now.gives.now line xs.now p.now)
            result p.now }
    {
        at_line(line, operands(self.alloc, self.known, p.scope(), xs))
    }

    /// An integer or a pointer.
    pub fn condition(
        &self,
        p: &Progress<'a>,
        x: &Expr,
        line: u32,
    ) -> Result<Boxed<TExpr>, TypeFault>
        ensures { Walks typed
            (spec.condition self.now.known.now self.now.func self.now.gives.now line x.now p.now)
            result p.now }
    {
        let c = self.operand(p, x, line)?;
        at_line(line, scalar(self.alloc, c))
    }

    pub fn any_condition(
        &self,
        p: &Progress<'a>,
        x: &Option<Expr>,
        line: u32,
    ) -> Result<Option<Boxed<TExpr>>, TypeFault>
        ensures { Walks typed
            (spec.any_condition self.now.known.now self.now.func self.now.gives.now line x.now p.now)
            result p.now }
    {
        match x {
            Some(x) => Ok(Some(self.condition(p, x, line)?)),
            None => Ok(None),
        }
    }

    /// A declaration without a value is 0, or null.
    fn initial(
        &self,
        p: &Progress<'a>,
        ty: &CType,
        value: &Option<Expr>,
        line: u32,
    ) -> Result<Boxed<TExpr>, TypeFault>
        ensures { Walks typed
            (spec.initial self.now.known.now self.now.func self.now.gives.now line ty.now value.now p.now)
            result p.now }
    {
        match value {
            Some(v) => {
                let y = self.operand(p, v, line)?;
                at_line(line, fitting(self.alloc, ty, y))
            }
            None => Ok(Boxed::new(self.alloc, TExpr::Number(0))?),
        }
    }

    /// The name is new in its scope, and it is in scope in its own initializer (C99 6.2.1p7).
    pub fn declare(
        &self,
        p: &mut Progress<'a>,
        ty: &'a CType,
        name: &'a Name,
        value: &Option<Expr>,
        line: u32,
    ) -> Result<TKind, TypeFault>
        ensures walks { Walks typed
            (spec.declare self.now.known.now self.now.func self.now.gives.now
            line ty.entry.now name.entry.now value.now p.old)
            result p.new }
        ensures outer { OnOk result (p.new.scope.outer ≡ p.old.scope.outer) }
    {
        let is_new = !p.scope().declares(name.as_slice());
        at_line(line, ensure(is_new, TypeKind::Twice))?;
        at_line(line, self.known.check_type(Role::Local, ty))?;
        let n = p.add_local(self.alloc, name.as_slice(), ty)?;
        let y = self.initial(p, ty, value, line)?;
        Ok(TKind::SetLocal(n, y.into_inner()))
    }

    /// An assignment: the place, and then its value (C99 6.5.16.1).
    pub fn assign(
        &self,
        p: &Progress<'a>,
        a: &Expr,
        b: &Expr,
        line: u32,
    ) -> Result<TKind, TypeFault>
        ensures { (looped : Bool) → Walks typed
            ((spec.kind_part self.now.known.now self.now.func self.now.gives.now (stmt.Assign a.now b.now)).walk
            line looped p.now)
            result p.now }
    {
        let to = self.operand(p, a, line)?;
        at_line(line, ensure(is_place(to.get()), TypeKind::NotPlace))?;
        let value = self.operand(p, b, line)?;
        at_line(line, assigned(self.alloc, to, value))
    }

    /// An update of an integer (C99 6.5.16.2).
    pub fn update(
        &self,
        p: &Progress<'a>,
        op: BinOp,
        a: &Expr,
        b: &Expr,
        line: u32,
    ) -> Result<TKind, TypeFault>
        ensures { (looped : Bool) → Walks typed
            ((spec.kind_part self.now.known.now self.now.func self.now.gives.now (stmt.Update op a.now b.now)).walk
            line looped p.now)
            result p.now }
    {
        at_line(line, ensure(may_update(op), TypeKind::Shape))?;
        let of = self.operand(p, a, line)?;
        at_line(line, ensure(is_place(of.get()), TypeKind::NotPlace))?;
        let by = self.operand(p, b, line)?;
        at_line(line, updated(self.alloc, op, of, by))
    }

    /// A call as a statement.
    pub fn call(
        &self,
        p: &Progress<'a>,
        name: &[u8],
        args: &[Expr],
        line: u32,
    ) -> Result<TKind, TypeFault>
        ensures { (looped : Bool) → Walks typed
            ((spec.kind_part self.now.known.now self.now.func self.now.gives.now (stmt.Call name.now args.now)).walk
            line looped p.now)
            result p.now }
    {
        let x = at_line(
            line,
            call_alone(self.alloc, self.known, p.scope(), name, args),
        )?;
        Ok(TKind::Call(x.into_inner()))
    }

    /// A `printf`, which has as many arguments as its text prints, each an integer.
    pub fn print(
        &self,
        p: &Progress<'a>,
        format: &[Piece],
        args: &[Expr],
        line: u32,
    ) -> Result<TKind, TypeFault>
        ensures { (looped : Bool) → Walks typed
            ((spec.kind_part self.now.known.now self.now.func self.now.gives.now (stmt.Print format.now args.now)).walk
            line looped p.now)
            result p.now }
    {
        let xs = self.operands(p, args, line)?;
        at_line(
            line,
            ensure(xs.len() == numbers_in(format), TypeKind::Count),
        )?;
        let ns = at_line(line, integers(self.alloc, xs))?;
        Ok(TKind::Print(copy_format(self.alloc, format)?, ns))
    }

    /// A `return`, whose value has the type that the function gives (C99 6.8.6.4).
    pub fn returned(
        &self,
        p: &Progress<'a>,
        value: &Option<Expr>,
        line: u32,
    ) -> Result<TKind, TypeFault>
        ensures { Walks typed
            (spec.returned self.now.known.now self.now.func self.now.gives.now line value.now p.now)
            result p.now }
    {
        match value {
            None => {
                at_line(line, ensure(is_void(self.gives), TypeKind::Return))?;
                Ok(TKind::Return(None))
            }
            Some(v) => {
                let y = self.operand(p, v, line)?;
                at_line(line, ensure(!is_void(self.gives), TypeKind::Return))?;
                let x = at_line(line, fitting(self.alloc, self.gives, y))?;
                Ok(TKind::Return(Some(x.into_inner())))
            }
        }
    }

    /// Where a reduction variable is.
    fn reduced(&self, p: &Progress<'a>, name: &[u8], line: u32) -> Result<Addr, TypeFault>
        ensures { Walks typed
            (walks.checks line
            (λ scope. and_then
            (some_or (variable_named self.now.known.now (in_scope scope) name.now) Unknown)
            spec.variable_at)
            p.now)
            result p.now }
    {
        at_line(line, reduced(self.known, p.scope(), name))
    }

    fn reduction(&self, p: &Progress<'a>, r: &NamedRed, line: u32) -> Result<Red, TypeFault>
        ensures { Walks typed
            (spec.reduction self.now.known.now self.now.func self.now.gives.now line r.now p.now)
            result p.now }
    {
        let at = self.reduced(p, r.name.as_slice(), line)?;
        Ok(Red { op: r.op, at })
    }

    #[tactic(auto, using(al_type_operands::proofs::Gathered::gathered_with), unfolding(al_rules::specs::Walks::bind, al_rules::specs::Walks::pure))]
    fn reductions(
        &self,
        p: &Progress<'a>,
        mut rs: &[NamedRed],
        line: u32,
    ) -> Result<Items<Red>, TypeFault>
        ensures { Walks typed
            (spec.reductions self.now.known.now self.now.func self.now.gives.now line rs.entry.now p.now)
            result p.now }
    {
        let mut done = Items::new(self.alloc);
        while let [r, rest @ ..] = rs {
            done.push(self.reduction(p, r, line)?)?;
            rs = rest;
        }
        Ok(done)
    }

    /// The choice that an annotation writes.
    pub fn choice(
        &self,
        p: &Progress<'a>,
        note: &Option<LoopNote>,
        line: u32,
    ) -> Result<Option<Choice>, TypeFault>
        ensures { Walks typed
            (spec.choice_of self.now.known.now self.now.func self.now.gives.now line note.now p.now)
            result p.now }
    {
        match note {
            Some(note) => {
                let reds = self.reductions(p, note.reduce.as_slice(), line)?;
                Ok(Some(Choice::by_words(note.policy, note.order, reds)))
            }
            None => Ok(None),
        }
    }
}
