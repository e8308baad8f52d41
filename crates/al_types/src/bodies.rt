ghost use Rattle.std.specs.Prelude.{◌≡◌, OnOk};
ghost use Rattle.al_source.specs.declared.source_tree.StmtKind.TheVariants as stmt;
ghost use Rattle.al_core.specs.declared.typed_tree.TKind.TheVariants as k;
ghost use Rattle.al_source.specs.Answers.{Walks};
ghost use Rattle.al_rules.specs.Faults.{typed};
ghost use Rattle.al_rules.specs.Statements as spec;
ghost use Rattle.al_types.specs.Parts as parts;
ghost use Rattle.al_types.specs.Sorts.{allowed_at};

use crate::checker::{Checker, break_loop, continue_loop};
use crate::progress::Progress;
use crate::sorts::{Spot, sort_of};
use al_core::{Choice, TExpr, TKind, TStmt};
use al_rules::{TypeFault, TypeKind};
use al_source::{Expr, Stmt, StmtKind};
use sqlite_items::{Boxed, Items};

/// A `for` of these parts, with its number where it is annotated.
fn for_kind(
    first: Option<Boxed<TStmt>>,
    test: Option<Boxed<TExpr>>,
    third: Option<Boxed<TStmt>>,
    body: Boxed<TStmt>,
    number: Option<u32>,
) -> TKind
    ensures { result ≡ k.For first test third body number }
{
    match test {
        Some(test) => TKind::For(first, Some(test.into_inner()), third, body, number),
        None => TKind::For(first, None, third, body, number),
    }
}

#[tactic(auto, using(al_rules::proofs::StatementNodes::walk_nodes, al_type_names::proofs::ScopeLists::left_scope), unfolding(al_rules::specs::Walks::bind, al_rules::specs::Walks::pure, al_rules::specs::Walks::checks, al_rules::specs::Walks::get_scope, al_rules::specs::Walks::set_scope))]
impl<'k, 'a> Checker<'k, 'a> {
    /// A statement that stands in another.
    #[cycle(statements)]
    #[tactic(auto, using(crate::proofs::StatementRules::of_statements), unfolding(al_rules::specs::Walks::checks))]
    fn part(
        &self,
        p: &mut Progress<'a>,
        spot: Spot,
        s: &'a Stmt,
        looped: bool,
    ) -> Result<Boxed<TStmt>, TypeFault>
        ensures walks { Walks typed
            (spec.part_if (allowed_at spot)
            (spec.part self.now.known.now self.now.func self.now.gives.now s.entry.now)
            looped p.old)
            result p.new }
        ensures outer { OnOk result (p.new.scope.outer ≡ p.old.scope.outer) }
    {
        if !spot.allows(sort_of(&s.kind)) {
            return Err(TypeFault::At(TypeKind::Shape, s.line));
        }
        let t = self.statement(p, s, looped)?;
        Ok(Boxed::new(self.alloc, t)?)
    }

    #[cycle(statements)]
    fn any_part(
        &self,
        p: &mut Progress<'a>,
        spot: Spot,
        s: &'a Option<Boxed<Stmt>>,
        looped: bool,
    ) -> Result<Option<Boxed<TStmt>>, TypeFault>
        ensures walks { Walks typed
            (spec.any_part (allowed_at spot)
            (parts.any_of self.now.known.now self.now.func self.now.gives.now s.entry.now)
            looped p.old)
            result p.new }
        ensures outer { OnOk result (p.new.scope.outer ≡ p.old.scope.outer) }
    {
        match s {
            Some(s) => Ok(Some(self.part(p, spot, s.get(), looped)?)),
            None => Ok(None),
        }
    }

    #[cycle(statements)]
    #[tactic(auto, using(crate::proofs::StatementRules::of_statements), unfolding(al_rules::specs::Walks::bind, al_rules::specs::Walks::pure))]
    fn statement(&self, p: &mut Progress<'a>, s: &'a Stmt, looped: bool) -> Result<TStmt, TypeFault>
        ensures walks { Walks typed
            ((spec.part self.now.known.now self.now.func self.now.gives.now s.entry.now).walk looped p.old)
            result p.new }
        ensures outer { OnOk result (p.new.scope.outer ≡ p.old.scope.outer) }
    {
        let kind = self.kind(p, &s.kind, s.line, looped)?;
        Ok(TStmt { line: s.line, kind })
    }

    /// Statements in order.
    #[cycle(statements)]
    #[tactic(auto, using(al_type_operands::proofs::Gathered::gathered_with), unfolding(al_rules::specs::Walks::bind, al_rules::specs::Walks::pure))]
    pub fn statements(
        &self,
        p: &mut Progress<'a>,
        ss: &'a [Stmt],
        looped: bool,
    ) -> Result<Items<TStmt>, TypeFault>
        ensures walks { Walks typed
            (spec.statements self.now.known.now self.now.func self.now.gives.now looped ss.entry.now p.old)
            result p.new }
        ensures outer { OnOk result (p.new.scope.outer ≡ p.old.scope.outer) }
    {
        let mut done = Items::new(self.alloc);
        for s in ss {
            done.push(self.statement(p, s, looped)?)?;
        }
        Ok(done)
    }

    /// What stands behind a condition.
    #[cycle(statements)]
    fn tested(
        &self,
        p: &mut Progress<'a>,
        s: &'a Stmt,
        test: &Expr,
        line: u32,
        looped: bool,
    ) -> Result<(Boxed<TExpr>, Boxed<TStmt>), TypeFault>
        ensures walks { Walks typed
            (parts.tested self.now.known.now self.now.func self.now.gives.now line looped test.now
            (spec.part self.now.known.now self.now.func self.now.gives.now s.entry.now)
            p.old)
            result p.new }
        ensures outer { OnOk result (p.new.scope.outer ≡ p.old.scope.outer) }
    {
        let c = self.condition(p, test, line)?;
        let a = self.part(p, Spot::Body, s, looped)?;
        Ok((c, a))
    }

    /// The body of a loop, and the loop's number where it is annotated.
    #[cycle(statements)]
    fn looped_body(
        &self,
        p: &mut Progress<'a>,
        body: &'a Stmt,
        own: Option<Choice>,
        line: u32,
    ) -> Result<(Boxed<TStmt>, Option<u32>), TypeFault>
        ensures walks { Walks typed
            (spec.looped_body self.now.known.now self.now.func self.now.gives.now line own
            (spec.part self.now.known.now self.now.func self.now.gives.now body.entry.now)
            p.old)
            result p.new }
        ensures outer { OnOk result (p.new.scope.outer ≡ p.old.scope.outer) }
    {
        match own {
            None => Ok((self.part(p, Spot::Body, body, true)?, None)),
            Some(own) => {
                let n = p.begin_loop(self.func, line, own)?;
                let b = self.part(p, Spot::Body, body, true)?;
                p.end_loop(n)?;
                Ok((b, Some(n)))
            }
        }
    }

    #[cycle(statements)]
    fn block(
        &self,
        p: &mut Progress<'a>,
        ss: &'a [Stmt],
        line: u32,
        looped: bool,
    ) -> Result<TKind, TypeFault>
        ensures walks { Walks typed
            ((spec.kind_part self.now.known.now self.now.func self.now.gives.now (stmt.Block ss.entry.now)).walk
            line looped p.old)
            result p.new }
        ensures outer { OnOk result (p.new.scope.outer ≡ p.old.scope.outer) }
    {
        let mark = p.enter();
        let ss = self.statements(p, ss, looped)?;
        p.leave(mark);
        Ok(TKind::Block(ss))
    }

    #[cycle(statements)]
    fn kind(
        &self,
        p: &mut Progress<'a>,
        kind: &'a StmtKind,
        line: u32,
        looped: bool,
    ) -> Result<TKind, TypeFault>
        ensures walks { Walks typed
            ((spec.kind_part self.now.known.now self.now.func self.now.gives.now kind.entry.now).walk line looped p.old)
            result p.new }
        ensures outer { OnOk result (p.new.scope.outer ≡ p.old.scope.outer) }
    {
        match kind {
            StmtKind::Empty => Ok(TKind::Empty),
            StmtKind::Declare(ty, name, value) => self.declare(p, ty, name, value, line),
            StmtKind::Assign(a, b) => self.assign(p, a, b, line),
            StmtKind::Update(op, a, b) => self.update(p, *op, a, b, line),
            StmtKind::Call(name, args) => self.call(p, name.as_slice(), args.as_slice(), line),
            StmtKind::Print(format, args) => {
                self.print(p, format.as_slice(), args.as_slice(), line)
            }
            StmtKind::If(c, a, b) => {
                let (c, a) = self.tested(p, a.get(), c, line, looped)?;
                let b = self.any_part(p, Spot::Body, b, looped)?;
                Ok(TKind::If(c.into_inner(), a, b))
            }
            StmtKind::While(c, a) => {
                let (c, a) = self.tested(p, a.get(), c, line, true)?;
                Ok(TKind::While(c.into_inner(), a))
            }
            StmtKind::For(first, test, third, body, note) => {
                let own = self.choice(p, note, line)?;
                let mark = p.enter();
                let first = self.any_part(p, Spot::First, first, looped)?;
                let test = self.any_condition(p, test, line)?;
                let third = self.any_part(p, Spot::Third, third, looped)?;
                let (body, number) = self.looped_body(p, body.get(), own, line)?;
                p.leave(mark);
                Ok(for_kind(first, test, third, body, number))
            }
            StmtKind::Block(ss) => self.block(p, ss.as_slice(), line, looped),
            StmtKind::Return(value) => self.returned(p, value, line),
            StmtKind::Break => break_loop(line, looped),
            StmtKind::Continue => continue_loop(line, looped),
        }
    }
}
