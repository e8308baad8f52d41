//! Small builders of typed trees. Each takes its parts as they were built, so that a tree is written as one expression.
use al_core::{
    Choice, Kind, Red, TExpr, TFunc, TGlobal, TKind, TLocal, TNote, TPlace, TStmt, Typed,
};
use al_source::{BinOp, CommitOrder, Piece, Policy, UnOp};
use sqlite_items::{Boxed, Items};
use std::alloc::{AllocError, Global};

pub type Built<T> = Result<T, AllocError>;

pub type Expr = Built<Boxed<TExpr>>;

pub type Place = Built<Boxed<TPlace>>;

pub type Stmt = Built<Boxed<TStmt>>;

pub type Notes = Built<Items<TNote>>;

pub type Program = Built<Typed>;

/// Makes the parts of a tree.
#[derive(Clone, Copy)]
pub struct Build {
    pub alloc: Global,
}

fn both<A: Drop, B: Drop>(a: Built<A>, b: Built<B>) -> Built<(A, B)> {
    let a = a?;
    Ok((a, b?))
}

fn inner<T: Drop>(part: Built<Boxed<T>>) -> Built<T> {
    Ok(part?.into_inner())
}

/// Expressions.
impl Build {
    fn expr(self, e: TExpr) -> Expr {
        Boxed::new(self.alloc, e)
    }

    pub fn number(self, n: i64) -> Expr {
        self.expr(TExpr::Number(n))
    }

    pub fn local(self, k: u32) -> Expr {
        self.expr(TExpr::Local(k))
    }

    pub fn binary(self, op: BinOp, a: Expr, b: Expr) -> Expr {
        let (a, b) = both(a, b)?;
        self.expr(TExpr::Binary(op, a, b))
    }

    pub fn minus(self, a: Expr) -> Expr {
        self.expr(TExpr::Unary(UnOp::Neg, a?))
    }

    /// `local == n`
    pub fn is(self, k: u32, n: i64) -> Expr {
        self.binary(BinOp::Eq, self.local(k), self.number(n))
    }

    /// Whether a pointer is null.
    pub fn is_null(self, e: Expr) -> Expr {
        let (a, b) = both(e, self.number(0))?;
        self.expr(TExpr::Same(true, a, b))
    }

    pub fn is_not_null(self, e: Expr) -> Expr {
        let (a, b) = both(e, self.number(0))?;
        self.expr(TExpr::Same(false, a, b))
    }

    pub fn load(self, p: Place) -> Expr {
        self.expr(TExpr::Load(Kind::Int, p?))
    }

    pub fn load_pointer(self, p: Place) -> Expr {
        self.expr(TExpr::Load(Kind::Ptr, p?))
    }

    pub fn address(self, p: Place) -> Expr {
        self.expr(TExpr::Addr(p?))
    }

    pub fn input(self, a: Expr) -> Expr {
        self.expr(TExpr::Input(a?))
    }

    pub fn calloc(self, a: Expr, words: u32) -> Expr {
        self.expr(TExpr::Calloc(a?, words))
    }

    pub fn free(self, a: Expr) -> Expr {
        self.expr(TExpr::Free(a?))
    }
}

/// Places.
impl Build {
    fn place(self, p: TPlace) -> Place {
        Boxed::new(self.alloc, p)
    }

    pub fn global(self, k: u32) -> Place {
        self.place(TPlace::Global(k))
    }

    /// Where a pointer leads.
    pub fn target(self, e: Expr) -> Place {
        self.place(TPlace::At(inner(e)?))
    }

    /// Where a local leads.
    pub fn at(self, k: u32) -> Place {
        self.place(TPlace::At(TExpr::Local(k)))
    }

    pub fn plus(self, p: Place, words: u32) -> Place {
        self.place(TPlace::Plus(p?, words))
    }

    /// A field of what a local leads to.
    pub fn field(self, k: u32, offset: u32) -> Place {
        self.plus(self.at(k), offset)
    }

    pub fn element(self, p: Place, i: Expr) -> Place {
        let (p, i) = both(p, inner(i))?;
        self.place(TPlace::Elem(p, i, 1))
    }
}

/// Statements, each with its line.
impl Build {
    fn stmt(self, line: u32, kind: TKind) -> Stmt {
        Boxed::new(self.alloc, TStmt { line, kind })
    }

    pub fn empty(self, line: u32) -> Stmt {
        self.stmt(line, TKind::Empty)
    }

    pub fn set(self, line: u32, k: u32, e: Expr) -> Stmt {
        self.stmt(line, TKind::SetLocal(k, inner(e)?))
    }

    pub fn update(self, line: u32, op: BinOp, k: u32, e: Expr) -> Stmt {
        self.stmt(line, TKind::UpdateLocal(op, k, inner(e)?))
    }

    pub fn store(self, line: u32, p: Place, e: Expr) -> Stmt {
        let (p, e) = both(inner(p), inner(e))?;
        self.stmt(line, TKind::Store(p, e))
    }

    pub fn update_at(self, line: u32, op: BinOp, p: Place, e: Expr) -> Stmt {
        let (p, e) = both(inner(p), inner(e))?;
        self.stmt(line, TKind::UpdateAt(op, p, e))
    }

    pub fn call(self, line: u32, e: Expr) -> Stmt {
        self.stmt(line, TKind::Call(inner(e)?))
    }

    pub fn if_else(self, line: u32, test: Expr, a: Stmt, b: Stmt) -> Stmt {
        let (a, b) = both(a, b)?;
        self.stmt(line, TKind::If(inner(test)?, a, Some(b)))
    }

    pub fn if_only(self, line: u32, test: Expr, a: Stmt) -> Stmt {
        let (test, a) = both(inner(test), a)?;
        self.stmt(line, TKind::If(test, a, None))
    }

    pub fn while_loop(self, line: u32, test: Expr, body: Stmt) -> Stmt {
        let (test, body) = both(inner(test), body)?;
        self.stmt(line, TKind::While(test, body))
    }

    pub fn return_zero(self, line: u32) -> Stmt {
        self.stmt(line, TKind::Return(Some(TExpr::Number(0))))
    }

    pub fn block<const N: usize>(self, line: u32, parts: [Stmt; N]) -> Stmt {
        self.stmt(line, TKind::Block(self.list(parts)?))
    }

    fn list<const N: usize>(self, parts: [Stmt; N]) -> Built<Items<TStmt>> {
        let mut all = Items::new(self.alloc);
        for part in Vec::from_array(self.alloc, parts)? {
            all.push(inner(part)?)?;
        }
        Ok(all)
    }

    /// A `for` with its first part, its test and its third part. `note` is the number of an annotated loop.
    pub fn for_loop(
        self,
        line: u32,
        head: (Stmt, Expr, Stmt),
        body: Stmt,
        note: Option<u32>,
    ) -> Stmt {
        let (first, test, third) = head;
        let (first, third) = both(first, third)?;
        let (test, body) = both(test, body)?;
        let test = Some(test.into_inner());
        self.stmt(line, TKind::For(Some(first), test, Some(third), body, note))
    }

    /// `for (counter = lo; counter < bound; counter++) body`, of which each part has the line of the loop.
    pub fn count(
        self,
        line: u32,
        counter: u32,
        range: (i64, Expr),
        body: Stmt,
        note: Option<u32>,
    ) -> Stmt {
        let (lo, bound) = range;
        let first = self.set(line, counter, self.number(lo));
        let test = self.binary(BinOp::Lt, self.local(counter), bound);
        let third = self.update(line, BinOp::Add, counter, self.number(1));
        self.for_loop(line, (first, test, third), body, note)
    }
}

/// Calls of `printf`.
impl Build {
    fn plain(self, text: &str) -> Built<Piece> {
        Ok(Piece::Plain(Items::from_slice(self.alloc, text.as_bytes())?))
    }

    /// A text without numbers.
    pub fn say(self, line: u32, text: &str) -> Stmt {
        let mut format = Items::new(self.alloc);
        format.push(self.plain(text)?)?;
        self.stmt(line, TKind::Print(format, Items::new(self.alloc)))
    }

    /// So many numbers with a blank between them, and an end.
    fn format(self, count: usize, end: &str) -> Built<Items<Piece>> {
        let mut format = Items::new(self.alloc);
        for i in 0..count {
            if i > 0 {
                format.push(self.plain(" ")?)?;
            }
            format.push(Piece::Number)?;
        }
        format.push(self.plain(end)?)?;
        Ok(format)
    }

    fn arguments<const N: usize>(self, args: [Expr; N]) -> Built<Items<TExpr>> {
        let mut all = Items::new(self.alloc);
        for arg in Vec::from_array(self.alloc, args)? {
            all.push(inner(arg)?)?;
        }
        Ok(all)
    }

    /// Numbers with a blank between them, and an end.
    pub fn print<const N: usize>(self, line: u32, args: [Expr; N], end: &str) -> Stmt {
        let (args, format) = both(self.arguments(args), self.format(N, end))?;
        self.stmt(line, TKind::Print(format, args))
    }
}

/// Programs.
impl Build {
    pub fn no_notes(self) -> Notes {
        Ok(Items::new(self.alloc))
    }

    /// The annotation of the loop at a line, whose body declares the locals from the first to below the last of
    /// `declared`.
    pub fn note(
        self,
        line: u32,
        how: (Policy, CommitOrder),
        declared: (u32, u32),
        reds: &[Red],
    ) -> Notes {
        let own = Choice::by_words(how.0, how.1, Items::from_slice(self.alloc, reds)?);
        let mut notes = Items::new(self.alloc);
        notes.push(TNote {
            func: 0,
            line,
            own,
            first: declared.0,
            last: declared.1,
        })?;
        Ok(notes)
    }

    fn globals(self, globals: &[(u32, Option<Kind>)]) -> Built<Items<TGlobal>> {
        let mut all = Items::new(self.alloc);
        for (words, scalar) in globals {
            all.push(TGlobal {
                name: Items::new(self.alloc),
                words: *words,
                scalar: *scalar,
                start: 0,
            })?;
        }
        Ok(all)
    }

    fn locals(self, kinds: &[Kind]) -> Built<Items<TLocal>> {
        let mut all = Items::new(self.alloc);
        for kind in kinds {
            all.push(TLocal {
                name: Items::new(self.alloc),
                kind: *kind,
            })?;
        }
        Ok(all)
    }

    /// `main`, as the one function of a program.
    pub fn main<const N: usize>(
        self,
        line: u32,
        locals: &[Kind],
        body: [Stmt; N],
    ) -> Built<Items<TFunc>> {
        let (locals, body) = both(self.locals(locals), self.list(body))?;
        let mut all = Items::new(self.alloc);
        all.push(TFunc {
            params: 0,
            locals,
            body,
            line,
        })?;
        Ok(all)
    }

    /// A program, of its globals by their words and kinds, its annotated loop and its `main`.
    pub fn program(
        self,
        globals: &[(u32, Option<Kind>)],
        loops: Notes,
        main: Built<Items<TFunc>>,
    ) -> Program {
        let (loops, funcs) = both(loops, main)?;
        Ok(Typed {
            globals: self.globals(globals)?,
            funcs,
            main: 0,
            loops,
            nodes: 0,
        })
    }
}
