ghost use Rattle.std.specs.Prelude.{◌≡◌, ℕ};
ghost use Rattle.al_source.specs.declared.source_tree.CType as ctype;
ghost use Rattle.al_rules.specs.Scopes as scopes;
ghost use Rattle.al_rules.specs.Statements as spec;
ghost use Rattle.al_types.specs.Sorts.{kept_sort, allowed_at};

use al_source::{BinOp, StmtKind};

/// A declaration without a value, one with a value, what is simple (an assignment, an update, a call, a `printf`),
/// and any other statement.
#[derive(Clone, Copy, Debug, PartialEq, Eq)]
pub enum Sort {
    Declares,
    Sets,
    Simple,
    Other,
}

/// Where a statement stands in another: the first or third part of a `for`, or a branch or a loop's body.
#[derive(Clone, Copy, Debug, PartialEq, Eq)]
pub enum Spot {
    First,
    Third,
    Body,
}

impl Spot {
    pub fn allows(self, sort: Sort) -> bool
        ensures { result ≡ allowed_at self (kept_sort sort) }
    {
        match self {
            Spot::First => matches!(sort, Sort::Sets | Sort::Simple),
            Spot::Third => matches!(sort, Sort::Simple),
            Spot::Body => matches!(sort, Sort::Simple | Sort::Other),
        }
    }
}

#[tactic(auto, using(al_rules::proofs::StatementNodes::sort_nodes))]
pub fn sort_of(kind: &StmtKind) -> Sort
    ensures { (known : scopes.Known) (func : ℕ) (gives : ctype.CType)
        → kept_sort result ≡ (spec.kind_part known func gives kind.now).sort }
{
    match kind {
        StmtKind::Declare(_, _, value) => match value {
            Some(_) => Sort::Sets,
            None => Sort::Declares,
        },
        StmtKind::Assign(_, _)
        | StmtKind::Update(_, _, _)
        | StmtKind::Call(_, _)
        | StmtKind::Print(_, _) => Sort::Simple,
        StmtKind::Empty
        | StmtKind::If(_, _, _)
        | StmtKind::While(_, _)
        | StmtKind::For(_, _, _, _, _)
        | StmtKind::Block(_)
        | StmtKind::Return(_)
        | StmtKind::Break
        | StmtKind::Continue => Sort::Other,
    }
}

/// Whether there is an update by this operator.
pub fn may_update(op: BinOp) -> bool
    ensures { result ≡ spec.may_update op }
{
    !matches!(
        op,
        BinOp::Lt | BinOp::Le | BinOp::Gt | BinOp::Ge | BinOp::Eq | BinOp::Ne
    )
}
