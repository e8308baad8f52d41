//! What a search for annotations found.

ghost use Rattle.std.specs.Prelude.{◌≡◌, ◌++◌, slice_get, IfOk, OnOk};
ghost use Rattle.al_report.specs.Tables as spec;

use crate::builder::Text;
use crate::lines::of_file;
use al_core::{Addr, Bytes, Choice, LoopInfo, Obj, Red, Typed};
use al_infer::{Found, Table, Why};
use al_source::{CommitOrder, Policy, RedOp};
use std::alloc::{AllocError, Global};

fn policy_name(policy: Policy) -> &'static [u8]
    ensures { result.now ≡ spec.policy_name policy }
{
    match policy {
        Policy::Full => b"FULL",
        Policy::Raw => b"RAW",
        Policy::Waw => b"WAW",
        Policy::None => b"NONE",
    }
}

fn order_name(order: CommitOrder) -> &'static [u8]
    ensures { result.now ≡ spec.order_name order }
{
    match order {
        CommitOrder::InOrder => b"InOrder",
        CommitOrder::OutOfOrder => b"OutOfOrder",
    }
}

fn operator_name(op: RedOp) -> &'static [u8]
    ensures { result.now ≡ spec.operator_name op }
{
    match op {
        RedOp::Add => b"+",
        RedOp::Mul => b"*",
        RedOp::Min => b"min",
        RedOp::Max => b"max",
        RedOp::BitAnd => b"&",
        RedOp::BitOr => b"|",
        RedOp::BitXor => b"^",
    }
}

fn why_name(why: Why) -> &'static [u8]
    ensures { result.now ≡ spec.why_name why }
{
    match why {
        Why::Output => b"output",
        Why::Conflicts => b"conflicts",
        Why::Steps => b"steps",
    }
}

fn global_name(typed: &Typed, n: u32) -> &[u8]
    ensures { result.now ≡ spec.global_name (slice_get typed.now.globals n) }
{
    match typed.globals.as_slice().get(n as usize) {
        Some(global) => global.name.as_slice(),
        None => b"",
    }
}

fn local_name(typed: &Typed, func: u32, k: u32) -> &[u8]
    ensures { result.now ≡ spec.local_of (slice_get typed.now.funcs func) k }
{
    let Some(function) = typed.funcs.as_slice().get(func as usize) else {
        return b"";
    };
    match function.locals.as_slice().get(k as usize) {
        Some(local) => local.name.as_slice(),
        None => b"",
    }
}

/// The name of a global, or of a local of the function that holds the loop.
fn variable_name(typed: &Typed, func: u32, at: Addr) -> &[u8]
    ensures { result.now ≡ spec.variable_name typed.now func at }
{
    match at {
        Addr::Word(Obj::Global(n), _) => global_name(typed, n),
        Addr::Local(k) => local_name(typed, func, k),
        _ => b"",
    }
}

impl Text {
    fn push_reduction(&mut self, typed: &Typed, func: u32, red: &Red) -> Result<(), AllocError>
        ensures { OnOk result (self.new ≡ self.old ++ spec.reduction typed.now func red.now) }
    {
        self.push(b" reduce(")?;
        self.push(operator_name(red.op))?;
        self.push(b": ")?;
        self.push(variable_name(typed, func, red.at))?;
        self.push(b")")
    }

    fn push_annotation(
        &mut self,
        typed: &Typed,
        func: u32,
        choice: &Choice,
    ) -> Result<(), AllocError>
        ensures { OnOk result (self.new ≡ self.old ++ spec.annotation typed.now func choice.now) }
    {
        self.push(policy_name(choice.policy))?;
        self.push(b" ")?;
        self.push(order_name(choice.order))?;
        for red in choice.reds.as_slice() {
            self.push_reduction(typed, func, red)?;
        }
        Ok(())
    }

    fn push_finding(&mut self, found: Found) -> Result<(), AllocError>
        ensures { OnOk result (self.new ≡ self.old ++ spec.finding_text found) }
    {
        match found {
            Found::Accepted(span) => self.push_labelled(b": accepted, span ", span),
            Found::Refused { test, why } => {
                self.push(b": ")?;
                self.push(why_name(why))?;
                self.push_labelled(b", test ", u128::from(test) + 1)
            }
        }
    }

    fn push_row(
        &mut self,
        typed: &Typed,
        func: u32,
        k: u64,
        choice: &Choice,
        found: Found,
    ) -> Result<(), AllocError>
        ensures { OnOk result (self.new ≡ self.old ++ spec.row_text typed.now func k choice.now found) }
    {
        self.push_labelled(b"candidate ", u128::from(k))?;
        self.push(b": ")?;
        self.push_annotation(typed, func, choice)?;
        self.push_finding(found)?;
        self.push(b"\n")
    }

    fn push_rows(
        &mut self,
        typed: &Typed,
        func: u32,
        choices: &[Choice],
        rows: &[Found],
    ) -> Result<(), AllocError>
        ensures { OnOk result (self.new ≡ self.old ++ spec.rows_text typed.now func 0 choices.now rows.now) }
    {
        for (k, choice) in choices.iter().enumerate() {
            let Some(row) = rows.get(k) else {
                return Ok(());
            };
            self.push_row(typed, func, k as u64, choice, *row)?;
        }
        Ok(())
    }

    fn push_best(&mut self, best: Option<u32>) -> Result<(), AllocError>
        ensures { OnOk result (self.new ≡ self.old ++ spec.best_text best) }
    {
        match best {
            Some(k) => {
                self.push_labelled(b"best ", u128::from(k))?;
                self.push(b"\n")
            }
            None => self.push(b"best none\n"),
        }
    }
}

/// The table of a search for annotations of a loop: what was found of each choice that was tried, in order, and which
/// is the best. Tests are counted from 1.
#[tactic(auto, unfolding(crate::specs::Tables::table_text))]
pub fn table_text(
    alloc: Global,
    typed: &Typed,
    info: &LoopInfo,
    choices: &[Choice],
    table: &Table,
) -> Result<Bytes, AllocError>
    ensures { IfOk result (λ t. t ≡ spec.table_text typed.now info.now.func choices.now table.now) }
{
    let mut text = Text::new(alloc);
    text.push_rows(typed, info.func, choices, table.rows.as_slice())?;
    text.push_best(table.best)?;
    Ok(text.finish())
}

/// The line about a program that has no annotated loop of the number.
pub fn no_loop_text(alloc: Global, name: &str, number: u32) -> Result<Bytes, AllocError>
    ensures { IfOk result (λ text. text ≡ spec.no_loop_text name.now number) }
{
    let mut text = Text::new(alloc);
    text.push_labelled(b"no loop ", u128::from(number))?;
    of_file(alloc, name, text.finish().as_slice())
}
