ghost use Rattle.std.specs.Prelude.{◌≡◌, ◌<◌, ◌-◌, [], ◌∷◌, length, slice_set, OnOk};
ghost use Rattle.al_code_laws.specs.declared.plan.Op.TheVariants.{PrintOf};
ghost use Rattle.al_code_laws.specs.Planned.{planned};
ghost use Rattle.al_lower.specs.Assembly.{TakesFirst};

use al_ast::copy_format;
use al_code_laws::{Op, Planned};
use al_core::Format;
use std::alloc::{AllocError, Global};
use std::marker::Model;

/// A list of what is planned, that grows at its front.
#[derive(Drop)]
pub struct Backward {
    alloc: Global,
    items: Vec<Planned>,
}

impl Model for Backward {
    ghost use Rattle.std.specs.Prelude.{List, reverse};
    ghost use Rattle.al_code_laws.specs.declared.plan.Planned.{Planned};

    ghost Value = { List Planned };

    ghost view = { λ b. reverse b.items.items };
}

impl Backward {
    pub fn new(alloc: Global) -> Backward
        ensures { result ≡ [] }
    {
        Backward {
            alloc,
            items: Vec::new(alloc),
        }
    }

    /// Writes an operation in front.
    pub fn put(&mut self, op: Op, line: u32, height: u32) -> Result<(), AllocError>
        ensures { OnOk result (self.new ≡ planned op line height ∷ self.old) }
    {
        self.items.push(Planned { op, line, height })?;
        Ok(())
    }

    /// Writes the printing of a text with so many arguments.
    pub fn put_print(
        &mut self,
        format: &Format,
        count: usize,
        line: u32,
        height: u32,
    ) -> Result<(), AllocError>
        ensures { OnOk result (self.new ≡ planned (PrintOf format.now count) line height ∷ self.old) }
    {
        let format = copy_format(self.alloc, format.as_slice())?;
        self.put(Op::PrintOf(format, count), line, height)
    }

    /// How many operations there are.
    pub fn len(&self) -> usize
        ensures { result ≡ length self.now }
    {
        self.items.len()
    }

    /// Writes over the operation that so many follow.
    pub fn replace(&mut self, after: usize, op: Op, line: u32, height: u32)
        requires { after < length self.old }
        ensures { self.new ≡ slice_set self.old (length self.old - 1 - after) (planned op line height) }
    {
        self.items[after] = Planned { op, line, height };
    }

    /// Takes the first operation.
    pub fn take_first(&mut self) -> Option<Planned>
        ensures { TakesFirst self.old result self.new }
    {
        self.items.pop()
    }
}
