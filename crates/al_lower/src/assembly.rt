ghost use Rattle.std.specs.Prelude.{◌≡◌, ◌-◌, ◌++◌, length, IfOk, OnOk};
ghost use Rattle.al_lower.specs.Assembly.{instr_of, text_in, body_in, no_parts, with_planned, assembled};

use crate::backward::Backward;
use al_code::{Body, Instr};
use al_code_laws::{Op, Planned};
use al_core::Format;
use sqlite_items::Items;
use std::alloc::{AllocError, Global};

/// The lists of code that come of what is planned.
#[derive(Drop)]
pub struct Parts {
    pub instrs: Items<Instr>,
    pub lines: Items<u32>,
    pub heights: Items<u32>,
    pub texts: Items<Format>,
    pub bodies: Items<Body>,
}

/// The place that so many instructions of all follow.
pub fn place(total: u32, after: usize) -> u32
    ensures { result ≡ total - after }
{
    match u32::try_from(after) {
        Ok(after) => total.saturating_sub(after),
        Err(_) => 0,
    }
}

impl Parts {
    fn new(alloc: Global) -> Parts
        ensures { result ≡ no_parts }
    {
        Parts {
            instrs: Items::new(alloc),
            lines: Items::new(alloc),
            heights: Items::new(alloc),
            texts: Items::new(alloc),
            bodies: Items::new(alloc),
        }
    }

    /// The instruction of an operation. Its text or its body is noted.
    fn instr(&mut self, op: Op, left: usize, total: u32) -> Result<Instr, AllocError>
        ensures instr { IfOk result (λ x. x ≡ instr_of total (length self.old.texts) op) }
        ensures noted { OnOk result
            (self.new ≡ record self.old {
              texts = self.old.texts ++ text_in op;
              bodies = self.old.bodies ++ body_in total left op;
            }) }
    {
        match op {
            Op::As(x) => Ok(x),
            Op::JumpTo(to) => Ok(Instr::Jump(place(total, to))),
            Op::JumpIfTo(holds, to) => Ok(Instr::JumpIf(holds, place(total, to))),
            Op::CallOf(f, _) => Ok(Instr::Call(f)),
            Op::PrintOf(format, _) => {
                let Ok(number) = u32::try_from(self.texts.len()) else {
                    return Err(AllocError);
                };
                self.texts.push(format)?;
                Ok(Instr::Print(number))
            }
            Op::LoopTo(k, _, _, after) => {
                self.bodies.push(Body {
                    start: place(total, left),
                    end: place(total, after),
                })?;
                Ok(Instr::Loop(k))
            }
            Op::EndOf(_) => Ok(Instr::EndIteration),
            Op::Never => Ok(Instr::Return),
        }
    }

    /// One operation more, which so many follow.
    fn add(&mut self, planned: Planned, left: usize, total: u32) -> Result<(), AllocError>
        ensures { OnOk result (self.new ≡ with_planned total left planned self.old) }
    {
        let instr = self.instr(planned.op, left, total)?;
        self.instrs.push(instr)?;
        self.lines.push(planned.line)?;
        self.heights.push(planned.height)?;
        Ok(())
    }
}

/// The lists of what is planned.
pub fn assemble(alloc: Global, mut plan: Backward, total: u32) -> Result<Parts, AllocError>
    ensures { IfOk result (λ parts. parts ≡ assembled total plan no_parts) }
{
    let mut parts = Parts::new(alloc);
    while let Some(planned) = plan.take_first() {
        let left = plan.len();
        parts.add(planned, left, total)?;
    }
    Ok(parts)
}
