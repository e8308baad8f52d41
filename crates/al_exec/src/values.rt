ghost use Rattle.std.specs.Prelude.{◌≡◌, ◌+◌, ◌<◌, ◌≤◌, ◌^◌, Ok, Err, MatchResult, pos, ◌+ℤ◌, ◌*ℤ◌};
ghost use Rattle.al_core.specs.declared.view.ViewFault.TheVariants as fault;
ghost use Rattle.al_core.specs.declared.values.Obj.{Obj};
ghost use Rattle.al_core.specs.declared.values.Val.TheVariants as value;
ghost use Rattle.al_source.specs.Steps.{and_then};
ghost use Rattle.al_core.specs.Arithmetic as arithmetic;
ghost use Rattle.al_core.specs.Values as spec;
ghost use Rattle.al_code.specs.Machine.{pointer_in};
ghost use Rattle.al_code.specs.declared.instructions.Instr.TheVariants as i;
ghost use Rattle.al_exec.specs.Meets.{DidAlone};

use crate::active::Active;
use al_core::{
    BinOp, Obj, RedOp, Trap, UnOp, Val, ViewFault, binary, choose, input_at, number, operate_one,
    truth, words_of,
};
use al_values::PackedValue;

/// A value packed. There is no room for a name that no run makes.
#[inline(always)]
pub fn packed(v: Val) -> Result<PackedValue, ViewFault>
    ensures { MatchResult result (λ c. c ≡ v) (λ e. e ≡ fault.Memory) }
{
    match PackedValue::pack(v) {
        Some(c) => Ok(c),
        None => Err(ViewFault::Memory),
    }
}

/// Whether a value holds as a condition.
#[inline(always)]
pub fn holds(v: PackedValue) -> bool
    ensures { result ≡ spec.truth v }
{
    match v.int() {
        Some(n) => truth(Val::Int(n)),
        None => true,
    }
}

/// The number that a value is.
#[inline(always)]
pub fn number_in(v: PackedValue) -> Result<i64, Trap>
    ensures { result ≡ spec.number v }
{
    match v.int() {
        Some(n) => Ok(n),
        None => number(v.unpack()),
    }
}

/// The value of a binary operator on numbers. The operators of a few instructions are done in place.
#[inline(always)]
fn operated(op: BinOp, a: i64, b: i64) -> Result<i64, Trap>
    ensures { result ≡ arithmetic.operated op a b }
{
    match op {
        BinOp::Add => Ok(a.wrapping_add(b)),
        BinOp::Sub => Ok(a.wrapping_sub(b)),
        BinOp::Mul => Ok(a.wrapping_mul(b)),
        BinOp::Lt => Ok(i64::from(a < b)),
        BinOp::Le => Ok(i64::from(a <= b)),
        BinOp::Gt => Ok(i64::from(a > b)),
        BinOp::Ge => Ok(i64::from(a >= b)),
        BinOp::Eq => Ok(i64::from(a == b)),
        BinOp::Ne => Ok(i64::from(a != b)),
        BinOp::Div
        | BinOp::Rem
        | BinOp::Shl
        | BinOp::Shr
        | BinOp::BitAnd
        | BinOp::BitXor
        | BinOp::BitOr => binary(op, a, b),
    }
}

/// The value of a binary operator.
#[tactic(auto, unfolding(al_core::specs::Values::operate))]
#[inline(always)]
fn operate(op: BinOp, a: PackedValue, b: PackedValue) -> Result<PackedValue, Trap>
    ensures { result ≡ spec.operate op a b }
{
    let x = number_in(a)?;
    let y = number_in(b)?;
    Ok(PackedValue::from_int(operated(op, x, y)?))
}

/// Where a pointer leads.
#[inline(always)]
pub fn pointer(v: PackedValue) -> (Obj, u32)
    ensures { result ≡ pointer_in v }
{
    match v.unpack() {
        Val::Ptr(obj, at) => (obj, at),
        Val::Int(_) => (Obj::Global(0), 0),
    }
}

/// The offset in words to which a pointer leads.
#[tactic(auto, using(crate::proofs::Numbers::known_offset, crate::proofs::Numbers::known_no_offset))]
#[inline(always)]
fn offset_in(v: PackedValue) -> u32
    ensures { result ≡ (pointer_in v).1 }
{
    match v.offset() {
        Some(at) => at,
        None => 0,
    }
}

/// A pointer to a word of the object to which a pointer leads.
#[tactic(auto, using(crate::proofs::Numbers::known_near, crate::proofs::Numbers::known_no_near))]
#[inline(always)]
fn near(v: PackedValue, at: u32) -> Result<PackedValue, ViewFault>
    ensures { MatchResult result (λ c. c ≡ value.Ptr (pointer_in v).0 at) (λ e. e ≡ fault.Memory) }
{
    match v.with_offset(at) {
        Some(c) => Ok(c),
        None => packed(Val::Ptr(Obj::Global(0), at)),
    }
}

/// The offset of an element behind an offset.
#[inline(always)]
fn offset_behind(at: u32, n: i64, size: u32) -> Result<u32, Trap>
    ensures { MatchResult result
        (λ w. (o : Obj) → spec.offset_at o (pos at +ℤ (n *ℤ pos size)) ≡ Ok (o, w))
        (λ t. (o : Obj) → spec.offset_at o (pos at +ℤ (n *ℤ pos size)) ≡ Err t) }
{
    match u32::try_from(i128::from(at) + i128::from(n) * i128::from(size)) {
        Ok(w) => Ok(w),
        Err(_) => Err(Trap::Bounds),
    }
}

/// The offset of the element of an index behind a pointer.
#[tactic(auto, using(crate::proofs::Numbers::element_of_none))]
#[inline(always)]
fn element_offset(v: PackedValue, index: PackedValue, size: u32) -> Result<u32, Trap>
    ensures { MatchResult result
        (λ at. spec.element (pointer_in v) index size ≡ Ok ((pointer_in v).0, at))
        (λ t. spec.element (pointer_in v) index size ≡ Err t) }
{
    match number_in(index) {
        Ok(n) => offset_behind(offset_in(v), n, size),
        Err(t) => Err(t),
    }
}

/// A condition as 1 or 0.
#[inline(always)]
fn tested(condition: bool) -> PackedValue
    ensures { result ≡ spec.of_test condition }
{
    if condition {
        PackedValue::from_int(1)
    } else {
        PackedValue::from_int(0)
    }
}

/// Whether two pointers are equal, or whether they differ, as 1 or 0.
#[tactic(auto, unfolding(al_core::specs::Values::compare))]
#[inline(always)]
fn compared(equal: bool, a: PackedValue, b: PackedValue) -> PackedValue
    ensures { result ≡ spec.compare equal a b }
{
    if equal {
        tested(a.is_same(b))
    } else {
        tested(!a.is_same(b))
    }
}

#[inline(always)]
pub fn input_value(input: &[i64], index: Val) -> Result<Val, Trap>
    ensures { result ≡ and_then (spec.number index) (spec.input_at input.now) }
{
    input_at(input, number(index)?)
}

pub fn object_words(count: Val, size: u32) -> Result<u32, Trap>
    ensures { result ≡ and_then (spec.number count) (λ n. spec.words_of n size) }
{
    words_of(number(count)?, size)
}

/// Instructions that work on the stack alone.
#[tactic(auto, unfolding(al_core::specs::Action::bind, al_core::specs::Action::pure, al_core::specs::Action::lift))]
impl Active {
    #[inline(always)]
    pub fn push_number(&mut self, n: i64) -> Result<(), ViewFault>
        requires place { self.old.place + 1 < 2 ^ 64 }
        requires room { self.old.height < self.old.room }
        ensures { DidAlone (i.Push n) self.old result self.new }
    {
        self.push(PackedValue::from_int(n));
        self.advance();
        Ok(())
    }

    #[inline(always)]
    pub fn push_global(&mut self, k: u32) -> Result<(), ViewFault>
        requires place { self.old.place + 1 < 2 ^ 64 }
        requires room { self.old.height < self.old.room }
        ensures { DidAlone (i.Global k) self.old result self.new }
    {
        self.push(packed(Val::Ptr(Obj::Global(k), 0))?);
        self.advance();
        Ok(())
    }

    #[inline(always)]
    pub fn not_null(&mut self) -> Result<(), ViewFault>
        requires place { self.old.place + 1 < 2 ^ 64 }
        requires operands { 1 ≤ self.old.height }
        requires room { self.old.height ≤ self.old.room }
        ensures { DidAlone i.NotNull self.old result self.new }
    {
        let v = self.pop();
        match v.unpack() {
            Val::Ptr(_, _) => {
                self.push(v);
                self.advance();
                Ok(())
            }
            Val::Int(_) => Err(ViewFault::Trap(Trap::Null)),
        }
    }

    #[tactic(auto, unfolding(al_core::specs::Action::bind, al_core::specs::Action::pure, al_core::specs::Action::lift, al_core::specs::Values::shift))]
    #[inline(always)]
    pub fn plus(&mut self, words: u32) -> Result<(), ViewFault>
        requires place { self.old.place + 1 < 2 ^ 64 }
        requires operands { 1 ≤ self.old.height }
        requires room { self.old.height ≤ self.old.room }
        ensures { DidAlone (i.Plus words) self.old result self.new }
    {
        let v = self.pop();
        match offset_in(v).checked_add(words) {
            Some(at) => {
                self.push(near(v, at)?);
                self.advance();
                Ok(())
            }
            None => Err(ViewFault::Trap(Trap::Bounds)),
        }
    }

    #[inline(always)]
    pub fn elem(&mut self, size: u32) -> Result<(), ViewFault>
        requires place { self.old.place + 1 < 2 ^ 64 }
        requires operands { 2 ≤ self.old.height }
        requires room { self.old.height ≤ self.old.room }
        ensures { DidAlone (i.Elem size) self.old result self.new }
    {
        let index = self.pop();
        let v = self.pop();
        match element_offset(v, index, size) {
            Ok(at) => {
                self.push(near(v, at)?);
                self.advance();
                Ok(())
            }
            Err(t) => Err(ViewFault::Trap(t)),
        }
    }

    #[inline(always)]
    pub fn dup(&mut self) -> Result<(), ViewFault>
        requires place { self.old.place + 1 < 2 ^ 64 }
        requires operands { 1 ≤ self.old.height }
        requires room { self.old.height < self.old.room }
        ensures { DidAlone i.Dup self.old result self.new }
    {
        let v = self.peek();
        self.push(v);
        self.advance();
        Ok(())
    }

    #[inline(always)]
    pub fn drop_top(&mut self) -> Result<(), ViewFault>
        requires place { self.old.place + 1 < 2 ^ 64 }
        requires operands { 1 ≤ self.old.height }
        ensures { DidAlone i.Drop self.old result self.new }
    {
        self.pop();
        self.advance();
        Ok(())
    }

    #[inline(always)]
    pub fn unary(&mut self, op: UnOp) -> Result<(), ViewFault>
        requires place { self.old.place + 1 < 2 ^ 64 }
        requires operands { 1 ≤ self.old.height }
        requires room { self.old.height ≤ self.old.room }
        ensures { DidAlone (i.Unary op) self.old result self.new }
    {
        match operate_one(op, self.pop().unpack()) {
            Ok(v) => {
                self.push(packed(v)?);
                self.advance();
                Ok(())
            }
            Err(t) => Err(ViewFault::Trap(t)),
        }
    }

    #[inline(always)]
    pub fn test(&mut self) -> Result<(), ViewFault>
        requires place { self.old.place + 1 < 2 ^ 64 }
        requires operands { 1 ≤ self.old.height }
        requires room { self.old.height ≤ self.old.room }
        ensures { DidAlone i.Truth self.old result self.new }
    {
        let condition = holds(self.pop());
        self.push(tested(condition));
        self.advance();
        Ok(())
    }

    #[inline(always)]
    pub fn binary(&mut self, op: BinOp) -> Result<(), ViewFault>
        requires place { self.old.place + 1 < 2 ^ 64 }
        requires operands { 2 ≤ self.old.height }
        requires room { self.old.height ≤ self.old.room }
        ensures { DidAlone (i.Binary op) self.old result self.new }
    {
        let b = self.pop();
        let a = self.pop();
        match operate(op, a, b) {
            Ok(v) => {
                self.push(v);
                self.advance();
                Ok(())
            }
            Err(t) => Err(ViewFault::Trap(t)),
        }
    }

    #[inline(always)]
    pub fn same(&mut self, equal: bool) -> Result<(), ViewFault>
        requires place { self.old.place + 1 < 2 ^ 64 }
        requires operands { 2 ≤ self.old.height }
        requires room { self.old.height ≤ self.old.room }
        ensures { DidAlone (i.Same equal) self.old result self.new }
    {
        let b = self.pop();
        let a = self.pop();
        self.push(compared(equal, a, b));
        self.advance();
        Ok(())
    }

    #[inline(always)]
    pub fn choose(&mut self, op: RedOp) -> Result<(), ViewFault>
        requires place { self.old.place + 1 < 2 ^ 64 }
        requires operands { 2 ≤ self.old.height }
        requires room { self.old.height ≤ self.old.room }
        ensures { DidAlone (i.Choose op) self.old result self.new }
    {
        let b = self.pop();
        let a = self.pop();
        match choose(op, a.unpack(), b.unpack()) {
            Ok(v) => {
                self.push(packed(v)?);
                self.advance();
                Ok(())
            }
            Err(t) => Err(ViewFault::Trap(t)),
        }
    }
}
