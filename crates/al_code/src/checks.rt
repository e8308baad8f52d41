ghost use Rattle.std.specs.Prelude.{◌≡◌, suc, ◌-◌, ◌<◌, ◌&&◌, [], ◌∷◌, length, slice_get, IsTrue, ◌↔◌};
ghost use Rattle.std.specs.List.{list_all};
ghost use Rattle.al_code.specs.Checks as spec;
ghost use Rattle.al_code.specs.Machine.{holes};
ghost use Rattle.al_code.specs.Valid as valid;
ghost use Rattle.al_code.specs.Valid.{IsValid};

use crate::instructions::Instr;
use crate::lowered::{Body, Code, Entry};
use al_core::{Bound, LoopInfo, Piece};

/// What is wanted of a place: that the stack has a height there, or that it is one of a function's.
#[derive(Clone, Copy)]
pub enum Want {
    Height(u64),
    Inside(Entry),
}

/// How many numbers a text prints.
#[tactic(auto, using(crate::proofs::Holes::holes_counted))]
fn holes(pieces: &[Piece]) -> usize
    ensures { result ≡ holes pieces.now }
{
    pieces
        .iter()
        .filter(|piece| matches!(piece, Piece::Number))
        .count()
}

impl Code {
    /// How many values an instruction takes from the stack.
    fn takes(&self, x: Instr) -> u64
        ensures { result ≡ valid.takes self.now x }
    {
        match x {
            Instr::Push(_) | Instr::GetLocal(_) | Instr::Global(_) | Instr::Jump(_) => 0,
            Instr::Inputs | Instr::Step | Instr::EndIteration => 0,
            Instr::SetLocal(_) | Instr::NotNull | Instr::Plus(_) | Instr::Load(_) | Instr::Dup => 1,
            Instr::Drop | Instr::Unary(_) | Instr::Truth | Instr::JumpIf(_, _) | Instr::Return => 1,
            Instr::Input | Instr::Calloc(_) | Instr::Free | Instr::Loop(_) => 1,
            Instr::Elem(_) | Instr::Store | Instr::Binary(_) | Instr::Same(_) => 2,
            Instr::Choose(_) => 2,
            Instr::Call(f) => self.params(f),
            Instr::Print(k) => self.holes(k),
        }
    }

    fn params(&self, f: u32) -> u64
        ensures { result ≡ valid.params_of (slice_get self.now.funcs f) }
    {
        match self.funcs.get(f as usize) {
            Some(e) => u64::from(e.params),
            None => 0,
        }
    }

    fn holes(&self, k: u32) -> u64
        ensures { result ≡ valid.holes_of (slice_get self.now.texts k) }
    {
        match self.texts.get(k as usize) {
            Some(pieces) => holes(pieces.as_slice()) as u64,
            None => 0,
        }
    }
}

/// How many values an instruction puts on the stack.
fn puts(x: Instr) -> u64
    ensures { result ≡ valid.puts x }
{
    match x {
        Instr::SetLocal(_) | Instr::Store | Instr::Drop | Instr::Jump(_) | Instr::Return => 0,
        Instr::JumpIf(_, _) | Instr::Print(_) | Instr::Step | Instr::Loop(_) => 0,
        Instr::EndIteration => 0,
        Instr::Dup => 2,
        _ => 1,
    }
}

impl Code {
    /// The place after an instruction's.
    fn next(&self, place: usize) -> usize
        requires { place < length self.now.instrs }
        ensures { result ≡ suc place }
    {
        let _size = self.instrs.len();
        place + 1
    }

    fn has_height(&self, place: usize, height: u64) -> bool
        ensures { result ≡ spec.is_height (slice_get self.now.heights place) height }
    {
        match self.heights.get(place) {
            Some(h) => u64::from(*h) == height,
            None => false,
        }
    }

    fn holds(&self, want: Want, place: usize) -> bool
        ensures { result ≡ spec.holds_at self.now want place }
    {
        match want {
            Want::Height(height) => self.has_height(place, height),
            Want::Inside(e) => is_inside(e, place),
        }
    }

    fn both_hold(&self, want: Want, one: usize, other: usize) -> bool
        ensures { result ≡ (spec.holds_at self.now want one && spec.holds_at self.now want other) }
    {
        let holds = self.holds(want, one);
        self.holds(want, other) && holds
    }

    /// A body's start and end, where it ends at a place.
    fn ended_holds(&self, b: Body, place: usize, want: Want) -> bool
        ensures { result ≡ list_all (spec.holds_at self.now want) (valid.ended_places place (b ∷ [])) }
    {
        if b.end as usize == place {
            self.both_hold(want, b.start as usize, b.end as usize)
        } else {
            true
        }
    }

    /// The starts and ends of the bodies that end at a place.
    fn all_ended_hold(&self, place: usize, want: Want) -> bool
        ensures { result ≡ list_all (spec.holds_at self.now want) (valid.ended_places place self.now.bodies) }
    {
        let mut hold = true;
        for b in self.bodies.as_slice() {
            hold = both(hold, self.ended_holds(*b, place, want));
        }
        hold
    }

    fn body_holds(&self, k: u32, want: Want) -> bool
        ensures { result ≡ list_all (spec.holds_at self.now want) (valid.body_places (slice_get self.now.bodies k)) }
    {
        match self.bodies.get(k as usize) {
            Some(b) => self.both_hold(want, b.start as usize, b.end as usize),
            None => true,
        }
    }

    /// The places that may come after an instruction.
    #[tactic(auto, unfolding(crate::specs::Checks::after_holds))]
    fn after_holds(&self, place: usize, x: Instr, want: Want) -> bool
        requires { place < length self.now.instrs }
        ensures { result ≡ spec.after_holds self.now place x want }
    {
        match x {
            Instr::Jump(to) => self.holds(want, to as usize),
            Instr::JumpIf(_, to) => self.both_hold(want, to as usize, self.next(place)),
            Instr::Return => true,
            Instr::Loop(k) => self.body_holds(k, want),
            Instr::EndIteration => self.all_ended_hold(self.next(place), want),
            _ => self.holds(want, self.next(place)),
        }
    }

    fn number_in_range(&self, x: Instr) -> bool
        ensures { result ≡ spec.number_in_range self.now x }
    {
        match x {
            Instr::Global(k) => (k as usize) < self.globals.len(),
            Instr::Call(f) => (f as usize) < self.funcs.len(),
            Instr::Print(k) => (k as usize) < self.texts.len(),
            Instr::Loop(k) => (k as usize) < self.loops.len(),
            _ => true,
        }
    }

    fn is_step(&self, place: usize) -> bool
        ensures { result ≡ spec.is_step (slice_get self.now.instrs place) }
    {
        matches!(self.instrs.get(place), Some(Instr::Step))
    }

    fn lands_at(&self, place: usize, to: u32) -> bool
        ensures { result ≡ spec.lands_at self.now place to }
    {
        let is_step = self.is_step(to as usize);
        place < to as usize || is_step
    }

    fn lands(&self, place: usize, x: Instr) -> bool
        ensures { result ≡ spec.lands self.now place x }
    {
        match x {
            Instr::Jump(to) => self.lands_at(place, to),
            Instr::JumpIf(_, to) => self.lands_at(place, to),
            _ => true,
        }
    }

    /// An instruction at a place, where the stack has that height.
    #[tactic(auto, unfolding(crate::specs::Checks::is_sound))]
    fn is_sound(&self, place: usize, x: Instr, height: u32) -> bool
        requires { place < length self.now.instrs }
        ensures { result ≡ spec.is_sound self.now place x height }
    {
        let takes = self.takes(x);
        let finds = takes <= u64::from(height);
        let left = u64::from(height).saturating_sub(takes) + puts(x);
        let after = self.after_holds(place, x, Want::Height(left));
        let in_range = self.number_in_range(x);
        let lands = self.lands(place, x);
        finds && in_range && after && lands
    }

    #[tactic(auto, unfolding(crate::specs::Checks::ends_at))]
    fn ends_at(&self, place: usize) -> bool
        ensures { result ≡ spec.ends_at self.now place }
    {
        self.bodies
            .as_slice()
            .iter()
            .filter(|b| b.end as usize == place)
            .count()
            == 1
    }

    fn starts_at(&self, k: u32, place: usize) -> bool
        ensures { result ≡ spec.is_start (slice_get self.now.bodies k) place }
    {
        match self.bodies.get(k as usize) {
            Some(b) => b.start as usize == place,
            None => true,
        }
    }

    fn is_placed(&self, place: usize, x: Instr) -> bool
        requires { place < length self.now.instrs }
        ensures { result ≡ spec.is_placed self.now place x }
    {
        match x {
            Instr::Loop(k) => self.starts_at(k, self.next(place)),
            Instr::EndIteration => self.ends_at(self.next(place)),
            _ => true,
        }
    }

    #[tactic(auto, unfolding(crate::specs::Checks::is_right_at))]
    fn is_right_at(&self, place: usize) -> bool
        requires { place < length self.now.instrs }
        ensures { result ≡ spec.is_right_at self.now place }
    {
        match (self.instrs.get(place), self.heights.get(place)) {
            (Some(x), Some(h)) => {
                let is_sound = self.is_sound(place, *x, *h);
                let is_placed = self.is_placed(place, *x);
                is_sound && is_placed
            }
            _ => true,
        }
    }

    #[tactic(auto, unfolding(crate::specs::Checks::stays_at))]
    fn stays_at(&self, e: Entry, place: usize) -> bool
        ensures { result ≡ spec.stays_at self.now e place }
    {
        match self.instrs.get(place) {
            Some(x) => {
                let after = self.after_holds(place, *x, Want::Inside(e));
                let in_range = local_in_range(e.locals, *x);
                after && in_range
            }
            None => true,
        }
    }

    fn all_stay(&self, e: Entry) -> bool
        ensures { result ≡ spec.all_from e.start (e.end - e.start) (spec.stays_at self.now e) }
    {
        let mut stay = true;
        for n in 0..e.end.saturating_sub(e.start) as usize {
            let this = self.stays_at(e, e.start as usize + n);
            stay = stay && this;
        }
        stay
    }

    #[tactic(auto, unfolding(crate::specs::Checks::is_function))]
    fn is_function(&self, e: Entry) -> bool
        ensures { result ≡ spec.is_function self.now e }
    {
        let height = self.has_height(e.start as usize, 0);
        let stay = self.all_stay(e);
        let within = e.end as usize <= self.instrs.len();
        e.start < e.end && within && e.params <= e.locals && height && stay
    }

    #[tactic(auto, unfolding(crate::specs::Checks::is_function_at))]
    fn is_function_at(&self, f: usize) -> bool
        ensures { result ≡ spec.is_function_at self.now f }
    {
        match self.funcs.get(f) {
            Some(e) => self.is_function(*e),
            None => true,
        }
    }

    fn is_loop(&self, k: usize, place: usize) -> bool
        ensures { result ≡ spec.is_loop k (slice_get self.now.instrs place) }
    {
        match self.instrs.get(place) {
            Some(Instr::Loop(j)) => *j as usize == k,
            _ => false,
        }
    }

    fn is_iteration_end(&self, place: usize) -> bool
        ensures { result ≡ spec.is_iteration_end (slice_get self.now.instrs place) }
    {
        matches!(self.instrs.get(place), Some(Instr::EndIteration))
    }

    fn is_home(&self, info: &LoopInfo, place: usize) -> bool
        ensures { result ≡ spec.is_home info.now place (slice_get self.now.funcs info.now.func) }
    {
        match self.funcs.get(info.func as usize) {
            Some(e) => {
                let inside = is_inside(*e, place);
                let bound = bound_in_range(e.locals, info.bound);
                inside && info.counter < e.locals && bound
            }
            None => false,
        }
    }

    #[tactic(auto, unfolding(crate::specs::Checks::is_body))]
    fn is_body(&self, k: usize, info: &LoopInfo, b: Body) -> bool
        ensures { result ≡ spec.is_body self.now k info.now b }
    {
        let before = (b.start as usize).saturating_sub(1);
        let is_loop = self.is_loop(k, before);
        let is_home = self.is_home(info, before);
        let ends = self.is_iteration_end((b.end as usize).saturating_sub(1));
        let start = self.has_height(b.start as usize, 0);
        let end = self.has_height(b.end as usize, 0);
        0 < b.start && is_loop && is_home && b.start < b.end && ends && start && end
    }

    #[tactic(auto, unfolding(crate::specs::Checks::is_body_at))]
    fn is_body_at(&self, k: usize) -> bool
        ensures { result ≡ spec.is_body_at self.now k }
    {
        match (self.loops.get(k), self.bodies.get(k)) {
            (Some(info), Some(b)) => self.is_body(k, info, *b),
            _ => true,
        }
    }

    fn all_functions(&self) -> bool
        ensures { result ≡ spec.all_below (length self.now.funcs) (spec.is_function_at self.now) }
    {
        let mut all = true;
        for f in 0..self.funcs.len() {
            let this = self.is_function_at(f);
            all = all && this;
        }
        all
    }

    fn all_right(&self) -> bool
        ensures { result ≡ spec.all_below (length self.now.instrs) (spec.is_right_at self.now) }
    {
        let mut all = true;
        for place in 0..self.instrs.len() {
            let this = self.is_right_at(place);
            all = all && this;
        }
        all
    }

    fn all_bodies(&self) -> bool
        ensures { result ≡ spec.all_below (length self.now.loops) (spec.is_body_at self.now) }
    {
        let mut all = true;
        for k in 0..self.loops.len() {
            let this = self.is_body_at(k);
            all = all && this;
        }
        all
    }
}

fn both(one: bool, other: bool) -> bool
    ensures { result ≡ (one && other) }
{
    one && other
}

fn is_inside(e: Entry, place: usize) -> bool
    ensures { result ≡ spec.is_inside e place }
{
    e.start as usize <= place && place < e.end as usize
}

fn local_in_range(locals: u32, x: Instr) -> bool
    ensures { result ≡ spec.local_in_range locals x }
{
    match x {
        Instr::GetLocal(k) => k < locals,
        Instr::SetLocal(k) => k < locals,
        _ => true,
    }
}

fn bound_in_range(locals: u32, bound: Bound) -> bool
    ensures { result ≡ spec.bound_in_range locals bound }
{
    match bound {
        Bound::Number(_) => true,
        Bound::Local(k) => k < locals,
    }
}

impl Code {
    #[tactic(auto, unfolding(crate::specs::Checks::is_valid))]
    fn check(&self) -> bool
        ensures { result ≡ spec.is_valid self.now }
    {
        let size = self.instrs.len();
        let sized = self.lines.len() == size && self.heights.len() == size;
        let has_bodies = self.bodies.len() == self.loops.len();
        let has_main = (self.main as usize) < self.funcs.len();
        let functions = self.all_functions();
        let right = self.all_right();
        let bodies = self.all_bodies();
        sized && has_bodies && has_main && functions && right && bodies
    }
}

/// Whether code is valid: each instruction finds its operands, each place that may come next lies in the same function
/// and has the height that is left, each jump back goes to a step, each number is in range, and each annotated loop has
/// its body. It takes no memory.
pub fn valid(code: &Code) -> bool
    ensures { IsTrue result ↔ IsValid code.now }
{
    code.check()
}
