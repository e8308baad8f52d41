ghost use Rattle.std.specs.Prelude.{◌≡◌};
ghost use Rattle.al_interpreter.specs.Turns as spec;

use al_core::Val;

/// How a statement ends, where it does not trap.
#[derive(Clone, Copy, Debug, PartialEq, Eq)]
pub enum Flow {
    Next,
    Broke,
    Continued,
    Returned(Val),
}

/// Whether what is done again and again goes on.
#[derive(Clone, Copy, Debug, PartialEq, Eq)]
pub enum Turn {
    Again,
    Over(Flow),
}

impl Flow {
    /// What comes after a statement that ends so, among others in order.
    pub fn in_sequence(self) -> Turn
        ensures { result ≡ spec.in_sequence self }
    {
        match self {
            Flow::Next => Turn::Again,
            Flow::Broke | Flow::Continued | Flow::Returned(_) => Turn::Over(self),
        }
    }

    /// What comes after a loop's body that ends so.
    pub fn in_loop(self) -> Turn
        ensures { result ≡ spec.in_loop self }
    {
        match self {
            Flow::Next | Flow::Continued => Turn::Again,
            Flow::Broke => Turn::Over(Flow::Next),
            Flow::Returned(_) => Turn::Over(self),
        }
    }
}
