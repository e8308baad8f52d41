/// An instruction at which the function that runs is left.
#[derive(Clone, Copy, Debug, PartialEq, Eq)]
pub enum Pause {
    Call(u32),
    Return,
    Loop(u32),
    EndIteration,
}
