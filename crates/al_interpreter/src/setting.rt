use crate::program::Program;
use al_core::{Choice, Knobs};

/// What a run is given.
#[derive(Clone, Copy)]
pub struct Setting<'a> {
    pub program: &'a Program<'a>,
    pub input: &'a [i64],
    pub knobs: Knobs,
    /// How each annotated loop runs in rounds, by its number. One that has none runs plain.
    pub choices: &'a [Option<Choice>],
}
