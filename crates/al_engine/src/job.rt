use al_code::Code;
use al_core::{Choice, Knobs};

/// What a run is given.
#[derive(Clone, Copy)]
pub(crate) struct Job<'a> {
    pub code: &'a Code,
    pub input: &'a [i64],
    pub knobs: Knobs,
    /// For each annotated loop how it runs in rounds, or none where it runs plain.
    pub choices: &'a [Option<Choice>],
}
