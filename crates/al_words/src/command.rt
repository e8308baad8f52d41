use al_core::Knobs;

/// What the words ask for.
#[derive(Clone, Copy, Debug, PartialEq, Eq)]
pub enum Command {
    /// To run a program, each annotated loop in rounds by its own annotation.
    Run(Job),
    /// To run a program, every loop plain.
    Plain(Job),
    /// To tell the rounds of a run.
    Trace(Job),
    /// To search for annotations of the loop of a number.
    Infer(Job, u32),
    /// To say whether a program is accepted.
    Check(Job),
    /// To run the generated program, from a start and with a size.
    Demo(u32, u32, Knobs),
}

/// The files of a command, and the numbers of its run.
#[derive(Clone, Copy, Debug, PartialEq, Eq)]
pub struct Job {
    /// The places of the words that name files, from 0; the source comes first. Behind the last of them stands 0.
    pub names: [u32; 17],
    /// How many there are.
    pub count: u32,
    pub knobs: Knobs,
}

/// Why words ask for nothing. A number is the place of a word, from 0; for the fault of a value it is that of its
/// option.
#[derive(Clone, Copy, Debug, PartialEq, Eq)]
pub enum WordFault {
    NoCommand,
    BadCommand(u32),
    /// An option that the command does not have.
    Unknown(u64),
    Repeated(u64),
    /// An option at the end, with no value.
    NoValue(u64),
    /// The value of an option is no number of its range.
    BadValue(u64),
    /// The number of names is not the command's.
    Names,
    /// A name that is to be a number is none of its range.
    BadNumber(u32),
}
