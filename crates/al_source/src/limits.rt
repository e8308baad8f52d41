//! The limits of programs and inputs, and the ranges and defaults of the numbers of a run.

/// Bytes of a source.
pub const SOURCE_BYTES: usize = 1_048_576;
/// Statements and expressions of a source.
pub const SOURCE_NODES: u64 = 262_144;
/// Statements inside one another.
pub const STATEMENT_NESTING: u8 = 128;
/// Operators of one expression.
pub const EXPRESSION_OPERATORS: u8 = 128;
/// Stars of a declarator.
pub const DECLARATOR_STARS: u8 = 8;
/// Dimensions of a declarator.
pub const DECLARATOR_DIMENSIONS: u8 = 4;
/// Elements of a dimension.
pub const DIMENSION_LENGTH: i64 = 4_194_304;

/// Bytes of a word, as `sizeof` counts them.
pub const WORD_BYTES: u32 = 8;
/// Words of one struct, and of all globals together.
pub const OBJECT_WORDS: u32 = 4_194_304;
/// Words that code outside iterations may allocate, each allocation counted as its words plus one.
pub const OUTER_WORDS: u64 = 4_194_304;
/// Words that one iteration may allocate, counted likewise.
pub const ITERATION_WORDS: u64 = 1_048_576;
/// Calls that may be active at a time, anew in each iteration.
pub const ACTIVE_CALLS: u32 = 256;
/// Trips of one execution of an annotated loop.
pub const LOOP_TRIPS: u64 = 16_777_216;

/// Numbers of an input.
pub const INPUT_NUMBERS: usize = 1_048_576;
/// Bytes of an input.
pub const INPUT_BYTES: usize = 33_554_432;

/// The most lanes, and those of a run that names none.
pub const MOST_LANES: u32 = 64;

pub const DEFAULT_LANES: u32 = 4;
/// The most worker threads, and those of a run that names none.
pub const MOST_THREADS: u32 = 64;

pub const DEFAULT_THREADS: u32 = 4;
/// The greatest chunk factor, and that of a run that names none.
pub const MOST_CHUNK: u32 = 65_536;

pub const DEFAULT_CHUNK: u32 = 16;
/// The line size, in words, of a run that names none.
pub const DEFAULT_LINE: u32 = 1;
/// The greatest budget of steps.
pub const MOST_STEPS: u32 = 1_000_000_000;
/// The budgets of a run that names none: of an iteration, and of all code outside iterations.
pub const DEFAULT_ITERATION_STEPS: u32 = 1_000_000;

pub const DEFAULT_SERIAL_STEPS: u32 = 10_000_000;

/// The variables of a loop that are tried as reductions, at most.
pub const TRIED_REDUCTIONS: usize = 8;
/// The candidates and the tests of a search for annotations, at most.
pub const MOST_CANDIDATES: u32 = 80;

pub const MOST_TESTS: u32 = 16;

/// The greatest start and the greatest size of the generated job.
pub const MOST_START: u32 = 2_147_483_647;

pub const MOST_SIZE: u32 = 100_000;
