//! Runs whole programs with al_interpreter's walk: it has the memory, the chunks, the rounds and the report, and its
//! contract is the definition itself.
#![tactic(auto)]

mod accesses;
mod addresses;
mod commits;
mod content;
mod counts;
mod executions;
mod iterations;
mod judging;
mod loops;
mod memory;
mod names;
mod objects;
mod outcomes;
mod round;
mod rounds;
mod runs;
mod stages;
mod whole;
mod words;

pub use accesses::Accesses;
pub use addresses::Addresses;
pub use content::{Content, Maker, zeros};
pub use iterations::{Execution, Finished, iteration, plain_loop};
pub use loops::{Loop, loop_at};
pub use memory::Memory;
pub use names::Names;
pub use objects::Objects;
pub use outcomes::Outcome;
pub use round::Round;
pub use rounds::{Rounds, lockstep};
pub use runs::run;
