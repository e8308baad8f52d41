//! Walks a typed tree over any memory that code may see, where al_plain has the memory, the chunks, the rounds and the
//! whole runs.
#![tactic(auto)]

mod blocks;
mod calls;
mod expressions;
mod fault;
mod flow;
mod frame;
mod functions;
mod loops;
mod machine;
mod parts;
mod printing;
mod program;
mod setting;
mod stage;
mod statements;
mod walker;
mod whole_calls;

pub use calls::Calls;
pub use fault::Fault;
pub use flow::Flow;
pub use frame::{Frame, Own};
pub use machine::Machine;
pub use parts::{Start, bound_of, start_of};
pub use program::Program;
pub use setting::Setting;
pub use stage::Stage;
pub use walker::Walker;
pub use whole_calls::{iterate, run_main};
