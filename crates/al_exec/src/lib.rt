//! The machine of lowered code: it runs valid code over any view, exactly as the code's meaning says, from a function's
//! call or from an iteration of an annotated loop to the next stop.
#![tactic(auto)]

mod act;
mod active;
mod calls;
mod fault;
mod flow;
mod go;
mod inner;
mod laws;
mod locals;
mod loops;
mod machine;
mod memory;
mod pause;
mod printing;
mod private;
mod run;
mod start;
mod stop;
mod values;

pub use laws::answered_at_a_loop;
pub use machine::Machine;
pub use stop::Stop;
