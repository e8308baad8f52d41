//! Jobs that threads do, each once, with the answers in the order of the jobs.
#![tactic(auto)]

mod gate;
mod jobs;
mod run;

pub use gate::{FreePool, PoolGate};
pub use jobs::Work;
pub use run::run_jobs;
