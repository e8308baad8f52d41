//! Files that are read by name and sinks that take bytes, each with a count of its faults.
#![tactic(auto)]

mod files;
mod host_files;
mod host_streams;
mod mem_files;
mod mem_sink;
mod reserved;
mod sink;

pub use files::{Files, ReadFault};
pub use host_files::HostFiles;
pub use host_streams::{HostErr, HostOut, HostStream};
pub use mem_files::{MemFile, MemFiles};
pub use mem_sink::{Cut, MemSink};
pub use sink::{PutFault, Sink};

#[cfg(test)]
mod tests;
