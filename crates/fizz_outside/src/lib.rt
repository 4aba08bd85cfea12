//! What fizz reaches outside of itself, each behind a trait: sinks of bytes, files by name, and the
//! gate that a worker passes before it renders. Beside each trait stand an object in memory of which
//! all is known and an adapter over the real thing.
#![tactic(auto)]

mod calls;
mod disk_files;
mod files;
mod gate;
mod memory_files;
mod memory_sink;
mod sink;
mod std_sink;

pub use disk_files::DiskFiles;
pub use files::{FileBytes, Files, FilesRefused};
pub use gate::{Gate, OpenGate};
pub use memory_files::MemoryFiles;
pub use memory_sink::MemorySink;
pub use sink::{Sink, SinkRefused};
pub use std_sink::StdSink;

#[cfg(test)]
mod tests;
