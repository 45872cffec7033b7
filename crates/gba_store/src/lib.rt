#![tactic(auto)]
//! The outside of the program: where files are read (`Store`), where files are written (`Sink`), and what is told of
//! each step (`Gate`). Everything above is proved over these three traits.
//!
//! A store and a sink may tell their files: then a contract speaks of every byte. `MemoryStore` and `MemorySink` do.
//! `FileStore` and `StdSink` are the real ones, and tell nothing of content.

mod gate;
pub mod laws;
mod load;
mod memory;
mod outside;
mod system;

pub use gate::{Gate, NoGate};
pub use load::{SystemGate, running_threads};
pub use memory::{MemorySink, MemoryStore, StoredFile};
pub use outside::{ReadError, Sink, Store, WriteError};
pub use system::{FileStore, StdSink};
