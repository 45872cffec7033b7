//! A sink in memory that keeps what it was called for.

ghost use Rattle.std.specs.Prelude.{◌≡◌};

use gba_store::{MemorySink, Sink, WriteError};
use std::alloc::{AllocError, Global};
use std::sync::atomic::{AtomicU64, Ordering};

/// Files in memory, and the calls that were made: a line for each, `create NAME` or `append NAME LENGTH`, and how many
/// there were, in a number that others may look at.
#[derive(Drop)]
pub struct LoggingSink<'a> {
    alloc: Global,
    files: MemorySink,
    calls: String,
    made: &'a AtomicU64,
}

impl<'a> LoggingSink<'a> {
    /// A sink over this one, which counts its calls in `made`.
    pub fn new(alloc: Global, files: MemorySink, made: &'a AtomicU64) -> LoggingSink<'a> {
        LoggingSink {
            alloc,
            files,
            calls: String::new(alloc),
            made,
        }
    }

    /// The calls that were made.
    pub fn calls(&self) -> &str {
        self.calls.as_str()
    }

    /// The content of the file, or None where there is no such file.
    pub fn bytes(&self, name: &str) -> Option<&[u8]> {
        self.files.bytes(name)
    }

    /// Keeps a line, if there is memory for it.
    fn keep(&mut self, line: Result<String, AllocError>)
        ensures { self.new.files ≡ self.old.files }
    {
        if let Ok(line) = line {
            let _ = self.calls.push_str(line.as_str());
        }
        self.made.fetch_add(1, Ordering::SeqCst);
    }
}

impl<'a> Sink for LoggingSink<'a> {
    ghost Tells = { ⊥ };

    ghost state = { λ sink. ⟦<MemorySink as Sink>⟧.state sink.files };

    fn create(&mut self, name: &str) -> Result<(), WriteError> {
        self.keep(format!(in self.alloc; "create {name}\n"));
        self.files.create(name)
    }

    fn append(&mut self, name: &str, bytes: &[u8]) -> Result<(), WriteError> {
        self.keep(format!(in self.alloc; "append {name} {}\n", bytes.len()));
        self.files.append(name, bytes)
    }
}
