//! Calls of the program over files in memory.

use gba_link::gba_link;
use gba_store::{Gate, MemorySink, MemoryStore, NoGate, Sink, StoredFile};
use std::alloc::{AllocError, Global};
use std::test::Fail;
use std::thread::Threads;

/// A file of these bytes.
pub fn stored(alloc: Global, name: &str, bytes: Vec<u8>) -> Result<StoredFile, AllocError> {
    Ok(StoredFile {
        name: String::from_str(alloc, name)?,
        bytes,
    })
}

/// These words, and zeros behind them up to this length.
pub(crate) fn padded(alloc: Global, code: &[u32], length: usize) -> Result<Vec<u8>, AllocError> {
    let mut bytes = Vec::new(alloc);
    for word in code {
        bytes.extend_from_slice(&word.to_le_bytes())?;
    }
    for _ in bytes.len()..length {
        bytes.push(0)?;
    }
    Ok(bytes)
}

/// A BIOS that begins with these words.
pub fn image_of(alloc: Global, code: &[u32]) -> Result<Vec<u8>, AllocError> {
    padded(alloc, code, 16_384)
}

/// What a call left: its status, and the files, of which `-` is standard output.
#[derive(Drop)]
pub struct Answer {
    pub status: u8,
    out: MemorySink,
}

impl Answer {
    /// Standard output.
    pub fn report(&self) -> &[u8] {
        self.bytes("-").unwrap_or(b"".as_slice())
    }

    /// The content of the file, or None where there is no such file.
    pub fn bytes(&self, name: &str) -> Option<&[u8]> {
        self.out.bytes(name)
    }
}

/// The numbers of the reads, creates and appends that fail.
#[derive(Clone, Copy)]
pub struct Failing<'a> {
    pub reads: &'a [u64],
    pub creates: &'a [u64],
    pub appends: &'a [u64],
}

impl Failing<'static> {
    /// Nothing fails.
    pub const NONE: Failing<'static> = Failing {
        reads: &[],
        creates: &[],
        appends: &[],
    };
}

/// A sink with no file, in which these calls fail.
pub(crate) fn sink_of(alloc: Global, failing: Failing<'_>) -> Result<MemorySink, AllocError> {
    let creates = Vec::from_slice(alloc, failing.creates)?;
    let appends = Vec::from_slice(alloc, failing.appends)?;
    Ok(MemorySink::new(alloc, creates, appends))
}

fn copies_of(alloc: Global, words: &[&str]) -> Result<Vec<String>, AllocError> {
    let mut copies = Vec::new(alloc);
    for word in words {
        copies.push(String::from_str(alloc, word)?)?;
    }
    Ok(copies)
}

/// A call with these words over these files, in which these reads, creates and appends fail.
pub fn call_with<R: Threads + Sync>(
    rt: &R,
    alloc: Global,
    words: &[&str],
    files: Vec<StoredFile>,
    failing: Failing<'_>,
) -> Result<Answer, Fail> {
    let said = copies_of(alloc, words)?;
    let mut store = MemoryStore::new(files, Vec::from_slice(alloc, failing.reads)?);
    let mut out = sink_of(alloc, failing)?;
    let status = gba_link(rt, alloc, said.as_slice(), &mut store, &mut out, &NoGate);
    Ok(Answer { status, out })
}

/// The status of a call with these words over these files, which writes into a sink, and whose lanes go
/// through this gate.
pub fn call_into<R: Threads + Sync, O: Sink, G: Gate + Sync>(
    rt: &R,
    alloc: Global,
    words: &[&str],
    files: Vec<StoredFile>,
    out: &mut O,
    gate: &G,
) -> Result<u8, Fail> {
    let said = copies_of(alloc, words)?;
    let mut store = MemoryStore::new(files, Vec::new(alloc));
    Ok(gba_link(rt, alloc, said.as_slice(), &mut store, out, gate))
}

/// A call with these words over these files, in which nothing fails, and whose lanes go through this gate.
pub fn call_through<R: Threads + Sync, G: Gate + Sync>(
    rt: &R,
    alloc: Global,
    words: &[&str],
    files: Vec<StoredFile>,
    gate: &G,
) -> Result<Answer, Fail> {
    let mut out = MemorySink::new(alloc, Vec::new(alloc), Vec::new(alloc));
    let status = call_into(rt, alloc, words, files, &mut out, gate)?;
    Ok(Answer { status, out })
}

/// The same with no gate.
pub fn call<R: Threads + Sync>(
    rt: &R,
    alloc: Global,
    words: &[&str],
    files: Vec<StoredFile>,
) -> Result<Answer, Fail> {
    call_through(rt, alloc, words, files, &NoGate)
}
