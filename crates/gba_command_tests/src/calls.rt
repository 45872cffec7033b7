//! Calls of the program over files in memory.

use gba_link::gba_link;
use gba_store::{MemorySink, MemoryStore, NoGate, StoredFile};
use std::alloc::{AllocError, Global};
use std::process::Abort;
use std::test::Fail;
use std::thread::Threads;

/// The names and the bytes of files.
pub(crate) type Files<'a> = &'a [(&'a str, &'a [u8])];

/// Which calls of the outside fail, by their numbers from 1.
#[derive(Clone, Copy)]
pub(crate) struct Failing<'a> {
    pub(crate) reads: &'a [u64],
    pub(crate) creates: &'a [u64],
    pub(crate) appends: &'a [u64],
}

/// No call fails.
pub(crate) const NOTHING_FAILS: Failing<'static> = Failing {
    reads: &[],
    creates: &[],
    appends: &[],
};

/// The words of a call, and the bytes of the file that it reads.
#[derive(Clone, Copy)]
pub(crate) struct Case<'a>(pub(crate) &'a [&'a str], pub(crate) &'a [u8]);

/// What a call left: its status, and the files, of which `-` is standard output.
#[derive(Drop)]
pub(crate) struct Answer {
    pub(crate) status: u8,
    pub(crate) out: MemorySink,
}

impl Answer {
    /// A file's bytes, none where there is no such file.
    pub(crate) fn file(&self, name: &str) -> &[u8] {
        self.out.bytes(name).unwrap_or(b"".as_slice())
    }

    /// Standard output.
    pub(crate) fn report(&self) -> &[u8] {
        self.file("-")
    }

    /// It has this status and this report.
    pub(crate) fn is<R: Abort>(&self, rt: &R, case: Case<'_>, status: u8, report: &[u8]) {
        let Case(words, read) = case;
        assert_eq!(rt; self.status, status, "of {words:?} over {read:?}");
        assert_eq!(rt; self.report(), report, "of {words:?} over {read:?}");
    }

    /// It has left these bytes in a file, or no such file.
    pub(crate) fn has<R: Abort>(&self, rt: &R, case: Case<'_>, name: &str, bytes: Option<&[u8]>) {
        let Case(words, read) = case;
        assert_eq!(rt;
            self.out.bytes(name),
            bytes,
            "of {words:?} over {read:?}, in {name}"
        );
    }
}

fn stored(alloc: Global, files: Files<'_>) -> Result<Vec<StoredFile>, AllocError> {
    let mut all = Vec::new(alloc);
    for (name, bytes) in files {
        all.push(StoredFile {
            name: String::from_str(alloc, name)?,
            bytes: Vec::from_slice(alloc, bytes)?,
        })?;
    }
    Ok(all)
}

fn copies_of(alloc: Global, words: &[&str]) -> Result<Vec<String>, AllocError> {
    let mut copies = Vec::new(alloc);
    for word in words {
        copies.push(String::from_str(alloc, word)?)?;
    }
    Ok(copies)
}

/// A call with these words over these files.
pub(crate) fn call_with<R: Abort + Threads + Sync>(
    rt: &R,
    alloc: Global,
    words: &[&str],
    files: Files<'_>,
    failing: Failing<'_>,
) -> Result<Answer, Fail> {
    let said = copies_of(alloc, words)?;
    let mut store = MemoryStore::new(
        stored(alloc, files)?,
        Vec::from_slice(alloc, failing.reads)?,
    );
    let creates = Vec::from_slice(alloc, failing.creates)?;
    let appends = Vec::from_slice(alloc, failing.appends)?;
    let mut out = MemorySink::new(alloc, creates, appends);
    let status = gba_link(rt, alloc, said.as_slice(), &mut store, &mut out, &NoGate);
    Ok(Answer { status, out })
}

/// A call in which nothing fails.
pub(crate) fn call<R: Abort + Threads + Sync>(
    rt: &R,
    alloc: Global,
    words: &[&str],
    files: Files<'_>,
) -> Result<Answer, Fail> {
    call_with(rt, alloc, words, files, NOTHING_FAILS)
}
