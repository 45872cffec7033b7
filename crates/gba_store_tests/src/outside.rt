//! The real store and sink, and the memory store's chosen failures.

use gba_store::{
    FileStore, Gate, MemoryStore, NoGate, ReadError, Sink, StdSink, Store, StoredFile, WriteError,
};
use std::test::Fail;
use std::{env, fs, process};

/// A name of a file in the system's folder for such files, of this process alone.
fn name_of(rt: &HostRuntime, what: &str) -> Result<String, Fail> {
    let alloc = rt.alloc();
    let number = process::id(rt.process());
    let path = env::temp_dir(rt)?.join(
        alloc,
        format!(in alloc; "gbalink-outside-test-{number}-{what}")?.as_str(),
    )?;
    let name = path.as_path().to_str().ok_or("a path that is no text")?;
    Ok(String::from_str(alloc, name)?)
}

/// Makes a file of these pieces, and lets go of it.
fn write_pieces(rt: HostRuntime, name: &str, pieces: &[&[u8]]) -> Result<(), Fail> {
    let mut sink = StdSink::new(rt, rt.alloc());
    sink.create(name)?;
    for piece in pieces {
        sink.append(name, piece)?;
    }
    Ok(())
}

/// Whether the front of a file, of at most so many bytes, is read and is just this.
fn reads(
    rt: HostRuntime,
    store: &mut FileStore<HostRuntime>,
    name: &str,
    most: u64,
    want: &[u8],
) -> bool {
    match store.read(rt.alloc(), name, most) {
        Ok(bytes) => bytes.as_slice() == want,
        Err(_) => false,
    }
}

/// How a read of a file is refused.
fn refusal_of(
    rt: HostRuntime,
    store: &mut FileStore<HostRuntime>,
    name: &str,
) -> Option<ReadError> {
    store.read(rt.alloc(), name, 9).err()
}

/// Whether a sink of its own may make a file empty, and lets go of it.
fn creates(rt: HostRuntime, name: &str) -> Result<(), WriteError> {
    StdSink::new(rt, rt.alloc()).create(name)
}

/// A file is written in pieces, and read whole and in part.
#[test]
fn real_files(rt: HostRuntime) -> Result<(), Fail> {
    let made = name_of(&rt, "real")?;
    let name = made.as_str();
    let mut store = FileStore::new(rt, rt.alloc());
    write_pieces(rt, name, &[b"abc", b"de"])?;
    assert!(rt; reads(rt, &mut store, name, 9, b"abcde"));
    assert!(rt; reads(rt, &mut store, name, 4, b"abcd"));
    fs::remove_file(&rt, name)?;
    Ok(())
}

/// A file that is gone is absent, one that was made empty has no byte, and an append makes one that isn't there.
#[test]
fn files_that_come_and_go(rt: HostRuntime) -> Result<(), Fail> {
    let made = name_of(&rt, "gone")?;
    let name = made.as_str();
    let mut store = FileStore::new(rt, rt.alloc());
    assert_eq!(rt; refusal_of(rt, &mut store, name), Some(ReadError::Absent));
    StdSink::new(rt, rt.alloc()).append(name, b"f")?;
    assert!(rt; reads(rt, &mut store, name, 9, b"f"));
    fs::remove_file(&rt, name)?;
    write_pieces(rt, name, &[])?;
    assert!(rt; reads(rt, &mut store, name, 9, b""));
    fs::remove_file(&rt, name)?;
    Ok(())
}

/// Whether a file that was read isn't made empty while its store is there, under this name and another one.
fn are_held_by_a_store(rt: HostRuntime, name: &str, link: &str) -> bool {
    let mut store = FileStore::new(rt, rt.alloc());
    let is_read = reads(rt, &mut store, name, 9, b"kept");
    let is_held = creates(rt, name).is_err() && creates(rt, link).is_err();
    is_read && is_held && reads(rt, &mut store, link, 9, b"kept")
}

/// Whether a file that was made empty is neither read nor made empty again while its sink is there.
fn are_held_by_a_sink(rt: HostRuntime, name: &str, link: &str) -> bool {
    let mut sink = StdSink::new(rt, rt.alloc());
    let is_made = sink.create(link).is_ok();
    let mut store = FileStore::new(rt, rt.alloc());
    let is_refused = refusal_of(rt, &mut store, name) == Some(ReadError::Failed);
    is_made && is_refused && creates(rt, name).is_err()
}

#[test]
fn held_files(rt: HostRuntime) -> Result<(), Fail> {
    let made = name_of(&rt, "held")?;
    let linked = name_of(&rt, "linked")?;
    write_pieces(rt, made.as_str(), &[b"kept"])?;
    fs::hard_link(&rt, made.as_str(), linked.as_str())?;
    assert!(rt; are_held_by_a_store(rt, made.as_str(), linked.as_str()));
    assert!(rt; are_held_by_a_sink(rt, made.as_str(), linked.as_str()));
    fs::remove_file(&rt, made.as_str())?;
    fs::remove_file(&rt, linked.as_str())?;
    Ok(())
}

/// What the system refuses is a fault, and so is an empty standard output.
#[test]
fn system_refusals(rt: HostRuntime) -> Result<(), Fail> {
    let mut sink = StdSink::new(rt, rt.alloc());
    let mut store = FileStore::new(rt, rt.alloc());
    assert_eq!(rt; sink.create("no-such-folder/file"), Err(WriteError::Failed));
    assert_eq!(rt;
        sink.append("no-such-folder/file", b"a"),
        Err(WriteError::Failed)
    );
    assert_eq!(rt; sink.create("-"), Err(WriteError::Failed));
    assert_eq!(rt;
        store.read(rt.alloc(), "/", 1).map(|_| ()),
        Err(ReadError::Failed)
    );
    NoGate.enter(0, 0);
    Ok(())
}

/// The chosen reads fail, the others go on, and the first of two files of one name is given.
#[test]
fn memory_files(rt: HostRuntime) -> Result<(), Fail> {
    let alloc = rt.alloc();
    let files = vec![in alloc;
        StoredFile {
            name: String::from_str(alloc, "a")?,
            bytes: Vec::from_slice(alloc, b"first")?
        },
        StoredFile {
            name: String::from_str(alloc, "a")?,
            bytes: Vec::from_slice(alloc, b"second")?
        },
    ]?;
    let mut store = MemoryStore::new(files, Vec::from_slice(alloc, &[2])?);
    assert_eq!(rt; store.read(alloc, "a", 3)?.as_slice(), b"fir".as_slice());
    assert_eq!(rt;
        store.read(alloc, "a", 3).map(|_| ()),
        Err(ReadError::Failed)
    );
    assert_eq!(rt; store.read(alloc, "a", 9)?.as_slice(), b"first".as_slice());
    assert_eq!(rt;
        store.read(alloc, "b", 9).map(|_| ()),
        Err(ReadError::Absent)
    );
    Ok(())
}
