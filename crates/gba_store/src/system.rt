//! The real store and sink: the files of the current folder, and standard output. They tell nothing of content.
//!
//! What was read is held by a shared lock of the system as long as the store is there, and what is made empty by a lock
//! of its own as long as the sink is: so no file that was read is emptied, whatever name leads to it.

ghost use Rattle.std.specs.Prelude.{◌≡◌, ◌≤◌, Some, None};
ghost use Rattle.std.specs.Result.{result_err};
ghost use Rattle.gba_store.specs.Given.{Gives};
ghost use Rattle.gba_store.specs.Counts.{absences_after, read_faults_after, write_faults_after, wants_after};

use crate::outside::{ReadError, Sink, Store, WriteError};
use std::alloc::Global;
use std::fs::{File, OpenOptions, TryLockError};
use std::io::{self, ErrorKind, Read, Write};
use std::rt::Files;

/// Reads the files of the current folder. It counts each fault and each absence from 0, up to the last value of a u64.
/// It says of a read only what that counts. It keeps a lock on each file that it has read, which others may share: who
/// would make that file empty finds it held, under whatever name.
#[derive(Drop)]
pub struct FileStore<R: Files<File = File> + Drop> {
    runtime: R,
    held: Vec<File>,
    faults: u64,
    absences: u64,
}

impl<R: Files<File = File> + Drop> FileStore<R> {
    /// A store with no fault and no absence yet, which keeps its locks in memory of this allocator.
    pub fn new(runtime: R, alloc: Global) -> FileStore<R>
        ensures no_fault { ⟦<FileStore<R> as Store>⟧.faults result ≡ 0 }
        ensures no_absence { ⟦<FileStore<R> as Store>⟧.absences result ≡ 0 }
    {
        FileStore {
            runtime,
            held: Vec::new(alloc),
            faults: 0,
            absences: 0,
        }
    }
}

/// Whether a lock was refused because somebody else has one. Where the file system knows no locks, nobody has.
fn is_held_by_another(locked: Result<(), TryLockError>) -> bool {
    matches!(&locked, Err(TryLockError::WouldBlock))
}

/// Whether a file is one that a lock protects: not a terminal, a pipe or another device.
fn is_on_disk(file: &File) -> io::Result<bool> {
    Ok(file.metadata()?.is_file())
}

/// The front of a file, which is held from then on. One that is being written is refused.
fn read_and_hold<R: Files<File = File>>(
    runtime: &R,
    alloc: Global,
    held: &mut Vec<File>,
    name: &str,
    most: u64,
) -> io::Result<Vec<u8>> {
    let mut file = File::open(runtime, name)?;
    if is_on_disk(&file)? && is_held_by_another(file.try_lock_shared()) {
        return Err(io::Error::from(ErrorKind::WouldBlock));
    }
    let mut bytes = Vec::new(alloc);
    Read::by_ref(&mut file).take(most).read_to_end(&mut bytes)?;
    held.push(file)?;
    Ok(bytes)
}

impl<R: Files<File = File> + Drop> Store for FileStore<R> {
    ghost Tells = { ⊥ };

    ghost files = { λ _ _. None };

    ghost faults = { λ store. store.faults };

    ghost absences = { λ store. store.absences };

    ghost Reads = { λ _ _ refusal old new.
        (new.absences ≡ absences_after refusal old.absences) × (new.faults ≡ read_faults_after refusal old.faults) };

    ghost gives = { Gives ⊥ (λ _ _. None) (λ _ _ refusal old new.
        (new.absences ≡ absences_after refusal old.absences) × (new.faults ≡ read_faults_after refusal old.faults))
        (λ store. store.absences) (λ store. store.faults) };

    ghost gave = { λ name most answer old new given. given };

    ghost says = { λ name most answer old new given. given };

    /// A file that the system doesn't find is absent. Every other refusal but want of memory is a fault, and so is a
    /// file that a sink has made empty and still holds.
    fn read(&mut self, alloc: Global, name: &str, most: u64) -> Result<Vec<u8>, ReadError>
        ensures counts { (self.new.absences ≡ absences_after (result_err result) self.old.absences)
            × (self.new.faults ≡ read_faults_after (result_err result) self.old.faults) }
        ensures later_absences { self.old.absences ≤ self.new.absences }
        ensures later_faults { self.old.faults ≤ self.new.faults }
    {
        let read = read_and_hold(&self.runtime, alloc, &mut self.held, name, most);
        let error = match read {
            Ok(bytes) => return Ok(bytes),
            Err(error) => error,
        };
        match error.kind() {
            ErrorKind::NotFound => {
                self.absences = self.absences.saturating_add(1);
                Err(ReadError::Absent)
            }
            ErrorKind::OutOfMemory => Err(ReadError::NoMemory),
            _ => {
                self.faults = self.faults.saturating_add(1);
                Err(ReadError::Failed)
            }
        }
    }
}

/// Writes the files of the current folder, and standard output under the name `-`. It counts each fault and each want
/// of memory from 0, up to the last value of a u64. It keeps a lock on each file that it has made empty, so that no
/// other run writes it meanwhile.
#[derive(Drop)]
pub struct StdSink<R: Files<File = File> + Print + Drop> {
    runtime: R,
    held: Vec<File>,
    faults: u64,
    wants: u64,
}

impl<R: Files<File = File> + Print + Drop> StdSink<R> {
    /// A sink with no fault and no want yet, which keeps its locks in memory of this allocator.
    pub fn new(runtime: R, alloc: Global) -> StdSink<R>
        ensures no_fault { (⟦<StdSink<R> as Sink>⟧.state result).faults ≡ 0 }
        ensures no_want { (⟦<StdSink<R> as Sink>⟧.state result).wants ≡ 0 }
    {
        StdSink {
            runtime,
            held: Vec::new(alloc),
            faults: 0,
            wants: 0,
        }
    }

    /// Counts a refusal of the system.
    fn refusal(&mut self, error: &io::Error) -> WriteError
        ensures faults { self.new.faults ≡ write_faults_after (Some result) self.old.faults }
        ensures wants { self.new.wants ≡ wants_after (Some result) self.old.wants }
        ensures later_faults { self.old.faults ≤ self.new.faults }
        ensures later_wants { self.old.wants ≤ self.new.wants }
    {
        if error.kind() == ErrorKind::OutOfMemory {
            self.wants = self.wants.saturating_add(1);
            WriteError::NoMemory
        } else {
            self.faults = self.faults.saturating_add(1);
            WriteError::Failed
        }
    }
}

/// Makes a file empty and holds it. One that somebody has read and holds, or that another run writes, is refused, and
/// stays as it is.
fn empty_and_hold<R: Files<File = File>>(
    runtime: &R,
    held: &mut Vec<File>,
    name: &str,
) -> io::Result<()> {
    let file = OpenOptions::new()
        .append(true)
        .create(true)
        .open(runtime, name)?;
    if !is_on_disk(&file)? {
        return Ok(());
    }
    if is_held_by_another(file.try_lock()) {
        return Err(io::Error::from(ErrorKind::WouldBlock));
    }
    file.set_len(0)?;
    held.push(file)?;
    Ok(())
}

fn append_to_file<R: Files>(runtime: &R, name: &str, bytes: &[u8]) -> io::Result<()> {
    let mut file = OpenOptions::new()
        .append(true)
        .create(true)
        .open(runtime, name)?;
    file.write_all(bytes)?;
    file.flush()
}

fn print_bytes<R: Print>(runtime: &R, bytes: &[u8]) -> io::Result<()> {
    let mut output = io::writer(runtime);
    output.write_all(bytes)?;
    output.flush()
}

impl<R: Files<File = File> + Print + Drop> Sink for StdSink<R> {
    ghost Tells = { ⊥ };

    ghost state = { λ sink. record { files = λ _. None; faults = sink.faults; wants = sink.wants } };

    /// Standard output can't be made empty: `create` of `-` is a fault, and so is one of a file that is held, by this
    /// run or another.
    fn create(&mut self, name: &str) -> Result<(), WriteError>
        ensures faults { self.new.faults ≡ write_faults_after (result_err result) self.old.faults }
        ensures wants { self.new.wants ≡ wants_after (result_err result) self.old.wants }
        ensures later_faults { self.old.faults ≤ self.new.faults }
        ensures later_wants { self.old.wants ≤ self.new.wants }
    {
        if name == "-" {
            self.faults = self.faults.saturating_add(1);
            return Err(WriteError::Failed);
        }
        match empty_and_hold(&self.runtime, &mut self.held, name) {
            Ok(()) => Ok(()),
            Err(error) => Err(self.refusal(&error)),
        }
    }

    /// A file is opened for each append. Each append is flushed before it answers.
    fn append(&mut self, name: &str, bytes: &[u8]) -> Result<(), WriteError>
        ensures faults { self.new.faults ≡ write_faults_after (result_err result) self.old.faults }
        ensures wants { self.new.wants ≡ wants_after (result_err result) self.old.wants }
        ensures later_faults { self.old.faults ≤ self.new.faults }
        ensures later_wants { self.old.wants ≤ self.new.wants }
    {
        let written = if name == "-" {
            print_bytes(&self.runtime, bytes)
        } else {
            append_to_file(&self.runtime, name, bytes)
        };
        match written {
            Ok(()) => Ok(()),
            Err(error) => Err(self.refusal(&error)),
        }
    }
}
