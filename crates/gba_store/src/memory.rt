//! A store and a sink in memory, which tell their files. Calls that are to fail are chosen when they are made.

ghost use Rattle.std.specs.Prelude.{◌≡◌, ◌≤◌, Some, None, false, option_map, take, IfOk, OnOk, OnErr, IsOk, IsErr, IsErrOf, IsTrue, MatchResult};
ghost use Rattle.std.specs.Result.{result_err};
ghost use Rattle.gba_store.specs.Chosen.{Counts, GivesInMemory, IsNewSink, IsRead, append_is_chosen, create_is_chosen, files_in, half};
ghost use Rattle.gba_store.specs.Counts.{wants_after};
ghost use Rattle.gba_store.specs.Files.{Written, Created, Appended, CreateFailed, AppendFailed, IsFront, Rose, one_more};
ghost use Rattle.gba_store.specs.Memory.{content_in, files_of};

use crate::outside::{ReadError, Sink, Store, WriteError};
use std::alloc::{AllocError, AllocFailed, Global};
use std::collections::BTreeMap;
use std::marker::Model;

/// A file: its name and its content.
#[derive(Drop)]
pub struct StoredFile {
    pub name: String,
    pub bytes: Vec<u8>,
}

impl Model for StoredFile {
    ghost use Rattle.std.specs.Prelude.{string_bytes};
    ghost use Rattle.gba_store.specs.Memory.{Stored};

    ghost Value = { Stored };

    ghost view = { λ file. record { name = string_bytes file.name; bytes = file.bytes.items } };
}

/// Files in memory. The reads whose numbers are chosen fail; the first read has the number 1. Of two files of one
/// name the first is given.
#[derive(Drop)]
pub struct MemoryStore {
    files: Vec<StoredFile>,
    failing: Vec<u64>,
    reads: u64,
    faults: u64,
    absences: u64,
}

impl Model for MemoryStore {
    ghost use Rattle.gba_store.specs.Memory.{Memory};

    ghost Value = { Memory };

    ghost view = { λ store. record {
      files = store.files.items;
      failing = store.failing.items;
      reads = store.reads;
      faults = store.faults;
      absences = store.absences;
    } };
}

impl MemoryStore {
    /// A store of these files, with no read made yet.
    pub fn new(files: Vec<StoredFile>, failing: Vec<u64>) -> MemoryStore
        ensures { result
            ≡ record { files = files.items; failing = failing.items; reads = 0; faults = 0; absences = 0 } }
    {
        MemoryStore {
            files,
            failing,
            reads: 0,
            faults: 0,
            absences: 0,
        }
    }
}

fn content_of<'a>(files: &'a [StoredFile], name: &str) -> Option<&'a [u8]>
    ensures { option_map (λ bytes. bytes.now) result ≡ content_in files.now name.now }
{
    for file in files {
        if file.name.as_str() == name {
            return Some(file.bytes.as_slice());
        }
    }
    None
}

fn copy_of_front(alloc: Global, bytes: &[u8], most: u64) -> Result<Vec<u8>, AllocError>
    ensures { IfOk result (λ front. front.items ≡ take most bytes.now) }
{
    let count = bytes.len().min(most as usize);
    Vec::from_slice(alloc, &bytes[..count])
}

impl Store for MemoryStore {
    ghost Tells = { Unit {0} };

    ghost files = { λ store. content_in store.files };

    ghost faults = { λ store. store.faults };

    ghost absences = { λ store. store.absences };

    ghost Reads = { λ name _. IsRead name };

    ghost gives = { GivesInMemory };

    ghost gave = { λ name most answer old new given. given };

    ghost says = { λ name most answer old new given. given };

    /// The chosen reads fail, and the others give what the files have, unless memory is wanting.
    fn read(&mut self, alloc: Global, name: &str, most: u64) -> Result<Vec<u8>, ReadError>
        ensures read { IsRead name.now (result_err result) self.old self.new }
        ensures files { Unit {0} → content_in self.new.files ≡ content_in self.old.files }
        ensures bytes { Unit {0}
            → IfOk result (λ bytes. IsFront (content_in self.old.files) name.now most bytes.items) }
        ensures missing { Unit {0} → IsErrOf result ReadError.Absent → content_in self.old.files name.now ≡ None }
        ensures absent { IsErrOf result ReadError.Absent → Rose self.old.absences self.new.absences }
        ensures failed { IsErrOf result ReadError.Failed → Rose self.old.faults self.new.faults }
        ensures later_absences { self.old.absences ≤ self.new.absences }
        ensures later_faults { self.old.faults ≤ self.new.faults }
    {
        self.reads = self.reads.saturating_add(1);
        if self.failing.contains(&self.reads) {
            self.faults = self.faults.saturating_add(1);
            return Err(ReadError::Failed);
        }
        let Some(bytes) = content_of(self.files.as_slice(), name) else {
            self.absences = self.absences.saturating_add(1);
            return Err(ReadError::Absent);
        };
        match copy_of_front(alloc, bytes, most) {
            Ok(front) => Ok(front),
            Err(_) => Err(ReadError::NoMemory),
        }
    }
}

/// Files that are written in memory. The creates and the appends whose numbers are chosen fail; the first of each
/// kind has the number 1, and appends to `-` are counted too. A failing append adds the first half of its piece,
/// rounded down.
#[derive(Drop)]
pub struct MemorySink {
    alloc: Global,
    files: BTreeMap<String, Vec<u8>>,
    failing_creates: Vec<u64>,
    failing_appends: Vec<u64>,
    creates: u64,
    appends: u64,
    faults: u64,
    wants: u64,
}

impl MemorySink {
    /// A sink with no file. It keeps the allocator for its growths.
    pub fn new(alloc: Global, failing_creates: Vec<u64>, failing_appends: Vec<u64>) -> MemorySink
        ensures { IsNewSink failing_creates.items failing_appends.items result }
    {
        MemorySink {
            alloc,
            files: BTreeMap::new(alloc),
            failing_creates,
            failing_appends,
            creates: 0,
            appends: 0,
            faults: 0,
            wants: 0,
        }
    }

    /// Counts a want of memory.
    fn answer(&mut self, written: Result<(), AllocError>) -> Result<(), WriteError>
        ensures kind { MatchResult result (λ _. IsOk written) (λ error. IsErr written × (error ≡ WriteError.NoMemory)) }
        ensures counted { self.new.wants ≡ wants_after (result_err result) self.old.wants }
        ensures rest { self.new ≡ record self.old { wants = self.new.wants } }
        ensures later_wants { self.old.wants ≤ self.new.wants }
    {
        match written {
            Ok(()) => Ok(()),
            Err(_) => {
                self.wants = self.wants.saturating_add(1);
                Err(WriteError::NoMemory)
            }
        }
    }

    /// The content of the file, or None where there is no such file.
    pub fn bytes(&self, name: &str) -> Option<&[u8]>
        ensures { option_map (λ bytes. bytes.now) result ≡ files_in self.now name.now }
    {
        match self.files.get(name) {
            Some(bytes) => Some(bytes.as_slice()),
            None => None,
        }
    }
}

/// Adds the bytes at the end of the file, which begins with them where it isn't there.
fn extend(
    alloc: Global,
    files: &mut BTreeMap<String, Vec<u8>>,
    name: &str,
    bytes: &[u8],
) -> Result<(), AllocError>
    ensures ok { OnOk result (Appended name.now bytes.now (files_of files.old) (files_of files.new)) }
    ensures err { OnErr result (files_of files.new ≡ files_of files.old) }
{
    match files.get_mut(name) {
        Some(content) => {
            content.extend_from_slice(bytes)?;
            Ok(())
        }
        None => insert_file(alloc, files, name, Vec::from_slice(alloc, bytes)?),
    }
}

fn insert_file(
    alloc: Global,
    files: &mut BTreeMap<String, Vec<u8>>,
    name: &str,
    bytes: Vec<u8>,
) -> Result<(), AllocError>
    ensures ok { OnOk result (Written name.now bytes.items (files_of files.old) (files_of files.new)) }
    ensures err { OnErr result (files_of files.new ≡ files_of files.old) }
{
    let key = String::from_str(alloc, name)?;
    files.insert(key, bytes)?;
    Ok(())
}

impl Sink for MemorySink {
    ghost Tells = { Unit {0} };

    ghost state = { λ sink. record { files = files_of sink.files; faults = sink.faults; wants = sink.wants } };

    /// The chosen creates fail and change no file, whether or not there is memory.
    fn create(&mut self, name: &str) -> Result<(), WriteError>
        ensures created { Unit {0} → OnOk result (Created name.now (files_in self.old) (files_in self.new)) }
        ensures left { Unit {0} → IsErrOf result WriteError.Failed
            → CreateFailed name.now (files_in self.old) (files_in self.new) }
        ensures unchanged { Unit {0} → IsErrOf result WriteError.NoMemory → files_in self.new ≡ files_in self.old }
        ensures failed { IsErrOf result WriteError.Failed → Rose self.old.faults self.new.faults }
        ensures wanting { IsErrOf result WriteError.NoMemory → Rose self.old.wants self.new.wants }
        ensures later_faults { self.old.faults ≤ self.new.faults }
        ensures later_wants { self.old.wants ≤ self.new.wants }
        ensures chosen { IsErrOf result WriteError.Failed → IsTrue (create_is_chosen self.old) }
        ensures not_chosen { OnOk result (create_is_chosen self.old ≡ false) }
        ensures no_want_of_a_chosen { IsErrOf result WriteError.NoMemory → create_is_chosen self.old ≡ false }
        ensures kept { OnErr result (files_in self.new ≡ files_in self.old) }
        ensures counts { Counts (result_err result) self.old self.new (one_more self.old.creates) self.old.appends }
    {
        self.creates = self.creates.saturating_add(1);
        if self.failing_creates.contains(&self.creates) {
            self.faults = self.faults.saturating_add(1);
            return Err(WriteError::Failed);
        }
        let written = insert_file(self.alloc, &mut self.files, name, Vec::new(self.alloc));
        self.answer(written)
    }

    /// The chosen appends add half of their piece and fail, unless memory is wanting.
    fn append(&mut self, name: &str, bytes: &[u8]) -> Result<(), WriteError>
        ensures appended { Unit {0}
            → OnOk result (Appended name.now bytes.now (files_in self.old) (files_in self.new)) }
        ensures left { Unit {0} → IsErrOf result WriteError.Failed
            → AppendFailed name.now bytes.now (files_in self.old) (files_in self.new) }
        ensures unchanged { Unit {0} → IsErrOf result WriteError.NoMemory → files_in self.new ≡ files_in self.old }
        ensures failed { IsErrOf result WriteError.Failed → Rose self.old.faults self.new.faults }
        ensures wanting { IsErrOf result WriteError.NoMemory → Rose self.old.wants self.new.wants }
        ensures later_faults { self.old.faults ≤ self.new.faults }
        ensures later_wants { self.old.wants ≤ self.new.wants }
        ensures chosen { IsErrOf result WriteError.Failed → IsTrue (append_is_chosen self.old) }
        ensures not_chosen { OnOk result (append_is_chosen self.old ≡ false) }
        ensures halved { IsErrOf result WriteError.Failed
            → Appended name.now (half bytes.now) (files_in self.old) (files_in self.new) }
        ensures counts { Counts (result_err result) self.old self.new self.old.creates (one_more self.old.appends) }
    {
        self.appends = self.appends.saturating_add(1);
        let fails = self.failing_appends.contains(&self.appends);
        let count = if fails { bytes.len() / 2 } else { bytes.len() };
        let written = extend(self.alloc, &mut self.files, name, &bytes[..count]);
        if fails && written.is_ok() {
            self.faults = self.faults.saturating_add(1);
            return Err(WriteError::Failed);
        }
        self.answer(written)
    }
}
