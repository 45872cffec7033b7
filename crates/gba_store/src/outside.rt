//! The traits of a store, which gives files, and of a sink, which takes them.

ghost use Rattle.std.specs.Prelude.{◌≡◌, ℕ, ◌≤◌, List, Option, Result, IfOk, IsErrOf, OnOk};
ghost use Rattle.std.specs.Result.{result_err};
ghost use Rattle.gba_store.specs.Given.{Gives};
ghost use Rattle.gba_store.specs.Files.{Files, SinkState, Rose, IsFront, Created, Appended, CreateFailed, AppendFailed};

use std::alloc::Global;

/// Why a file wasn't read.
#[derive(Clone, Copy, Debug, PartialEq, Eq)]
pub enum ReadError {
    /// There is no such file.
    Absent,
    /// The device or the system failed.
    Failed,
    /// Memory was wanting.
    NoMemory,
}

/// Why a file wasn't written.
#[derive(Clone, Copy, Debug, PartialEq, Eq)]
pub enum WriteError {
    /// The device or the system failed.
    Failed,
    /// Memory was wanting.
    NoMemory,
}

/// Gives files by name. It may tell its files, and it counts its faults and the absences that it found. Neither
/// count ever falls. This project's profile.
pub trait Store {
    ghost use Rattle.gba_store.specs.declared.outside.ReadError.{ReadError};

    /// Whether the files are told: a type with a value, or one with none.
    ghost Tells: { Type 0 };

    ghost files: { Self → Files };

    ghost faults: { Self → ℕ };

    ghost absences: { Self → ℕ };

    /// What a store says of a read: that a read of this name and of at most so many bytes, refused so or not at all,
    /// took it from the one state to the other. Contracts say by it which reads were made, and which of them was
    /// refused, which the counts alone don't tell.
    ghost Reads: { List ℕ → ℕ → Option ReadError → Self → Self → Type 0 };

    /// That a read of this name and of at most so many bytes, with this answer, took it from the one state
    /// to the other.
    ghost gives: { List ℕ → ℕ → Result (List ℕ) ReadError → Self → Self → Type 0 };

    /// The first `most` bytes of the file, or all of them where there are fewer.
    fn read(&mut self, alloc: Global, name: &str, most: u64) -> Result<Vec<u8>, ReadError>
        ensures read { Reads name.now most (result_err result) self.old self.new }
        ensures files { Tells → files self.new ≡ files self.old }
        ensures bytes { Tells → IfOk result (λ bytes. IsFront (files self.old) name.now most bytes.items) }
        ensures missing { Tells → IsErrOf result ReadError.Absent → files self.old name.now ≡ None }
        ensures absent { IsErrOf result ReadError.Absent → Rose (absences self.old) (absences self.new) }
        ensures failed { IsErrOf result ReadError.Failed → Rose (faults self.old) (faults self.new) }
        ensures later_absences { absences self.old ≤ absences self.new }
        ensures later_faults { faults self.old ≤ faults self.new };

    /// A read is given just as its clauses say.
    ghost gave: { (name : List ℕ) (most : ℕ) (answer : Result (List ℕ) ReadError) (old new : Self)
        → Gives Tells files Reads absences faults name most answer old new → gives name most answer old new };

    ghost says: { (name : List ℕ) (most : ℕ) (answer : Result (List ℕ) ReadError) (old new : Self)
        → gives name most answer old new → Gives Tells files Reads absences faults name most answer old new };
}

/// Takes files by name; `-` is standard output. It may tell what is written, and it counts its faults and its wants
/// of memory. Neither count ever falls. This project's profile.
pub trait Sink {
    /// Whether the files are told: a type with a value, or one with none.
    ghost Tells: { Type 0 };

    /// Its files, and its counts of faults and of wants of memory.
    ghost state: { Self → SinkState };

    /// Makes the file empty.
    fn create(&mut self, name: &str) -> Result<(), WriteError>
        ensures created { Tells → OnOk result (Created name.now (state self.old).files ((state self.new).files)) }
        ensures left { Tells → IsErrOf result WriteError.Failed
            → CreateFailed name.now (state self.old).files ((state self.new).files) }
        ensures unchanged { Tells → IsErrOf result WriteError.NoMemory
            → (state self.new).files ≡ (state self.old).files }
        ensures failed { IsErrOf result WriteError.Failed → Rose ((state self.old).faults) ((state self.new).faults) }
        ensures wanting { IsErrOf result WriteError.NoMemory → Rose ((state self.old).wants) ((state self.new).wants) }
        ensures later_faults { (state self.old).faults ≤ (state self.new).faults }
        ensures later_wants { (state self.old).wants ≤ (state self.new).wants };

    /// Adds the bytes at the file's end, and makes the file first where it isn't there.
    fn append(&mut self, name: &str, bytes: &[u8]) -> Result<(), WriteError>
        ensures appended { Tells
            → OnOk result (Appended name.now bytes.now (state self.old).files ((state self.new).files)) }
        ensures left { Tells → IsErrOf result WriteError.Failed
            → AppendFailed name.now bytes.now (state self.old).files ((state self.new).files) }
        ensures unchanged { Tells → IsErrOf result WriteError.NoMemory
            → (state self.new).files ≡ (state self.old).files }
        ensures failed { IsErrOf result WriteError.Failed → Rose ((state self.old).faults) ((state self.new).faults) }
        ensures wanting { IsErrOf result WriteError.NoMemory → Rose ((state self.old).wants) ((state self.new).wants) }
        ensures later_faults { (state self.old).faults ≤ (state self.new).faults }
        ensures later_wants { (state self.old).wants ≤ (state self.new).wants };
}
