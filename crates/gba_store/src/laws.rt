//! Laws over the stores of this crate. Each is the contract of a function that takes no value.

ghost use Rattle.gba_store.specs.Chosen.{IsRead};
ghost use Rattle.gba_store.specs.Counts.{CountsExactly};
ghost use Rattle.gba_store.specs.Memory.{Memory};

use crate::outside::Store;
use crate::system::FileStore;
use std::fs::File;
use std::rt::Files;

/// What a store in memory says of its reads fixes its counts.
pub fn memory_counts_exactly()
    ensures { CountsExactly {Store = Memory} (λ name _. IsRead name) (λ store. store.absences) (λ store. store.faults) }
{}

/// And so does what the real store says of its reads.
pub fn real_files_count_exactly<R: Files<File = File> + Drop>()
    ensures { CountsExactly ⟦<FileStore<R> as Store>⟧.Reads
        ⟦<FileStore<R> as Store>⟧.absences ⟦<FileStore<R> as Store>⟧.faults }
{}
