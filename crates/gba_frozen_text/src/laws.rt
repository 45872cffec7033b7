//! Laws of whole files.

ghost use Rattle.gba_frozen_text.specs.Laws.{FilesAgain, FirstIsWhole};
ghost use Rattle.gba_frozen_text.specs.Memories.{MemoriesAgain};

/// A whole file that is printed comes to the draft that was printed, if that passes the test of the whole,
/// whatever this is.
pub fn files_again()
    ensures { FilesAgain }
{}

/// The lines of the memories of a console, of which those of 32 bytes 0 are left out, may stand in a file, and make
/// these memories from bytes 0.
pub fn memories_again()
    ensures { MemoriesAgain }
{}

/// Such drafts there are: a job's one console as it is at first.
pub fn first_is_whole()
    ensures { FirstIsWhole }
{}
