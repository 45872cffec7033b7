//! Laws of the lines: what is printed is read as it was.

ghost use Rattle.gba_frozen_print.specs.Laws.{DigestAgain, DrawnAgain, MemoryAgain, QueuesAgain, RowsAgain, RowsSound, SignalsAgain, WavesAgain};

/// A row is spelled right, so that it can only be refused because a number isn't in its range.
pub fn rows_again()
    ensures { RowsAgain }
{}

/// A row that is read is spelled as it is printed.
pub fn rows_sound()
    ensures { RowsSound }
{}

/// The digest of the job is read as it was printed.
pub fn digest_again()
    ensures { DigestAgain }
{}

/// A bank of the wave is read as it was printed.
pub fn waves_again()
    ensures { WavesAgain }
{}

/// A sound queue is read as it was printed.
pub fn queues_again()
    ensures { QueuesAgain }
{}

/// 32 bytes of a memory are read as they were printed, where they may stand.
pub fn memory_again()
    ensures { MemoryAgain }
{}

/// A drawn line is read as it was printed, where it may stand.
pub fn drawn_again()
    ensures { DrawnAgain }
{}

/// A live signal is read as it was printed.
pub fn signals_again()
    ensures { SignalsAgain }
{}
