//! Laws over the definitions. Each is the contract of a function that takes no value.

ghost use Rattle.gba_loose.specs.Again.{BytesAgain, MadeAgain, RunAgain, TonesAgain};

/// The numbers of a board, each in its range, make its timers, the runs of its DMA channels, its picture's place, its
/// inner reference points and its halt again.
pub fn made_again()
    ensures { MadeAgain }
{}

/// The bytes of the sound queues and of the wave, and the numbers beside them, make these again, and so do the modes
/// that players last told.
pub fn bytes_again()
    ensures { BytesAgain }
{}

/// The numbers of a transfer that runs make it again, where it has heard or not heard each of four players, and none
/// where none runs.
pub fn run_again()
    ensures { RunAgain }
{}

/// The numbers of the tone channels, each in its range, are made again.
pub fn tones_again()
    ensures { TonesAgain }
{}
