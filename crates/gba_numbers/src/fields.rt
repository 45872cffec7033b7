//! The names of a console's numbers.

/// A number of a console's devices. What stands in a variant is the number of a timer (0 to 3), of a DMA channel (0 to
/// 3), of a sound queue (0 for A and 1 for B), of a background (2 or 3), of a player (0 to 3), of a tone channel (1 to
/// 4), or of a bank of channel 3's wave (0 or 1).
#[derive(Clone, Copy, Debug, PartialEq, Eq)]
pub enum BoardField {
    Halted,
    TimerCounter(u32),
    TimerReload(u32),
    TimerControl(u32),
    TimerPhase(u32),
    DmaActive(u32),
    DmaFirst(u32),
    DmaSource(u32),
    DmaTarget(u32),
    DmaLeft(u32),
    QueueCurrent(u32),
    QueueLength(u32),
    Sequencer,
    /// The parts of a tone are, from 0: on, place, wait, left, volume, fade, sweep, shadow.
    Tone { tone: u32, part: u32 },
    WaveByte { bank: u32, place: u32 },
    Line,
    Dot,
    ReferenceX(u32),
    ReferenceY(u32),
    SerialMode,
    SerialRunning,
    SerialStarted,
    SerialEnd,
    SerialGot,
    SerialSent,
    SerialWord,
    Known(u32),
}

/// A number of a console. A register is 0 to 36 in the order of the register names; a queue's byte is one of those that
/// the queue holds, the oldest at place 0.
#[derive(Clone, Copy, Debug, PartialEq, Eq)]
pub enum Field {
    Clock,
    Was,
    Applied,
    Register(u32),
    Board(BoardField),
    QueueByte { queue: u32, place: u32 },
    Frames,
    Samples,
    Words,
    FlashState,
    FlashArmed,
    FlashIdentify,
    FlashBank,
}
