//! What a flash remembers beside its bytes.

/// What the last writes were: the front of a command, or a command that awaits its byte (GBATEK, GBA Cart Backup Flash
/// ROM; the states are this project's profile).
#[derive(Clone, Copy, Debug, PartialEq, Eq)]
pub enum FlashState {
    /// No command has begun.
    Ready,
    /// AAh was written at 5555h.
    First,
    /// And then 55h at 2AAAh: a command may be written.
    Second,
    /// The next write programs a byte.
    Program,
    /// The next write at 0 chooses a bank.
    Bank,
}

/// What a flash remembers beside its bytes.
#[derive(Clone, Copy, Debug, PartialEq, Eq)]
pub struct FlashMachine {
    pub state: FlashState,
    /// Whether the command before was the one that an erasing command needs.
    pub armed: bool,
    /// Whether offsets 0 and 1 read what the flash is.
    pub identify: bool,
    /// The bank of 65,536 bytes that reads and writes see, 0 or 1.
    pub bank: u32,
}

/// No command has begun, and bank 0 is seen.
pub(crate) const AT_FIRST: FlashMachine = FlashMachine {
    state: FlashState::Ready,
    armed: false,
    identify: false,
    bank: 0,
};

/// A command, which is written after AAh at 5555h and 55h at 2AAAh.
#[derive(Clone, Copy, Debug, PartialEq, Eq)]
pub(crate) enum Command {
    /// The next command may erase.
    Arm,
    /// Offsets 0 and 1 read what the flash is from now on, or its bytes.
    Identify(bool),
    /// The next write programs a byte.
    Program,
    /// The next write at 0 chooses a bank.
    Bank,
    /// Every byte becomes FFh.
    EraseAll,
    /// The 4,096 bytes of the offset's sector become FFh.
    EraseSector,
    /// No command.
    Nothing,
}
