//! What a step did, as a list of steps tells it.

/// What the last step of a console did.
#[derive(Clone, Copy, Debug, PartialEq, Eq)]
pub enum What {
    /// There was none since reset, or since the lists were emptied.
    Nothing,
    /// A unit of this DMA channel, from 0 to 3.
    Dma { channel: u32 },
    /// It idled, halted.
    Idle,
    /// It entered an interrupt.
    Irq,
    /// It was off.
    Off,
    /// It executed the word at this address, in ARM state.
    Arm { address: u32, word: u32 },
    /// It executed the halfword at this address, in Thumb state.
    Thumb { address: u32, half: u16 },
}

/// Where it stands what the last step did: an instruction in the table of decoded words or halfwords,
/// anything else aside.
#[derive(Clone, Copy)]
pub(crate) enum Told {
    Word,
    Half,
    Aside,
}
