//! The devices one by one.

use gba_dma::Channels;
use gba_irq::{Interrupts, Keypad};
use gba_ppu_reg::{PictureRegisters, Position};
use gba_psg::Tones;
use gba_sound::Queues;
use gba_timer::Timers;

/// The devices of a board, each as it is of its numbers.
#[derive(Debug, Drop)]
pub struct DeviceParts {
    /// The clock: cycles since reset.
    pub clock: u64,
    pub timers: Timers,
    pub queues: Queues,
    pub tones: Tones,
    pub channels: Channels,
    /// The place of the picture.
    pub place: Position,
    pub picture: PictureRegisters,
    pub interrupts: Interrupts,
    pub keypad: Keypad,
    /// WAITCNT, by which the accesses of the next step are priced.
    pub waits: u16,
    /// POSTFLG's bit 0.
    pub posted: bool,
    pub halted: bool,
}
