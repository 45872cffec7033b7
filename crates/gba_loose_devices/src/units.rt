//! Timers, DMA channels, interrupts and the keypad.

ghost use Rattle.std.specs.Prelude.{◌≡◌, ◌<◌};
ghost use Rattle.gba_dma.specs.Consistency.{RunsAreEnabled};
ghost use Rattle.gba_loose_devices.specs.Devices.{channel_poured, channels_poured, interrupts_poured, keys_poured, timer_poured, timers_poured};

use crate::values::{half, half_number, truth, word, word_number};
use gba_dma::{Channel, Channels};
use gba_irq::{Interrupts, Keypad};
use gba_numbers::{BoardField, Numbers};
use gba_timer::{Timer, Timers};
use gba_word::{bit, bits};

/// A timer by its number, which is below 4.
#[tactic(auto, unfolding(gba_numbers::specs::Fields::is_board_field))]
fn timer(numbers: &Numbers, timer: u32) -> Timer
    requires { timer < 4 }
    ensures { result ≡ timer_poured timer numbers.now }
{
    Timer {
        counter: half_number(numbers, BoardField::TimerCounter(timer)),
        reload: half_number(numbers, BoardField::TimerReload(timer)),
        control: half_number(numbers, BoardField::TimerControl(timer)),
        phase: half_number(numbers, BoardField::TimerPhase(timer)),
    }
}

/// The four timers, which have no number in the I/O registers that isn't one of their own.
#[tactic(auto, unfolding(crate::specs::Devices::timers_poured))]
pub fn timers(numbers: &Numbers) -> Timers
    ensures { result ≡ timers_poured numbers.now }
{
    Timers::of(
        timer(numbers, 0),
        timer(numbers, 1),
        timer(numbers, 2),
        timer(numbers, 3),
    )
}

/// A DMA channel by its number, which is below 4.
#[tactic(auto, unfolding(gba_numbers::specs::Fields::is_board_field))]
pub(crate) fn channel(numbers: &Numbers, io: &[u8; 1024], channel: u32) -> Channel
    requires { channel < 4 }
    ensures { result ≡ channel_poured channel numbers.now io.now }
{
    let place = 12 * channel as usize;
    Channel {
        source: word(io, 0xB0 + place),
        target: word(io, 0xB4 + place),
        count: half(io, 0xB8 + place),
        control: half(io, 0xBA + place),
        active: truth(numbers, BoardField::DmaActive(channel)),
        first: truth(numbers, BoardField::DmaFirst(channel)),
        inner_source: word_number(numbers, BoardField::DmaSource(channel)),
        inner_target: word_number(numbers, BoardField::DmaTarget(channel)),
        left: word_number(numbers, BoardField::DmaLeft(channel)),
    }
}

/// The four DMA channels: what was written to them stands in the I/O registers, and their runs are numbers of their
/// own. An active one has to be enabled.
#[tactic(auto, unfolding(crate::specs::Devices::channels_poured))]
pub fn channels(numbers: &Numbers, io: &[u8; 1024]) -> Channels
    requires { RunsAreEnabled (channels_poured numbers.now io.now) }
    ensures { result ≡ channels_poured numbers.now io.now }
{
    Channels::of(
        channel(numbers, io, 0),
        channel(numbers, io, 1),
        channel(numbers, io, 2),
        channel(numbers, io, 3),
    )
}

/// IE, IF and IME, as they stand in the I/O registers.
pub fn interrupts(io: &[u8; 1024]) -> Interrupts
    ensures { result ≡ interrupts_poured io.now }
{
    Interrupts {
        enabled: half(io, 0x200),
        raised: half(io, 0x202),
        master: bit(u32::from(half(io, 0x208)), 0),
    }
}

/// The pressed keys, which are 0 in KEYINPUT, and KEYCNT, as they stand in the I/O registers.
pub fn keypad(io: &[u8; 1024]) -> Keypad
    ensures { result ≡ keys_poured io.now }
{
    let free = bits(u32::from(half(io, 0x130)), 0, 10) as u16;
    Keypad::of(0x3FF - free, half(io, 0x132))
}
