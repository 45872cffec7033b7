//! The devices and the board together.

ghost use Rattle.std.specs.Prelude.{◌≡◌};
ghost use Rattle.gba_devices.specs.Parts.{devices_of};
ghost use Rattle.gba_serial.specs.Making.{IsSeat};
ghost use Rattle.gba_loose_devices.specs.Whole.{AreSoundDevices, board_poured, counts_poured, devices_poured};

use crate::audio::{sound, tones};
use crate::cable::serial;
use crate::units::{channels, interrupts, keypad, timers};
use crate::values::{half, truth};
use crate::video::{picture, place};
use gba_devices::{DeviceParts, Devices};
use gba_io::{BoardParts, Counts};
use gba_numbers::{BoardField, Field, Numbers};
use gba_serial::Seat;
use gba_word::bit;

/// The devices one by one.
#[tactic(auto, unfolding(gba_numbers::specs::Fields::is_board_field, gba_numbers::specs::Fields::is_field, gba_numbers::specs::Fields::place_of, gba_numbers::specs::Numbers::is_there))]
fn parts(numbers: &Numbers, io: &[u8; 1024]) -> DeviceParts
    requires { AreSoundDevices numbers.now io.now }
    ensures { result ≡ devices_poured numbers.now io.now }
{
    DeviceParts {
        clock: numbers.value(Field::Clock),
        timers: timers(numbers),
        queues: sound(numbers, io),
        tones: tones(numbers, io),
        channels: channels(numbers, io),
        place: place(numbers),
        picture: picture(numbers, io),
        interrupts: interrupts(io),
        keypad: keypad(io),
        waits: half(io, 0x204),
        posted: bit(u32::from(half(io, 0x300)), 0),
        halted: truth(numbers, BoardField::Halted),
    }
}

/// The devices of a console's numbers and of the bytes of its I/O registers. They owe no cycle, and the accesses of the
/// next step are priced by WAITCNT as it is.
pub fn devices(numbers: &Numbers, io: &[u8; 1024]) -> Devices
    requires { AreSoundDevices numbers.now io.now }
    ensures { result ≡ devices_of (devices_poured numbers.now io.now) }
{
    Devices::of(parts(numbers, io))
}

/// How much the console has made.
#[tactic(auto, unfolding(gba_numbers::specs::Fields::is_field, gba_numbers::specs::Fields::place_of, gba_numbers::specs::Numbers::is_there))]
fn counts(numbers: &Numbers) -> Counts
    ensures { result ≡ counts_poured numbers.now }
{
    Counts {
        frames: numbers.value(Field::Frames),
        samples: numbers.value(Field::Samples),
        words: numbers.value(Field::Words),
    }
}

/// What a board is made of beside its memories and the lines that are drawn, for a console with a seat.
pub fn board(seat: Seat, numbers: &Numbers, io: &[u8; 1024]) -> BoardParts
    requires seat { IsSeat seat }
    requires devices { AreSoundDevices numbers.now io.now }
    ensures { result ≡ board_poured seat numbers.now io.now }
{
    BoardParts {
        devices: devices(numbers, io),
        serial: serial(seat, numbers, io),
        counts: counts(numbers),
    }
}
