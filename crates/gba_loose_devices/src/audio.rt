//! Direct sound and the tone channels.

ghost use Rattle.std.specs.Prelude.{◌≡◌, ◌<◌, ◌≤◌, true};
ghost use Rattle.arrayvec.specs.ArrayVec.{array_vec_len};
ghost use Rattle.gba_numbers.specs.Fields.{is_board_field};
ghost use Rattle.gba_psg.specs.Soundness.{AreSound};
ghost use Rattle.gba_loose_devices.specs.Sound.{queue_in, queue_poured, sound_poured, tone_field as tone_field_of, tone_halves as tone_halves_of, tone_numbers as tone_numbers_of, tones_poured, wave_in};
ghost use Rattle.gba_loose_devices.specs.Values.{bytes_cut};

use crate::values::{byte_number, count_number, half, queue_byte, word_number};
use arrayvec::ArrayVec;
use gba_numbers::{BoardField, Numbers};
use gba_psg::Tones;
use gba_sound::{Queue, Queues};
use gba_word::{bit, bits};

/// The bytes that a sound queue holds.
fn queue_bytes(numbers: &Numbers, queue: u32) -> ArrayVec<u8, 32>
    requires { queue < 2 }
    ensures items { result.items ≡ bytes_cut (queue_in queue numbers.now) }
    ensures few { array_vec_len result ≤ 32 }
{
    let mut bytes = ArrayVec::new();
    for place in 0..count_number(numbers, queue) {
        bytes.push(queue_byte(numbers, queue, place));
    }
    bytes
}

/// A sound queue, 0 for A and 1 for B.
#[tactic(auto, unfolding(gba_numbers::specs::Fields::is_board_field))]
fn queue(numbers: &Numbers, queue: u32) -> Queue
    requires { queue < 2 }
    ensures { result ≡ queue_poured queue numbers.now }
{
    let bytes = queue_bytes(numbers, queue);
    let current = byte_number(numbers, BoardField::QueueCurrent(queue));
    Queue::of(bytes.as_slice(), current)
}

/// Direct sound: the bytes of its queues are numbers of their own, and its registers stand among the I/O registers.
pub fn sound(numbers: &Numbers, io: &[u8; 1024]) -> Queues
    ensures { result ≡ sound_poured numbers.now io.now }
{
    let is_on = bit(u32::from(half(io, 0x084)), 7);
    Queues::of(
        queue(numbers, 0),
        queue(numbers, 1),
        half(io, 0x082),
        is_on,
        half(io, 0x088),
    )
}

/// Which of a console's numbers is which of the tones'.
#[tactic(auto, unfolding(crate::specs::Sound::tone_field, gba_numbers::specs::Fields::is_board_field))]
fn tone_field(place: u32) -> BoardField
    requires { place < 33 }
    ensures field { result ≡ tone_field_of place }
    ensures known { is_board_field result ≡ true }
{
    if place == 0 {
        BoardField::Sequencer
    } else {
        BoardField::Tone {
            tone: (place - 1) / 8 + 1,
            part: (place - 1) % 8,
        }
    }
}

/// The tones' numbers.
pub(crate) fn tone_numbers(numbers: &Numbers) -> [u32; 33]
    ensures { result ≡ tone_numbers_of numbers.now }
{
    let mut values = [0; 33];
    for place in 0..33 {
        values[place] = word_number(numbers, tone_field(place as u32));
    }
    values
}

/// The bytes of a bank of the wave.
#[tactic(auto, unfolding(gba_numbers::specs::Fields::is_board_field))]
fn wave(numbers: &Numbers, bank: u32) -> [u8; 16]
    requires { bank < 2 }
    ensures { result ≡ bytes_cut (wave_in bank numbers.now) }
{
    numbers.is_whole();
    let mut bytes = [0; 16];
    for place in 0..16 {
        let field = BoardField::WaveByte {
            bank,
            place: place as u32,
        };
        bytes[place] = byte_number(numbers, field);
    }
    bytes
}

/// The tones' halfwords.
#[tactic(auto, unfolding(crate::specs::Sound::tone_halves))]
pub(crate) fn tone_halves(io: &[u8; 1024]) -> [u16; 13]
    ensures { result ≡ tone_halves_of io.now }
{
    [
        half(io, 0x060),
        half(io, 0x062),
        half(io, 0x064),
        half(io, 0x068),
        half(io, 0x06C),
        half(io, 0x070),
        half(io, 0x072),
        half(io, 0x074),
        half(io, 0x078),
        half(io, 0x07C),
        half(io, 0x080),
        bits(u32::from(half(io, 0x082)), 0, 2) as u16,
        half(io, 0x084),
    ]
}

/// The tone channels: their numbers and both banks of the wave are numbers of their own, and their registers stand
/// among the I/O registers. They have to be sound.
pub fn tones(numbers: &Numbers, io: &[u8; 1024]) -> Tones
    requires { AreSound (tones_poured numbers.now io.now) }
    ensures { result ≡ tones_poured numbers.now io.now }
{
    let values = tone_numbers(numbers);
    let bank0 = wave(numbers, 0);
    let bank1 = wave(numbers, 1);
    Tones::of(&values, &bank0, &bank1, &tone_halves(io))
}
