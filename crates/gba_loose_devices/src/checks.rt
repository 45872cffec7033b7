//! What devices and registers need of their numbers.

ghost use Rattle.std.specs.Prelude.{◌≡◌, ◌<◌, ◌≤◌, ◌&&◌, ◌||◌, true, slice_index};
ghost use Rattle.gba_dma.specs.Consistency.{RunsAreEnabled};
ghost use Rattle.gba_psg.specs.Numbers.{tone_of};
ghost use Rattle.gba_psg.specs.Soundness.{AreSound};
ghost use Rattle.gba_psr.specs.Status.{IsStatus};
ghost use Rattle.gba_loose_devices.specs.Checks.{are_cleared as are_cleared_of, are_enabled_runs, are_in_range as are_in_range_of, are_silent as are_silent_of, are_sound_devices as are_sound_devices_of, are_sound_tones as are_sound_tones_of, has_status as has_status_of, is_enabled_run as is_enabled_run_of, is_position as is_position_of, is_silent_tone, is_sound_tone, is_status as is_status_of};
ghost use Rattle.gba_loose_devices.specs.Devices.{channel_poured, channels_poured};
ghost use Rattle.gba_loose_devices.specs.Sound.{tone_halves as tone_halves_of, tone_numbers as tone_numbers_of, tones_poured};
ghost use Rattle.gba_loose_devices.specs.Whole.{AreSoundDevices, registers_poured};

use crate::audio::{tone_halves, tone_numbers};
use crate::units::channel;
use crate::values::register;
use crate::video::place;
use gba_numbers::{Field, Numbers};
use gba_ppu_reg::Position;
use gba_psg::Tone;
use gba_word::{bit, bits};

/// Whether a channel is enabled if it is active.
fn is_enabled_run(numbers: &Numbers, io: &[u8; 1024], number: u32) -> bool
    requires { number < 4 }
    ensures { result ≡ is_enabled_run_of (channel_poured number numbers.now io.now) }
{
    let one = channel(numbers, io, number);
    !one.active || bit(u32::from(one.control), 15)
}

/// Whether all active DMA channels are enabled, as [`crate::channels`] takes them.
#[tactic(auto, unfolding(crate::specs::Devices::channels_poured))]
pub fn runs_are_enabled(numbers: &Numbers, io: &[u8; 1024]) -> bool
    ensures value { result ≡ are_enabled_runs (channels_poured numbers.now io.now) }
    ensures sound { result ≡ true → RunsAreEnabled (channels_poured numbers.now io.now) }
{
    is_enabled_run(numbers, io, 0)
        && is_enabled_run(numbers, io, 1)
        && is_enabled_run(numbers, io, 2)
        && is_enabled_run(numbers, io, 3)
}

/// The tone whose eight numbers begin at a place.
fn tone_at(first: usize, values: &[u32; 33]) -> Tone
    requires { first < 26 }
    ensures { result ≡ tone_of first values.now }
{
    Tone {
        on: values[first] == 1,
        place: values[first + 1],
        wait: values[first + 2],
        left: values[first + 3],
        volume: values[first + 4],
        fade: values[first + 5],
        sweep: values[first + 6],
        shadow: values[first + 7],
    }
}

/// Whether a tone of so many places has its numbers in range, cycles to wait and a length that is left.
#[tactic(auto, unfolding(crate::specs::Checks::is_sound_tone))]
fn is_sound(places: u32, tone: Tone) -> bool
    ensures { result ≡ is_sound_tone places tone }
{
    tone.place < places
        && tone.wait < 0x100_0000
        && tone.left <= 256
        && tone.volume < 16
        && tone.fade < 8
        && tone.sweep < 8
        && tone.shadow < 2048
        && (!tone.on || (0 < tone.wait && 0 < tone.left))
}

/// Whether a tone is as at reset.
#[tactic(auto, unfolding(crate::specs::Checks::is_silent_tone))]
fn is_silent(tone: Tone) -> bool
    ensures { result ≡ is_silent_tone tone }
{
    !tone.on
        && tone.place == 0
        && tone.wait == 0
        && tone.left == 0
        && tone.volume == 0
        && tone.fade == 0
        && tone.sweep == 0
        && tone.shadow == 0
}

/// Whether the tones' numbers are in range.
#[tactic(auto, unfolding(crate::specs::Checks::are_in_range))]
fn are_in_range(values: &[u32; 33]) -> bool
    ensures { result ≡ are_in_range_of values.now }
{
    values[0] < 0x4_0000
        && is_sound(8, tone_at(1, values))
        && is_sound(8, tone_at(9, values))
        && is_sound(64, tone_at(17, values))
        && is_sound(0x8000, tone_at(25, values))
}

/// Whether they are those of tones at reset.
#[tactic(auto, unfolding(crate::specs::Checks::are_silent))]
fn are_silent(values: &[u32; 33]) -> bool
    ensures { result ≡ are_silent_of values.now }
{
    values[0] == 0
        && is_silent(tone_at(1, values))
        && is_silent(tone_at(9, values))
        && is_silent(tone_at(17, values))
        && is_silent(tone_at(25, values))
}

/// Whether the halfwords are 0 that are to be while the master enable is 0.
#[tactic(auto, unfolding(crate::specs::Checks::are_cleared))]
fn are_cleared(halves: &[u16; 13]) -> bool
    ensures { result ≡ are_cleared_of halves.now }
{
    halves[0] == 0
        && halves[1] == 0
        && halves[2] == 0
        && halves[3] == 0
        && halves[4] == 0
        && halves[5] == 0
        && halves[6] == 0
        && halves[7] == 0
        && halves[8] == 0
        && halves[9] == 0
        && halves[10] == 0
}

/// Whether tones of these numbers and halfwords are sound, whatever the wave is.
#[tactic(auto, unfolding(crate::specs::Checks::are_sound_tones))]
fn are_sound(values: &[u32; 33], halves: &[u16; 13]) -> bool
    ensures { result ≡ are_sound_tones_of values.now halves.now }
{
    are_in_range(values)
        && (bit(u32::from(halves[12]), 7) || (are_silent(values) && are_cleared(halves)))
}

/// Whether the tones are sound, as [`crate::tones`] takes them.
pub fn tones_are_sound(numbers: &Numbers, io: &[u8; 1024]) -> bool
    ensures value { result ≡ are_sound_tones_of (tone_numbers_of numbers.now) (tone_halves_of io.now) }
    ensures sound { result ≡ true → AreSound (tones_poured numbers.now io.now) }
{
    are_sound(&tone_numbers(numbers), &tone_halves(io))
}

/// Whether a place is one of the picture.
fn is_position(place: Position) -> bool
    ensures { result ≡ is_position_of place }
{
    place.line < 228 && place.dot < 1232
}

/// Whether the devices are such as [`crate::devices`] takes: active DMA channels are enabled, the tones are sound, the
/// place is one of the picture, and the clock is below 2^63.
#[tactic(auto, unfolding(gba_numbers::specs::Fields::is_field, gba_numbers::specs::Fields::place_of, gba_numbers::specs::Numbers::is_there))]
pub fn are_sound_devices(numbers: &Numbers, io: &[u8; 1024]) -> bool
    ensures value { result ≡ are_sound_devices_of numbers.now io.now }
    ensures sound { result ≡ true → AreSoundDevices numbers.now io.now }
{
    runs_are_enabled(numbers, io)
        && tones_are_sound(numbers, io)
        && is_position(place(numbers))
        && numbers.value(Field::Clock) < 0x8000_0000_0000_0000
}

/// Whether a number has no bits but the stored ones of a status, and one of the seven modes.
fn is_status(status: u32) -> bool
    ensures { result ≡ is_status_of status }
{
    let kept = (bits(status, 28, 4) << 28) + bits(status, 0, 8);
    kept == status
        && matches!(
            bits(status, 0, 5),
            0x10 | 0x11 | 0x12 | 0x13 | 0x17 | 0x1b | 0x1f
        )
}

/// Whether CPSR is one that [`crate::registers`] takes.
pub fn has_status(numbers: &Numbers) -> bool
    ensures value { result ≡ has_status_of numbers.now }
    ensures sound { result ≡ true → IsStatus (slice_index (registers_poured numbers.now) 31) }
{
    is_status(register(numbers, 31))
}
