//! What a frozen file has to say of a console beside each number's range.

ghost use Rattle.std.specs.Prelude.{◌≡◌, ◌<◌, ◌≤◌, ◌^◌, true, length, nat_le};
ghost use Rattle.std.specs.List.{prefix_len};
ghost use Rattle.gba_console.specs.declared.keys.KeyState.{KeyState};
ghost use Rattle.gba_console.specs.Keys.{due_count};
ghost use Rattle.gba_flash.specs.Soundness.{IsSoundMachine};
ghost use Rattle.gba_io.specs.Drawing.{lines_drawn as lines_drawn_at};
ghost use Rattle.gba_loose_devices.specs.Devices.{keys_poured};
ghost use Rattle.link_node.specs.Packing.{mode_number as number_of_mode};
ghost use Rattle.gba_numbers.specs.Fields.{is_field, place_of};
ghost use Rattle.gba_numbers.specs.Numbers.{value_of};
ghost use Rattle.gba_serial.specs.Timing.{is_word_of as is_word_of_mode};
ghost use Rattle.gba_thaw.specs.Checks.{are_applied as are_applied_of, are_drawn as are_drawn_of, are_known as are_known_of, has_left as has_left_of, has_mode as has_mode_of, is_aligned as is_aligned_of, is_idle as is_idle_of, is_known as is_known_of, is_sound_flash as is_sound_flash_of, is_timed as is_timed_of, pressed_after as pressed_after_of, runs_rightly as runs_rightly_of};

use gba_console::KeyState;
use gba_dma::Channel;
use gba_filling::Drawn;
use gba_flash::{FlashMachine, FlashState};
use gba_image::Backup;
use gba_numbers::{BoardField, Field, Numbers};
use gba_ppu_reg::Position;
use gba_serial::Serial;
use gba_word::{bit, bits};
use link_node::LinkMode;

/// A number that stands by itself.
#[tactic(auto, unfolding(gba_numbers::specs::Numbers::is_there))]
pub(crate) fn single(numbers: &Numbers, field: Field) -> u64
    requires known { is_field field ≡ true }
    requires single { place_of field < 138 }
    ensures { result ≡ value_of field numbers.now }
{
    numbers.value(field)
}

/// Whether r15 is the address of an instruction.
#[tactic(auto, unfolding(crate::specs::Checks::is_aligned))]
pub(crate) fn is_aligned(registers: &[u32; 37]) -> bool
    ensures { result ≡ is_aligned_of registers.now }
{
    let unit = if bit(registers[31], 5) { 2 } else { 4 };
    registers[15] % unit == 0
}

/// Whether the last step took at most 512 cycles and began below the end of the job, and the counts are below 2^40.
#[tactic(auto, unfolding(crate::specs::Checks::is_timed, gba_numbers::specs::Fields::is_field, gba_numbers::specs::Fields::place_of))]
pub(crate) fn is_timed(until: u64, numbers: &Numbers) -> bool
    requires { until ≤ 2 ^ 39 }
    ensures { result ≡ is_timed_of until numbers.now }
{
    let clock = single(numbers, Field::Clock);
    let was = single(numbers, Field::Was);
    was <= clock
        && clock - was <= 512
        && clock <= until + 511
        && single(numbers, Field::Frames) < 0x100_0000_0000
        && single(numbers, Field::Samples) < 0x100_0000_0000
        && single(numbers, Field::Words) < 0x100_0000_0000
}

/// The keys that are pressed once so many changes are applied.
#[tactic(auto, unfolding(crate::specs::Checks::pressed_after))]
fn pressed_after(applied: usize, keys: &[KeyState]) -> u16
    requires { applied ≤ length keys.now }
    ensures { result ≡ pressed_after_of applied keys.now }
{
    if applied == 0 {
        return 0;
    }
    keys[applied - 1].keys % 0x400
}

/// How many changes at the front have come at a clock.
fn front_at(clock: u64, keys: &[KeyState]) -> usize
    ensures { result ≡ prefix_len (λ (change : KeyState). nat_le change.clock clock) keys.now }
{
    keys.iter()
        .take_while(|change| change.clock <= clock)
        .count()
}

/// How many changes a step that begins at a clock finds due.
#[tactic(auto, using(crate::proofs::Changes::due_is_prefix))]
fn due_at(clock: u64, keys: &[KeyState]) -> usize
    ensures { result ≡ due_count clock keys.now }
{
    front_at(clock, keys)
}

/// The keys that are pressed, as they stand in the I/O registers, where a pressed key is 0.
fn pressed_in(io: &[u8; 1024]) -> u16
    ensures { result ≡ (keys_poured io.now).pressed }
{
    let half = u16::from_le_bytes([io[0x130], io[0x131]]);
    0x3FF - bits(u32::from(half), 0, 10) as u16
}

/// Whether the changes of the keys that are applied are some of the console's, and lead to the keys that are pressed.
#[tactic(auto, unfolding(crate::specs::Checks::are_applied, gba_numbers::specs::Fields::is_field, gba_numbers::specs::Fields::place_of))]
pub(crate) fn are_applied(keys: &[KeyState], io: &[u8; 1024], numbers: &Numbers) -> bool
    ensures { result ≡ are_applied_of keys.now (keys_poured io.now).pressed numbers.now }
{
    let applied = single(numbers, Field::Applied);
    if applied > keys.len() as u64 {
        return false;
    }
    let was = single(numbers, Field::Was);
    (was == single(numbers, Field::Clock) || applied == due_at(was, keys) as u64)
        && pressed_in(io) == pressed_after(applied as usize, keys)
}

/// How many lines are drawn at a place.
fn lines_drawn(place: Position) -> u32
    requires { place.line < 228 }
    ensures { result ≡ lines_drawn_at place }
{
    let is_whole = place.line >= 160 || (place.line == 159 && place.dot >= 1006);
    if is_whole {
        0
    } else if place.dot >= 1006 {
        place.line + 1
    } else {
        place.line
    }
}

/// Whether lines are those that are drawn at a place.
#[tactic(auto, unfolding(crate::specs::Checks::are_drawn))]
pub(crate) fn are_drawn(place: Position, drawn: &Drawn) -> bool
    requires { place.line < 228 }
    ensures { result ≡ are_drawn_of place drawn.now }
{
    !drawn.has_gap() && drawn.lines().len() == lines_drawn(place) as usize
}

/// Whether a channel that is active has units left.
pub(crate) fn has_left(channel: Channel) -> bool
    ensures { result ≡ has_left_of channel }
{
    !channel.active || channel.left != 0
}

/// Whether there are no numbers of a transfer.
#[tactic(auto, unfolding(crate::specs::Checks::is_idle, gba_numbers::specs::Fields::is_field, gba_numbers::specs::Fields::is_board_field, gba_numbers::specs::Fields::place_of, gba_numbers::specs::Fields::board_place))]
fn is_idle(numbers: &Numbers) -> bool
    ensures { result ≡ is_idle_of numbers.now }
{
    single(numbers, Field::Board(BoardField::SerialStarted)) == 0
        && single(numbers, Field::Board(BoardField::SerialEnd)) == 0
        && single(numbers, Field::Board(BoardField::SerialGot)) == 0
        && single(numbers, Field::Board(BoardField::SerialSent)) == 0
        && single(numbers, Field::Board(BoardField::SerialWord)) == 0
}

/// Whether a word is one of a transfer in a mode.
#[tactic(auto, unfolding(gba_serial::specs::Timing::is_word_of))]
fn is_word_of(mode: LinkMode, word: u32) -> bool
    ensures { result ≡ is_word_of_mode mode word }
{
    match mode {
        LinkMode::Normal8 => word < 0x100,
        LinkMode::Normal32 => true,
        LinkMode::Multi => word < 0x1_0000,
        LinkMode::Other => false,
    }
}

/// Whether a transfer runs only while the console is on, and in a mode that has transfers; and there are no numbers of
/// one where none runs.
#[tactic(auto, unfolding(crate::specs::Checks::runs_rightly, gba_numbers::specs::Fields::is_field, gba_numbers::specs::Fields::place_of))]
pub(crate) fn runs_rightly(off: u64, numbers: &Numbers, serial: &Serial) -> bool
    ensures { result ≡ runs_rightly_of off numbers.now serial.now }
{
    if !serial.running() {
        return is_idle(numbers);
    }
    let mode = serial.mode();
    off <= single(numbers, Field::Clock)
        && is_word_of(mode, serial.sent())
        && is_word_of(mode, serial.word())
}

fn mode_number(mode: LinkMode) -> u64
    ensures { result ≡ number_of_mode mode }
{
    match mode {
        LinkMode::Normal8 => 0,
        LinkMode::Normal32 => 1,
        LinkMode::Multi => 2,
        LinkMode::Other => 3,
    }
}

/// Whether the mode is the one that the registers give.
#[tactic(auto, unfolding(gba_numbers::specs::Fields::is_field, gba_numbers::specs::Fields::is_board_field, gba_numbers::specs::Fields::place_of, gba_numbers::specs::Fields::board_place))]
pub(crate) fn has_mode(numbers: &Numbers, serial: &Serial) -> bool
    ensures { result ≡ has_mode_of numbers.now serial.now }
{
    single(numbers, Field::Board(BoardField::SerialMode)) == mode_number(serial.mode())
}

/// Whether what is known of a player is Other, if it is the console itself or isn't there.
fn is_known(serial: &Serial, player: u32) -> bool
    requires { player < 4 }
    ensures { result ≡ is_known_of serial.now player }
{
    let seat = serial.seat();
    (player != seat.player && player < seat.count) || mode_number(serial.known(player)) == 3
}

/// The same of players 0 to 3.
#[tactic(auto, unfolding(crate::specs::Checks::are_known))]
pub(crate) fn are_known(serial: &Serial) -> bool
    ensures { result ≡ are_known_of serial.now }
{
    is_known(serial, 0) && is_known(serial, 1) && is_known(serial, 2) && is_known(serial, 3)
}

/// Whether a machine is one of a flash: there is a second bank only in the larger flash.
#[tactic(auto, unfolding(crate::specs::Checks::is_sound_flash))]
pub(crate) fn is_sound_flash(backup: Backup, machine: FlashMachine) -> bool
    ensures value { result ≡ is_sound_flash_of backup machine }
    ensures sound { result ≡ true → IsSoundMachine backup machine }
{
    match backup {
        Backup::Flash128 => machine.bank < 2,
        Backup::Sram | Backup::Flash64 => { machine.bank == 0 && machine.state != FlashState::Bank }
    }
}
