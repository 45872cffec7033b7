//! The ranges of the numbers.

ghost use Rattle.std.specs.Prelude.{◌≡◌, ◌+◌, ◌*◌, ◌<◌, ◌≤◌, true};
ghost use Rattle.gba_psr.specs.Modes.{is_mode};
ghost use Rattle.gba_psr.specs.Status.{kept_status};
ghost use Rattle.gba_numbers.specs.Fields.{is_board_field, is_field};
ghost use Rattle.gba_numbers.specs.Ranges.{board_fits as board_fits_of, control_fits as control_fits_of, control_mask, field_fits, is_saved_status as is_saved_status_of, is_status as is_status_of, register_fits as register_fits_of, tone_end as tone_end_of};

use crate::fields::{BoardField, Field};
use gba_word::bits;

/// The latest clock of a console: its limit is 2^39 at most, and a step ends at most 511 cycles behind it.
const LATEST_CLOCK: u64 = 0x80_0000_01FF;

/// What a truth as a number, a word, a count, a halfword and a byte are below.
const TRUTH_END: u64 = 2;

const WORD_END: u64 = 0x1_0000_0000;

const COUNT_END: u64 = 0x100_0000_0000;

const HALF_END: u64 = 0x1_0000;

const BYTE_END: u64 = 0x100;

/// What a status register keeps of a number.
fn status_bits(value: u32) -> u32
    ensures { result ≡ kept_status value }
{
    (bits(value, 28, 4) << 28) + bits(value, 0, 8)
}

fn is_mode_number(mode: u32) -> bool
    ensures { result ≡ is_mode mode }
{
    matches!(mode, 0x10 | 0x11 | 0x12 | 0x13 | 0x17 | 0x1b | 0x1f)
}

fn is_saved_status(value: u64) -> bool
    ensures { result ≡ is_saved_status_of value }
{
    if value >= WORD_END {
        return false;
    }
    let word = value as u32;
    status_bits(word) == word
}

fn is_status(value: u64) -> bool
    ensures { result ≡ is_status_of value }
{
    if !is_saved_status(value) {
        return false;
    }
    is_mode_number(bits(value as u32, 0, 5))
}

#[tactic(auto, unfolding(crate::specs::Ranges::register_fits))]
fn register_fits(register: u32, value: u64) -> bool
    ensures { result ≡ register_fits_of register value }
{
    if register < 31 {
        value < WORD_END
    } else if register == 31 {
        is_status(value)
    } else {
        is_saved_status(value)
    }
}

/// The bits of a timer's control that a write stores; timer 0 is no cascade timer.
#[tactic(auto, unfolding(gba_timer::specs::Timers::timer_rows, gba_register::specs::Rows::row_at))]
fn mask_of_control(timer: u32) -> u64
    requires { timer < 4 }
    ensures { result ≡ control_mask timer }
{
    match timer {
        0 => 0x00C3,
        1 => 0x00C7,
        2 => 0x00C7,
        _ => 0x00C7,
    }
}

#[tactic(auto, unfolding(crate::specs::Ranges::control_fits))]
fn control_fits(timer: u32, value: u64) -> bool
    requires { timer < 4 }
    ensures { result ≡ control_fits_of timer value }
{
    value < HALF_END && value & mask_of_control(timer) == value
}

/// The end of the range of a tone's part.
#[tactic(auto, unfolding(crate::specs::Ranges::tone_end))]
fn tone_end(tone: u32, part: u32) -> u64
    ensures { result ≡ tone_end_of tone part }
{
    match part {
        0 => TRUTH_END,
        1 if tone <= 2 => 8,
        1 if tone == 3 => 64,
        1 => 0x8000,
        2 => 0x100_0000,
        3 => 257,
        4 => 16,
        5 => 8,
        6 => 8,
        _ => 2048,
    }
}

#[tactic(auto, unfolding(crate::specs::Fields::is_board_field, crate::specs::Ranges::board_fits))]
fn board_fits(field: BoardField, value: u64) -> bool
    requires { is_board_field field ≡ true }
    ensures { result ≡ board_fits_of field value }
{
    match field {
        BoardField::Halted => value < TRUTH_END,
        BoardField::TimerCounter(_) => value < HALF_END,
        BoardField::TimerReload(_) => value < HALF_END,
        BoardField::TimerControl(timer) => control_fits(timer, value),
        BoardField::TimerPhase(_) => value < 1024,
        BoardField::DmaActive(_) => value < TRUTH_END,
        BoardField::DmaFirst(_) => value < TRUTH_END,
        BoardField::DmaSource(_) => value < WORD_END,
        BoardField::DmaTarget(_) => value < WORD_END,
        BoardField::DmaLeft(_) => value <= HALF_END,
        BoardField::QueueCurrent(_) => value < BYTE_END,
        BoardField::QueueLength(_) => value <= 32,
        BoardField::Sequencer => value < 0x4_0000,
        BoardField::Tone { tone, part } => value < tone_end(tone, part),
        BoardField::WaveByte { bank: _, place: _ } => value < BYTE_END,
        BoardField::Line => value < 228,
        BoardField::Dot => value < 1232,
        BoardField::ReferenceX(_) => value < WORD_END,
        BoardField::ReferenceY(_) => value < WORD_END,
        BoardField::SerialMode => value < 4,
        BoardField::SerialRunning => value < TRUTH_END,
        BoardField::SerialStarted => value < TRUTH_END,
        BoardField::SerialEnd => value < COUNT_END,
        BoardField::SerialGot => value < 16,
        BoardField::SerialSent => value < WORD_END,
        BoardField::SerialWord => value < WORD_END,
        BoardField::Known(_) => value < 4,
    }
}

/// Whether a value is in the range of a number: whether a frozen file may give it there, as far as the number
/// is seen alone.
#[tactic(auto, unfolding(crate::specs::Fields::is_field, crate::specs::Ranges::field_fits))]
pub fn fits(field: Field, value: u64) -> bool
    requires { is_field field ≡ true }
    ensures { result ≡ field_fits field value }
{
    match field {
        Field::Clock => value <= LATEST_CLOCK,
        Field::Was => value <= LATEST_CLOCK,
        Field::Applied => value < COUNT_END,
        Field::Register(register) => register_fits(register, value),
        Field::Board(field) => board_fits(field, value),
        Field::QueueByte { queue: _, place: _ } => value < BYTE_END,
        Field::Frames => value < COUNT_END,
        Field::Samples => value < COUNT_END,
        Field::Words => value < COUNT_END,
        Field::FlashState => value < 5,
        Field::FlashArmed => value < TRUTH_END,
        Field::FlashIdentify => value < TRUTH_END,
        Field::FlashBank => value < TRUTH_END,
    }
}
