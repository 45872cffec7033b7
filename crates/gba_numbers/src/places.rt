//! The places of the numbers in the order of a frozen file.

ghost use Rattle.std.specs.Prelude.{◌≡◌, ◌<◌, true};
ghost use Rattle.gba_numbers.specs.Fields.{board_place as board_place_of, is_board_field as is_board_field_of, is_field as is_field_of, place_of};

use crate::fields::{BoardField, Field};

/// How many numbers of a console stand by themselves, in no list of bytes.
pub const NUMBERS: usize = 138;

#[tactic(auto, unfolding(crate::specs::Fields::is_board_field, crate::specs::Fields::board_place))]
fn board_place(field: BoardField) -> usize
    requires { is_board_field_of field ≡ true }
    ensures place { result ≡ board_place_of field }
    ensures within { result < 234 }
{
    let place = match field {
        BoardField::Halted => 1,
        BoardField::TimerCounter(timer) => 39 + 4 * timer,
        BoardField::TimerReload(timer) => 40 + 4 * timer,
        BoardField::TimerControl(timer) => 41 + 4 * timer,
        BoardField::TimerPhase(timer) => 42 + 4 * timer,
        BoardField::DmaActive(channel) => 55 + 5 * channel,
        BoardField::DmaFirst(channel) => 56 + 5 * channel,
        BoardField::DmaSource(channel) => 57 + 5 * channel,
        BoardField::DmaTarget(channel) => 58 + 5 * channel,
        BoardField::DmaLeft(channel) => 59 + 5 * channel,
        BoardField::QueueCurrent(queue) => 75 + 2 * queue,
        BoardField::QueueLength(queue) => 76 + 2 * queue,
        BoardField::Sequencer => 79,
        BoardField::Tone { tone, part } => 80 + 8 * (tone - 1) + part,
        BoardField::WaveByte { bank, place } => 202 + 16 * bank + place,
        BoardField::Line => 112,
        BoardField::Dot => 113,
        BoardField::ReferenceX(background) => 114 + 2 * (background - 2),
        BoardField::ReferenceY(background) => 115 + 2 * (background - 2),
        BoardField::SerialMode => 118,
        BoardField::SerialRunning => 119,
        BoardField::SerialStarted => 120,
        BoardField::SerialEnd => 121,
        BoardField::SerialGot => 122,
        BoardField::SerialSent => 123,
        BoardField::SerialWord => 124,
        BoardField::Known(player) => 125 + player,
    };
    place as usize
}

#[tactic(auto, unfolding(crate::specs::Fields::is_board_field))]
fn is_board_field(field: BoardField) -> bool
    ensures { result ≡ is_board_field_of field }
{
    match field {
        BoardField::TimerCounter(timer) => timer < 4,
        BoardField::TimerReload(timer) => timer < 4,
        BoardField::TimerControl(timer) => timer < 4,
        BoardField::TimerPhase(timer) => timer < 4,
        BoardField::DmaActive(channel) => channel < 4,
        BoardField::DmaFirst(channel) => channel < 4,
        BoardField::DmaSource(channel) => channel < 4,
        BoardField::DmaTarget(channel) => channel < 4,
        BoardField::DmaLeft(channel) => channel < 4,
        BoardField::QueueCurrent(queue) => queue < 2,
        BoardField::QueueLength(queue) => queue < 2,
        BoardField::Tone { tone, part } => 1 <= tone && tone <= 4 && part < 8,
        BoardField::WaveByte { bank, place } => bank < 2 && place < 16,
        BoardField::ReferenceX(background) => 2 <= background && background <= 3,
        BoardField::ReferenceY(background) => 2 <= background && background <= 3,
        BoardField::Known(player) => player < 4,
        _ => true,
    }
}

/// Whether what stands in a field is the number of a register, a timer, a channel and so on.
#[tactic(auto, unfolding(crate::specs::Fields::is_field))]
pub fn is_field(field: Field) -> bool
    ensures { result ≡ is_field_of field }
{
    match field {
        Field::Register(register) => register < 37,
        Field::Board(field) => is_board_field(field),
        Field::QueueByte { queue, place } => queue < 2 && place < 32,
        _ => true,
    }
}

/// The place of a number in the order of a frozen file's lines: below 138 for one that stands by itself. Behind these
/// stand the bytes of the two queues, 32 places for each, and the bytes of the wave's two banks, 16 for each.
#[tactic(auto, unfolding(crate::specs::Fields::is_field, crate::specs::Fields::place_of))]
pub fn place(field: Field) -> usize
    requires { is_field_of field ≡ true }
    ensures place { result ≡ place_of field }
    ensures within { result < 234 }
{
    match field {
        Field::Clock => 0,
        Field::Was => 133,
        Field::Applied => 134,
        Field::Register(register) => 2 + register as usize,
        Field::Board(field) => board_place(field),
        Field::QueueByte { queue, place } => (138 + 32 * queue + place) as usize,
        Field::Frames => 135,
        Field::Samples => 136,
        Field::Words => 137,
        Field::FlashState => 129,
        Field::FlashArmed => 130,
        Field::FlashIdentify => 131,
        Field::FlashBank => 132,
    }
}
