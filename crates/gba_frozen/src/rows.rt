//! The fixed lines: which there are, and which numbers each has.

ghost use Rattle.std.specs.Prelude.{◌≡◌, ◌<◌, ◌≤◌, true, length};
ghost use Rattle.gba_numbers.specs.Fields.{is_field};
ghost use Rattle.gba_frozen.specs.Rows.{channel_field_of, count_field_of, count_of, flash_field_of, position_field_of, reference_field_of, serial_field_of, timer_field_of, field_of, is_row as is_row_of, keyword_of, number_of_row, spelling_of};

use gba_numbers::{BoardField, Field, register_name};

/// How the numbers of a line are written: in decimal, or as the eight hexadecimal digits of a word.
#[derive(Clone, Copy, Debug, PartialEq, Eq)]
pub enum Spelling {
    Decimal,
    Word,
}

/// A line of a console that has as many numbers as its kind says. What stands in a variant is the number of a player, a
/// register, a timer, a DMA channel, a tone channel (1 to 4) or a background (2 or 3).
#[derive(Clone, Copy, Debug, PartialEq, Eq)]
pub enum Row {
    /// The version of the state file, with which the lines of each console begin.
    Heading,
    Console(u32),
    Clock,
    Halted,
    Register(u32),
    Timer(u32),
    Dma(u32),
    Sequencer,
    Tone(u32),
    Position,
    Affine(u32),
    Serial,
    Known,
    Flash,
    Was,
    Applied,
    Counts,
}

/// Whether the number in a row is one of a player, a register and so on.
#[tactic(auto, unfolding(crate::specs::Rows::is_row))]
pub fn is_row(row: Row) -> bool
    ensures { result ≡ is_row_of row }
{
    match row {
        Row::Console(player) => player < 4,
        Row::Register(register) => register < 37,
        Row::Timer(timer) => timer < 4,
        Row::Dma(channel) => channel < 4,
        Row::Tone(tone) => 1 <= tone && tone <= 4,
        Row::Affine(background) => 2 <= background && background <= 3,
        _ => true,
    }
}

/// The most numbers of a line.
pub const MOST_NUMBERS: u32 = 8;

/// How the numbers of a row are written.
#[tactic(auto, unfolding(crate::specs::Rows::spelling_of))]
pub fn row_spelling(row: Row) -> Spelling
    ensures { result ≡ spelling_of row }
{
    match row {
        Row::Register(_) | Row::Affine(_) => Spelling::Word,
        _ => Spelling::Decimal,
    }
}

/// How many numbers a row has.
#[tactic(auto, unfolding(crate::specs::Rows::count_of))]
pub fn count(row: Row) -> u32
    ensures value { result ≡ count_of row }
    ensures few { result ≤ 8 }
{
    match row {
        Row::Heading | Row::Console(_) => 0,
        Row::Clock | Row::Halted | Row::Register(_) => 1,
        Row::Timer(_) => 4,
        Row::Dma(_) => 5,
        Row::Sequencer => 1,
        Row::Tone(_) => 8,
        Row::Position | Row::Affine(_) => 2,
        Row::Serial => 7,
        Row::Known | Row::Flash => 4,
        Row::Was | Row::Applied => 1,
        Row::Counts => 3,
    }
}

/// The first word of a row.
#[tactic(auto, unfolding(crate::specs::Rows::is_row, crate::specs::Rows::keyword_of))]
pub fn keyword(row: Row) -> &'static [u8]
    requires { is_row_of row ≡ true }
    ensures word { result.now ≡ keyword_of row }
    ensures short { length result.now ≤ 13 }
{
    match row {
        Row::Heading => b"gbalink-state",
        Row::Console(_) => b"console",
        Row::Clock => b"clock",
        Row::Halted => b"halted",
        Row::Register(register) => register_name(register),
        Row::Timer(_) => b"timer",
        Row::Dma(_) => b"dma",
        Row::Sequencer => b"sequencer",
        Row::Tone(_) => b"tone",
        Row::Position => b"position",
        Row::Affine(_) => b"affine",
        Row::Serial => b"serial",
        Row::Known => b"known",
        Row::Flash => b"flash",
        Row::Was => b"was",
        Row::Applied => b"applied",
        Row::Counts => b"counts",
    }
}

/// The number that follows the first word, where a row has one.
#[tactic(auto, unfolding(crate::specs::Rows::number_of_row))]
pub fn row_number(row: Row) -> Option<u32>
    ensures { result ≡ number_of_row row }
{
    match row {
        Row::Heading => Some(1),
        Row::Console(player) => Some(player),
        Row::Timer(timer) => Some(timer),
        Row::Dma(channel) => Some(channel),
        Row::Tone(tone) => Some(tone),
        Row::Affine(background) => Some(background),
        _ => None,
    }
}

fn timer_field(timer: u32, part: u32) -> BoardField
    ensures { result ≡ timer_field_of timer part }
{
    match part {
        0 => BoardField::TimerCounter(timer),
        1 => BoardField::TimerReload(timer),
        2 => BoardField::TimerControl(timer),
        _ => BoardField::TimerPhase(timer),
    }
}

fn channel_field(channel: u32, part: u32) -> BoardField
    ensures { result ≡ channel_field_of channel part }
{
    match part {
        0 => BoardField::DmaActive(channel),
        1 => BoardField::DmaFirst(channel),
        2 => BoardField::DmaSource(channel),
        3 => BoardField::DmaTarget(channel),
        _ => BoardField::DmaLeft(channel),
    }
}

fn serial_field(part: u32) -> BoardField
    ensures { result ≡ serial_field_of part }
{
    match part {
        0 => BoardField::SerialMode,
        1 => BoardField::SerialRunning,
        2 => BoardField::SerialStarted,
        3 => BoardField::SerialEnd,
        4 => BoardField::SerialGot,
        5 => BoardField::SerialSent,
        _ => BoardField::SerialWord,
    }
}

fn flash_field(part: u32) -> Field
    ensures { result ≡ flash_field_of part }
{
    match part {
        0 => Field::FlashState,
        1 => Field::FlashArmed,
        2 => Field::FlashIdentify,
        _ => Field::FlashBank,
    }
}

fn count_field(part: u32) -> Field
    ensures { result ≡ count_field_of part }
{
    match part {
        0 => Field::Frames,
        1 => Field::Samples,
        _ => Field::Words,
    }
}

fn position_field(part: u32) -> BoardField
    ensures { result ≡ position_field_of part }
{
    if part == 0 {
        BoardField::Line
    } else {
        BoardField::Dot
    }
}

fn reference_field(background: u32, part: u32) -> BoardField
    ensures { result ≡ reference_field_of background part }
{
    if part == 0 {
        BoardField::ReferenceX(background)
    } else {
        BoardField::ReferenceY(background)
    }
}

/// The field of a row's number by its place in the row, from 0.
#[tactic(auto, unfolding(crate::specs::Rows::is_row, crate::specs::Rows::count_of, crate::specs::Rows::field_of, gba_numbers::specs::Fields::is_field, gba_numbers::specs::Fields::is_board_field))]
pub fn field(row: Row, part: u32) -> Field
    requires row { is_row_of row ≡ true }
    requires part { part < count_of row }
    ensures value { result ≡ field_of row part }
    ensures known { is_field result ≡ true }
{
    match row {
        Row::Heading | Row::Console(_) => unreachable!(),
        Row::Clock => Field::Clock,
        Row::Halted => Field::Board(BoardField::Halted),
        Row::Register(register) => Field::Register(register),
        Row::Timer(timer) => Field::Board(timer_field(timer, part)),
        Row::Dma(channel) => Field::Board(channel_field(channel, part)),
        Row::Sequencer => Field::Board(BoardField::Sequencer),
        Row::Tone(tone) => Field::Board(BoardField::Tone { tone, part }),
        Row::Position => Field::Board(position_field(part)),
        Row::Affine(background) => Field::Board(reference_field(background, part)),
        Row::Serial => Field::Board(serial_field(part)),
        Row::Known => Field::Board(BoardField::Known(part)),
        Row::Flash => flash_field(part),
        Row::Was => Field::Was,
        Row::Applied => Field::Applied,
        Row::Counts => count_field(part),
    }
}
