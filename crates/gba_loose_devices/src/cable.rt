//! The serial unit.

ghost use Rattle.std.specs.Prelude.{◌≡◌, ◌<◌};
ghost use Rattle.gba_serial.specs.Making.{IsSeat};
ghost use Rattle.gba_loose_devices.specs.Cable.{known_poured, mode_poured, registers_at, run_poured, serial_poured};

use crate::values::{half, number, truth, word_number};
use gba_numbers::{BoardField, Numbers};
use gba_serial::{Running, Seat, Serial, SerialRegisters, players_of_mask};
use gba_word::bit;
use link_node::LinkMode;

/// What stands in the unit's registers.
fn registers(io: &[u8; 1024]) -> SerialRegisters
    ensures { result ≡ registers_at io.now }
{
    let control = half(io, 0x128);
    SerialRegisters {
        control: control & 0x708B,
        error: bit(u32::from(control), 6),
        select: half(io, 0x134),
        send: half(io, 0x12A),
        words: [
            half(io, 0x120),
            half(io, 0x122),
            half(io, 0x124),
            half(io, 0x126),
        ],
    }
}

/// The transfer that runs, if any.
#[tactic(auto, unfolding(crate::specs::Cable::run_poured, gba_numbers::specs::Fields::is_board_field))]
fn run(numbers: &Numbers) -> Option<Running>
    ensures { result ≡ run_poured numbers.now }
{
    if !truth(numbers, BoardField::SerialRunning) {
        return None;
    }
    Some(Running {
        starter: truth(numbers, BoardField::SerialStarted),
        end: number(numbers, BoardField::SerialEnd),
        sent: word_number(numbers, BoardField::SerialSent),
        word: word_number(numbers, BoardField::SerialWord),
        got: players_of_mask(word_number(numbers, BoardField::SerialGot)),
    })
}

/// The mode that a player last told.
#[tactic(auto, unfolding(gba_numbers::specs::Fields::is_board_field))]
fn mode(numbers: &Numbers, player: u32) -> LinkMode
    requires { player < 4 }
    ensures { result ≡ mode_poured player numbers.now }
{
    match number(numbers, BoardField::Known(player)) {
        0 => LinkMode::Normal8,
        1 => LinkMode::Normal32,
        2 => LinkMode::Multi,
        _ => LinkMode::Other,
    }
}

/// Those of players 0 to 3.
#[tactic(auto, unfolding(crate::specs::Cable::known_poured))]
fn known(numbers: &Numbers) -> [LinkMode; 4]
    ensures { result ≡ known_poured numbers.now }
{
    [
        mode(numbers, 0),
        mode(numbers, 1),
        mode(numbers, 2),
        mode(numbers, 3),
    ]
}

/// The serial unit of a console with a seat: its registers stand among the I/O registers, and the transfer that runs
/// and the modes that players last told are numbers of their own. It has nothing to tell.
pub fn serial(seat: Seat, numbers: &Numbers, io: &[u8; 1024]) -> Serial
    requires { IsSeat seat }
    ensures { result ≡ serial_poured seat numbers.now io.now }
{
    Serial::of(seat, registers(io), known(numbers), run(numbers))
}
