//! The picture's place and its registers.

ghost use Rattle.std.specs.Prelude.{◌≡◌, ◌≤◌};
ghost use Rattle.gba_loose_devices.specs.Picture.{halves_at, halves_poured, picture_poured, place_poured, reference_poured};

use crate::values::{half, word_number};
use gba_numbers::{BoardField, Numbers};
use gba_ppu_reg::{PictureRegisters, Position, Reference};

/// The picture's place, which is one of the picture only where its numbers are in their ranges.
#[tactic(auto, unfolding(gba_numbers::specs::Fields::is_board_field))]
pub fn place(numbers: &Numbers) -> Position
    ensures { result ≡ place_poured numbers.now }
{
    Position {
        line: word_number(numbers, BoardField::Line),
        dot: word_number(numbers, BoardField::Dot),
    }
}

/// The inner reference point of background 2 or 3.
#[tactic(auto, unfolding(gba_numbers::specs::Fields::is_board_field))]
fn reference(numbers: &Numbers, background: u32) -> Reference
    requires least { 2 ≤ background }
    requires most { background ≤ 3 }
    ensures { result ≡ reference_poured background numbers.now }
{
    Reference {
        x: word_number(numbers, BoardField::ReferenceX(background)),
        y: word_number(numbers, BoardField::ReferenceY(background)),
    }
}

/// The halfwords of the picture as they stand in the I/O registers.
fn shown_halves(io: &[u8; 1024]) -> [u16; 43]
    ensures { result ≡ halves_at 43 io.now }
{
    let mut halves = [0; 43];
    for place in 0..43 {
        halves[place] = half(io, 2 * place);
    }
    halves
}

/// Those that the picture's registers store.
#[tactic(auto, unfolding(crate::specs::Picture::halves_poured))]
fn halves(io: &[u8; 1024]) -> [u16; 43]
    ensures { result ≡ halves_poured io.now }
{
    let mut halves = shown_halves(io);
    halves[2] = half(io, 0x004) & 0xFF38;
    halves[3] = 0;
    halves
}

/// The picture's registers, as they stand in the I/O registers, but for what the place shows there, and the inner
/// reference points, which are numbers of their own.
pub fn picture(numbers: &Numbers, io: &[u8; 1024]) -> PictureRegisters
    ensures { result ≡ picture_poured numbers.now io.now }
{
    PictureRegisters::of(&halves(io), reference(numbers, 2), reference(numbers, 3))
}
