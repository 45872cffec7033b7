//! Numbers and registers.

ghost use Rattle.std.specs.Prelude.{◌≡◌, ◌+◌, ◌%◌, ◌^◌, ◌<◌, ◌≤◌, true, length, slice_index};
ghost use Rattle.gba_numbers.specs.Fields.{is_board_field};
ghost use Rattle.gba_numbers.specs.Numbers.{value_of};
ghost use Rattle.gba_numbers.specs.declared.fields.Field.TheVariants.{Board, Register};
ghost use Rattle.gba_loose_devices.specs.Sound.{queue_in};
ghost use Rattle.gba_loose_devices.specs.Values.{half_at, is_set, number_cut, word_at};

use gba_numbers::{BoardField, Field, Numbers};

/// A number of the board.
#[tactic(auto, using(crate::proofs::There::number_there), unfolding(gba_numbers::specs::Fields::is_field))]
pub(crate) fn number(numbers: &Numbers, field: BoardField) -> u64
    requires { is_board_field field ≡ true }
    ensures { result ≡ value_of (Board field) numbers.now }
{
    numbers.value(Field::Board(field))
}

/// One that is a truth: 1 for true.
pub(crate) fn truth(numbers: &Numbers, field: BoardField) -> bool
    requires { is_board_field field ≡ true }
    ensures { result ≡ is_set field numbers.now }
{
    number(numbers, field) == 1
}

/// One that is a byte.
pub(crate) fn byte_number(numbers: &Numbers, field: BoardField) -> u8
    requires { is_board_field field ≡ true }
    ensures { result ≡ number_cut 8 field numbers.now }
{
    (number(numbers, field) % 0x100) as u8
}

/// One that is a halfword.
pub(crate) fn half_number(numbers: &Numbers, field: BoardField) -> u16
    requires { is_board_field field ≡ true }
    ensures { result ≡ number_cut 16 field numbers.now }
{
    (number(numbers, field) % 0x1_0000) as u16
}

/// One that is a word.
pub(crate) fn word_number(numbers: &Numbers, field: BoardField) -> u32
    requires { is_board_field field ≡ true }
    ensures { result ≡ number_cut 32 field numbers.now }
{
    (number(numbers, field) % 0x1_0000_0000) as u32
}

/// A register of the processor, by its number below 37.
#[tactic(auto, unfolding(gba_numbers::specs::Fields::is_field, gba_numbers::specs::Fields::place_of, gba_numbers::specs::Numbers::is_there))]
pub(crate) fn register(numbers: &Numbers, register: u32) -> u32
    requires { register < 37 }
    ensures { result ≡ value_of (Register register) numbers.now % 2 ^ 32 }
{
    (numbers.value(Field::Register(register)) % 0x1_0000_0000) as u32
}

/// How many bytes a sound queue holds, 0 for A and 1 for B: 32 at most.
#[tactic(auto, unfolding(gba_numbers::specs::Fields::is_board_field))]
pub(crate) fn count_number(numbers: &Numbers, queue: u32) -> u32
    requires { queue < 2 }
    ensures count { result ≡ length (queue_in queue numbers.now) }
    ensures few { result ≤ 32 }
{
    numbers.is_whole();
    number(numbers, BoardField::QueueLength(queue)) as u32
}

/// One of them, the oldest at place 0.
pub(crate) fn queue_byte(numbers: &Numbers, queue: u32, place: u32) -> u8
    requires queue { queue < 2 }
    requires place { place < length (queue_in queue numbers.now) }
    ensures { result ≡ slice_index (queue_in queue numbers.now) place % 2 ^ 8 }
{
    numbers.is_whole();
    let field = Field::QueueByte { queue, place };
    (numbers.value(field) % 0x100) as u8
}

/// The halfword at an offset of the I/O registers.
pub(crate) fn half(io: &[u8; 1024], offset: usize) -> u16
    requires { offset + 1 < 1024 }
    ensures { result ≡ half_at offset io.now }
{
    u16::from_le_bytes([io[offset], io[offset + 1]])
}

/// The word there.
pub(crate) fn word(io: &[u8; 1024], offset: usize) -> u32
    requires { offset + 3 < 1024 }
    ensures { result ≡ word_at offset io.now }
{
    u32::from(half(io, offset)) + 0x1_0000 * u32::from(half(io, offset + 2))
}
