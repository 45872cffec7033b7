//! The lines, printed into buffers that have room for them.

ghost use Rattle.std.specs.Prelude.{◌≡◌, ◌+◌, ◌*◌, ◌/◌, ◌%◌, ◌^◌, ◌<◌, ◌≤◌, ◌++◌, [], ◌∷◌, true, length, codes, decimal, vec_len, vec_capacity};
ghost use Rattle.std.specs.List.{list_all};
ghost use Rattle.gba_terms.specs.Hexadecimal.{hex, hex_digit as hex_digit_of};
ghost use Rattle.link_node.specs.Due.{FitsWidths};
ghost use Rattle.gba_frozen_print.specs.Printed.{digest_text, drawn_text, end_text, ended, long_digits, memory_text, queue_text, queue_word, signal_text, version_text, wave_text};
ghost use Rattle.gba_frozen.specs.Rows.{count_of, fits_spelling, is_row, number_words, row_line, spelled_all, spelling_of};
ghost use Rattle.gba_frozen.specs.Spelling.{after_words, hex_all, spelled};
ghost use Rattle.gba_frozen.specs.Words.{memory_name as memory_name_of};

use gba_frozen::{MemoryPlace, Row, Spelling, keyword, queue_name, row_number, row_spelling};
use gba_numbers::MemoryName;
use gba_word::hexadecimal::{hex_byte, hex_half, hex_offset, hex_word};
use itoa::Buffer;
use link_node::{Signal, pack};

/// The most bytes of a row with its line feed.
pub const ROW_ROOM: usize = 193;

/// Adds bytes where there is room for them.
fn add(into: &mut Vec<u8>, bytes: &[u8])
    requires { vec_len into.old + length bytes.now ≤ vec_capacity into.old }
    ensures items { into.new.items ≡ into.old.items ++ bytes.now }
    ensures len { vec_len into.new ≡ vec_len into.old + length bytes.now }
    ensures room { vec_capacity into.old ≤ vec_capacity into.new }
{
    if into.extend_from_slice(bytes).is_err() {
        unreachable!()
    }
}

/// Adds a word behind a space.
fn add_word(into: &mut Vec<u8>, word: &[u8])
    requires { vec_len into.old + length word.now + 1 ≤ vec_capacity into.old }
    ensures items { into.new.items ≡ into.old.items ++ 32 ∷ word.now }
    ensures len { vec_len into.new ≡ vec_len into.old + length word.now + 1 }
    ensures room { vec_capacity into.old ≤ vec_capacity into.new }
{
    add(into, b" ");
    add(into, word);
}

/// Adds a number in decimal behind a space.
fn add_decimal(into: &mut Vec<u8>, number: u64)
    requires { vec_len into.old + 21 ≤ vec_capacity into.old }
    ensures items { into.new.items ≡ into.old.items ++ 32 ∷ decimal number }
    ensures len { vec_len into.new ≤ vec_len into.old + 21 }
    ensures room { vec_capacity into.old ≤ vec_capacity into.new }
{
    add_word(into, Buffer::new().format(number).as_bytes());
}

/// Adds a value so written behind a space; one of eight digits has to fit them.
fn add_value(into: &mut Vec<u8>, spelling: Spelling, value: u64)
    requires fits { fits_spelling spelling value ≡ true }
    requires room { vec_len into.old + 21 ≤ vec_capacity into.old }
    ensures items { into.new.items ≡ into.old.items ++ 32 ∷ spelled spelling value }
    ensures len { vec_len into.new ≤ vec_len into.old + 21 }
    ensures room { vec_capacity into.old ≤ vec_capacity into.new }
{
    match spelling {
        Spelling::Decimal => add_decimal(into, value),
        Spelling::Word => add_word(into, &hex_word(value as u32)),
    }
}

/// Adds the values of a row, each behind a space.
fn add_values(into: &mut Vec<u8>, spelling: Spelling, values: &[u64])
    requires few { length values.now ≤ 8 }
    requires fit { list_all (fits_spelling spelling) values.now ≡ true }
    requires room { vec_len into.old + 21 * length values.now ≤ vec_capacity into.old }
    ensures items { into.new.items ≡ into.old.items ++ after_words (spelled_all spelling values.now) }
    ensures len { vec_len into.new ≤ vec_len into.old + 21 * length values.now }
    ensures room { vec_capacity into.old ≤ vec_capacity into.new }
{
    for value in values {
        add_value(into, spelling, *value);
    }
}

/// Adds the number behind a row's first word, where there is one.
fn add_row_number(into: &mut Vec<u8>, number: Option<u32>)
    requires { vec_len into.old + 11 ≤ vec_capacity into.old }
    ensures items { into.new.items ≡ into.old.items ++ after_words (number_words number) }
    ensures len { vec_len into.new ≤ vec_len into.old + 11 }
    ensures room { vec_capacity into.old ≤ vec_capacity into.new }
{
    if let Some(number) = number {
        add_word(into, Buffer::new().format(number).as_bytes());
    }
}

/// Adds a row with its line feed: 193 bytes are enough for any.
#[tactic(auto, using(gba_frozen::proofs::RowCounts::count_few))]
pub fn add_row(into: &mut Vec<u8>, row: Row, values: &[u64])
    requires row { is_row row ≡ true }
    requires count { length values.now ≡ count_of row }
    requires fit { list_all (fits_spelling (spelling_of row)) values.now ≡ true }
    requires room { vec_len into.old + 193 ≤ vec_capacity into.old }
    ensures items { into.new.items ≡ into.old.items ++ ended (row_line row values.now) }
    ensures len { vec_len into.new ≤ vec_len into.old + 193 }
    ensures room { vec_capacity into.old ≤ vec_capacity into.new }
{
    add(into, keyword(row));
    add_row_number(into, row_number(row));
    add_values(into, row_spelling(row), values);
    add(into, b"\n");
}

/// Adds bytes as two digits each.
fn add_bytes(into: &mut Vec<u8>, bytes: &[u8])
    requires { vec_len into.old + 2 * length bytes.now ≤ vec_capacity into.old }
    ensures items { into.new.items ≡ into.old.items ++ hex_all 2 bytes.now }
    ensures len { vec_len into.new ≡ vec_len into.old + 2 * length bytes.now }
    ensures room { vec_capacity into.old ≤ vec_capacity into.new }
{
    for byte in bytes {
        add(into, &hex_byte(*byte));
    }
}

/// Adds halfwords as four digits each.
fn add_halves(into: &mut Vec<u8>, halves: &[u16])
    requires { vec_len into.old + 4 * length halves.now ≤ vec_capacity into.old }
    ensures items { into.new.items ≡ into.old.items ++ hex_all 4 halves.now }
    ensures len { vec_len into.new ≡ vec_len into.old + 4 * length halves.now }
    ensures room { vec_capacity into.old ≤ vec_capacity into.new }
{
    for half in halves {
        add(into, &hex_half(u32::from(*half)));
    }
}

/// Adds the first line.
pub fn add_version(into: &mut Vec<u8>)
    requires { vec_len into.old + 17 ≤ vec_capacity into.old }
    ensures items { into.new.items ≡ into.old.items ++ ended version_text }
    ensures len { vec_len into.new ≡ vec_len into.old + 17 }
    ensures room { vec_capacity into.old ≤ vec_capacity into.new }
{
    add(into, b"gbalink-frozen 1\n");
}

/// Adds the last line.
pub fn add_end(into: &mut Vec<u8>)
    requires { vec_len into.old + 4 ≤ vec_capacity into.old }
    ensures items { into.new.items ≡ into.old.items ++ ended end_text }
    ensures len { vec_len into.new ≡ vec_len into.old + 4 }
    ensures room { vec_capacity into.old ≤ vec_capacity into.new }
{
    add(into, b"end\n");
}

/// Adds the line of the job's digest.
pub fn add_digest(into: &mut Vec<u8>, digest: &[u8; 32])
    requires { vec_len into.old + 69 ≤ vec_capacity into.old }
    ensures items { into.new.items ≡ into.old.items ++ ended (digest_text digest.now) }
    ensures len { vec_len into.new ≤ vec_len into.old + 69 }
    ensures room { vec_capacity into.old ≤ vec_capacity into.new }
{
    add(into, b"job ");
    add_bytes(into, digest);
    add(into, b"\n");
}

/// Adds the bytes of a queue, or a dash where it holds none.
fn add_queue_word(into: &mut Vec<u8>, bytes: &[u8])
    requires few { length bytes.now ≤ 32 }
    requires room { vec_len into.old + 64 ≤ vec_capacity into.old }
    ensures items { into.new.items ≡ into.old.items ++ queue_word bytes.now }
    ensures len { vec_len into.new ≤ vec_len into.old + 64 }
    ensures room { vec_capacity into.old ≤ vec_capacity into.new }
{
    if bytes.is_empty() {
        add(into, b"-");
    } else {
        add_bytes(into, bytes);
    }
}

/// Adds the line of a sound queue, 0 for A and 1 for B: its current byte, and the bytes that it holds, oldest first.
pub fn add_queue(into: &mut Vec<u8>, queue: u32, current: u8, bytes: &[u8])
    requires few { length bytes.now ≤ 32 }
    requires room { vec_len into.old + 98 ≤ vec_capacity into.old }
    ensures items { into.new.items ≡ into.old.items ++ ended (queue_text queue current bytes.now) }
    ensures len { vec_len into.new ≤ vec_len into.old + 98 }
    ensures room { vec_capacity into.old ≤ vec_capacity into.new }
{
    add(into, b"queue ");
    add(into, queue_name(queue));
    add_word(into, &hex_byte(current));
    add_decimal(into, bytes.len() as u64);
    add(into, b" ");
    add_queue_word(into, bytes);
    add(into, b"\n");
}

/// Adds the line of a bank of channel 3's wave.
pub fn add_wave(into: &mut Vec<u8>, bank: u32, bytes: &[u8; 16])
    requires { vec_len into.old + 49 ≤ vec_capacity into.old }
    ensures items { into.new.items ≡ into.old.items ++ ended (wave_text bank bytes.now) }
    ensures len { vec_len into.new ≤ vec_len into.old + 49 }
    ensures room { vec_capacity into.old ≤ vec_capacity into.new }
{
    add(into, b"wave");
    add_word(into, Buffer::new().format(bank).as_bytes());
    add(into, b" ");
    add_bytes(into, bytes);
    add(into, b"\n");
}

/// The name of a memory.
fn memory_name(name: MemoryName) -> &'static [u8]
    ensures value { result.now ≡ memory_name_of name }
    ensures short { length result.now ≤ 7 }
{
    match name {
        MemoryName::Io => b"io",
        MemoryName::Wram => b"wram",
        MemoryName::Iwram => b"iwram",
        MemoryName::Palette => b"palette",
        MemoryName::Vram => b"vram",
        MemoryName::Oam => b"oam",
        MemoryName::Backup => b"backup",
    }
}

/// Adds the line of 32 bytes of a memory; where they are all 0, a frozen file has no such line.
pub fn add_memory(into: &mut Vec<u8>, place: MemoryPlace, bytes: &[u8])
    requires whole { length bytes.now ≡ 32 }
    requires room { vec_len into.old + 84 ≤ vec_capacity into.old }
    ensures items { into.new.items ≡ into.old.items ++ ended (memory_text place bytes.now) }
    ensures len { vec_len into.new ≤ vec_len into.old + 84 }
    ensures room { vec_capacity into.old ≤ vec_capacity into.new }
{
    add(into, b"mem");
    add_word(into, memory_name(place.name));
    add_word(into, &hex_offset(place.offset));
    add(into, b" ");
    add_bytes(into, bytes);
    add(into, b"\n");
}

/// Adds the line of a drawn line of the present frame.
pub fn add_drawn(into: &mut Vec<u8>, line: u32, colours: &[u16])
    requires whole { length colours.now ≡ 240 }
    requires room { vec_len into.old + 978 ≤ vec_capacity into.old }
    ensures items { into.new.items ≡ into.old.items ++ ended (drawn_text line colours.now) }
    ensures len { vec_len into.new ≤ vec_len into.old + 978 }
    ensures room { vec_capacity into.old ≤ vec_capacity into.new }
{
    add(into, b"drawn");
    add_word(into, Buffer::new().format(line).as_bytes());
    add(into, b" ");
    add_halves(into, colours);
    add(into, b"\n");
}

/// A digit of a number, by where its four bits begin.
fn digit(value: u64, low: u32) -> u8
    requires { low ≤ 60 }
    ensures { result ≡ hex_digit_of (value / 2 ^ low % 16) }
{
    let digit = ((value >> low) % 16) as u8;
    if digit < 10 {
        b'0' + digit
    } else {
        b'a' + (digit - 10)
    }
}

/// The sixteen digits of a number.
#[tactic(auto, unfolding(crate::specs::Printed::long_digits))]
fn hex_long(value: u64) -> [u8; 16]
    ensures { result ≡ long_digits value }
{
    [
        digit(value, 60),
        digit(value, 56),
        digit(value, 52),
        digit(value, 48),
        digit(value, 44),
        digit(value, 40),
        digit(value, 36),
        digit(value, 32),
        digit(value, 28),
        digit(value, 24),
        digit(value, 20),
        digit(value, 16),
        digit(value, 12),
        digit(value, 8),
        digit(value, 4),
        digit(value, 0),
    ]
}

/// Adds the line of a live signal with its sender.
pub fn add_signal(into: &mut Vec<u8>, sender: u32, signal: &Signal)
    requires clock { signal.now.clock < 2 ^ 40 }
    requires widths { FitsWidths signal.now }
    requires room { vec_len into.old + 52 ≤ vec_capacity into.old }
    ensures items { into.new.items ≡ into.old.items ++ ended (signal_text sender signal.now) }
    ensures len { vec_len into.new ≤ vec_len into.old + 52 }
    ensures room { vec_capacity into.old ≤ vec_capacity into.new }
{
    let (head, parts) = pack(signal);
    add(into, b"signal");
    add_word(into, Buffer::new().format(sender).as_bytes());
    add_word(into, &hex_long(head));
    add_word(into, &hex_long(parts));
    add(into, b"\n");
}
