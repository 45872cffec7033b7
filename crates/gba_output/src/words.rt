//! The words of transfers.

ghost use Rattle.std.specs.Prelude.{◌≡◌, ◌+◌, ◌*◌, ◌≤◌, ◌++◌, [], codes, length, vec_len, vec_capacity};
ghost use Rattle.gba_output.specs.Truths.{truth as truth_of};
ghost use Rattle.gba_output.specs.TransferWords.{half_text, multi_words, words_in, words_line, words_text};

use crate::state::add;
use gba_serial::Transfer;
use gba_word::hexadecimal::{hex_half, hex_low_byte, hex_word};
use itoa::Buffer;
use link_node::LinkMode;

/// The room of a transfer's line in bytes.
pub const WORDS_ROOM: usize = 49;

/// A truth as a digit.
fn truth(set: bool) -> &'static [u8]
    ensures value { result.now ≡ truth_of set }
    ensures short { length result.now ≡ 1 }
{
    if set { b"1" } else { b"0" }
}

/// Adds four digits and a blank.
#[tactic(auto, unfolding(crate::specs::TransferWords::half_text))]
fn add_half(into: &mut Vec<u8>, value: u16)
    requires { vec_len into.old + 5 ≤ vec_capacity into.old }
    ensures items { into.new.items ≡ into.old.items ++ half_text value }
    ensures len { vec_len into.new ≡ vec_len into.old + 5 }
    ensures room { vec_capacity into.old ≤ vec_capacity into.new }
{
    add(into, &hex_half(u32::from(value)));
    add(into, b" ");
}

/// Adds the words of a Multi transfer.
fn add_multi(into: &mut Vec<u8>, transfer: &Transfer)
    requires { vec_len into.old + 27 ≤ vec_capacity into.old }
    ensures items { into.new.items ≡ into.old.items ++ multi_words transfer.now }
    ensures len { vec_len into.new ≡ vec_len into.old + 27 }
    ensures room { vec_capacity into.old ≤ vec_capacity into.new }
{
    add(into, b"multi ");
    add_half(into, transfer.words[0]);
    add_half(into, transfer.words[1]);
    add_half(into, transfer.words[2]);
    add_half(into, transfer.words[3]);
    add(into, truth(transfer.error));
}

/// Adds a name and two words.
fn add_pair(into: &mut Vec<u8>, name: &[u8], sent: &[u8], got: &[u8])
    requires name { length name.now ≤ 9 }
    requires sent { length sent.now ≤ 8 }
    requires got { length got.now ≤ 8 }
    requires room { vec_len into.old + 26 ≤ vec_capacity into.old }
    ensures items { into.new.items ≡ into.old.items ++ (name.now ++ sent.now ++ codes " " ++ got.now) }
    ensures len { vec_len into.new ≤ vec_len into.old + 26 }
    ensures room { vec_capacity into.old ≤ vec_capacity into.new }
{
    add(into, name);
    add(into, sent);
    add(into, b" ");
    add(into, got);
}

/// Adds the words of a transfer.
fn add_words(into: &mut Vec<u8>, transfer: &Transfer)
    requires { vec_len into.old + 27 ≤ vec_capacity into.old }
    ensures items { into.new.items ≡ into.old.items ++ words_in transfer.now.mode transfer.now }
    ensures len { vec_len into.new ≤ vec_len into.old + 27 }
    ensures room { vec_capacity into.old ≤ vec_capacity into.new }
{
    match transfer.mode {
        LinkMode::Multi => add_multi(into, transfer),
        LinkMode::Normal8 => add_pair(
            into,
            b"normal8 ",
            &hex_low_byte(transfer.sent),
            &hex_low_byte(transfer.got),
        ),
        LinkMode::Normal32 => add_pair(
            into,
            b"normal32 ",
            &hex_word(transfer.sent),
            &hex_word(transfer.got),
        ),
        LinkMode::Other => {}
    }
}

/// Adds the line of a transfer.
#[tactic(auto, unfolding(crate::specs::TransferWords::words_line))]
fn add_transfer(into: &mut Vec<u8>, transfer: &Transfer)
    requires { vec_len into.old + 49 ≤ vec_capacity into.old }
    ensures items { into.new.items ≡ into.old.items ++ words_line transfer.now }
    ensures len { vec_len into.new ≤ vec_len into.old + 49 }
    ensures room { vec_capacity into.old ≤ vec_capacity into.new }
{
    let mut buffer = Buffer::new();
    add(into, buffer.format(transfer.end).as_bytes());
    add(into, b" ");
    add_words(into, transfer);
    add(into, b"\n");
}

/// Writes the words of transfers, a line each, into an empty buffer with room for them.
pub fn write_words(into: &mut Vec<u8>, transfers: &[Transfer])
    requires empty { into.old.items ≡ [] }
    requires room { 49 * length transfers.now ≤ vec_capacity into.old }
    ensures items { into.new.items ≡ words_text transfers.now }
    ensures room { vec_capacity into.old ≤ vec_capacity into.new }
{
    for transfer in transfers {
        add_transfer(into, transfer);
    }
}
