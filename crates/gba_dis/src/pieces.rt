//! The pieces of a line: words and marks, each added at its end.

ghost use Rattle.std.specs.Prelude.{◌≡◌, ◌≤◌, ◌<◌, ◌++◌, [], OnOk, ◌∷◌, if◌then◌else◌};
ghost use Rattle.gba_terms.specs.Hexadecimal.{hex, hex_digit as hex_digit_of};
ghost use Rattle.gba_dis.specs.Pieces.{digit_count as digit_count_of, digits_text, entries, braces, number_text, register_name, text_of};

use gba_word::{bit, bits};
use std::alloc::AllocError;

/// Adds text to a line.
pub(crate) fn add(line: &mut Vec<u8>, text: &[u8]) -> Result<(), AllocError>
    ensures { OnOk result (line.new.items ≡ line.old.items ++ text.now) }
{
    line.extend_from_slice(text)
}

/// A register's name.
#[tactic(auto, unfolding(crate::specs::Pieces::register_name))]
pub(crate) fn add_register(line: &mut Vec<u8>, register: u8) -> Result<(), AllocError>
    requires { register < 16 }
    ensures { OnOk result (line.new.items ≡ line.old.items ++ register_name register) }
{
    if register < 10 {
        line.extend_from_slice(&[b'r', b'0' + register])
    } else {
        line.extend_from_slice(&[b'r', b'1', b'0' + (register - 10)])
    }
}

/// A comma, and a register's name.
pub(crate) fn add_next_register(line: &mut Vec<u8>, register: u8) -> Result<(), AllocError>
    requires { register < 16 }
    ensures { OnOk result (line.new.items ≡ line.old.items ++ (44 ∷ 32 ∷ register_name register)) }
{
    add(line, b", ")?;
    add_register(line, register)
}

fn hex_digit(digit: u32) -> u8
    requires { digit < 16 }
    ensures { result ≡ hex_digit_of digit }
{
    if digit < 10 {
        b'0' + digit as u8
    } else {
        b'a' + (digit as u8 - 10)
    }
}

/// So many hexadecimal digits of a number, the highest first.
fn add_hex(line: &mut Vec<u8>, count: u32, number: u32) -> Result<(), AllocError>
    requires { count ≤ 8 }
    ensures { OnOk result (line.new.items ≡ line.old.items ++ hex count number) }
{
    let mut left = count;
    while left > 0 {
        left -= 1;
        line.push(hex_digit(bits(number, 4 * left, 4)))?;
    }
    Ok(())
}

/// `0x` and so many digits of a number.
#[tactic(auto, unfolding(crate::specs::Pieces::digits_text))]
pub(crate) fn add_digits(line: &mut Vec<u8>, count: u32, number: u32) -> Result<(), AllocError>
    requires { count ≤ 8 }
    ensures { OnOk result (line.new.items ≡ line.old.items ++ digits_text count number) }
{
    add(line, b"0x")?;
    add_hex(line, count, number)
}

/// How many hexadecimal digits a number has without leading zeros.
fn digit_count(number: u32) -> u32
    ensures count { result ≡ digit_count_of number }
    ensures few { result ≤ 8 }
{
    match number {
        0..0x10 => 1,
        0x10..0x100 => 2,
        0x100..0x1000 => 3,
        0x1000..0x1_0000 => 4,
        0x1_0000..0x10_0000 => 5,
        0x10_0000..0x100_0000 => 6,
        0x100_0000..0x1000_0000 => 7,
        _ => 8,
    }
}

/// `0x` and a number without leading zeros.
#[tactic(auto, unfolding(crate::specs::Pieces::number_text))]
pub(crate) fn add_number(line: &mut Vec<u8>, number: u32) -> Result<(), AllocError>
    ensures { OnOk result (line.new.items ≡ line.old.items ++ number_text number) }
{
    add_digits(line, digit_count(number), number)
}

/// A comma where another register stands before, and a register's name.
fn add_entry(line: &mut Vec<u8>, register: u8, first: bool) -> Result<(), AllocError>
    requires { register < 16 }
    ensures { OnOk result (line.new.items
        ≡ line.old.items ++ (if first then register_name register else 44 ∷ 32 ∷ register_name register)) }
{
    if first {
        add_register(line, register)
    } else {
        add_next_register(line, register)
    }
}

/// The registers of a list, bit n of which is register n.
fn add_entries(line: &mut Vec<u8>, list: u16) -> Result<(), AllocError>
    ensures { OnOk result (line.new.items ≡ line.old.items ++ text_of (entries list)) }
{
    let mut first = true;
    for register in 0..16u8 {
        if bit(u32::from(list), u32::from(register)) {
            add_entry(line, register, first)?;
            first = false;
        }
    }
    Ok(())
}

/// The registers of a list in braces.
pub(crate) fn add_list(line: &mut Vec<u8>, list: u16) -> Result<(), AllocError>
    ensures { OnOk result (line.new.items ≡ line.old.items ++ text_of (braces list)) }
{
    add(line, b"{")?;
    add_entries(line, list)?;
    add(line, b"}")
}
