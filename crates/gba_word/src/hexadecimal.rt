//! Numbers as hexadecimal digits, lower case, the highest first.

ghost use Rattle.std.specs.Prelude.{◌≡◌, ◌<◌};
ghost use Rattle.gba_terms.specs.Hexadecimal.{hex, hex_digit as hex_digit_of};

use crate::bits;

fn hex_digit(digit: u32) -> u8
    requires { digit < 16 }
    ensures { result ≡ hex_digit_of digit }
{
    if digit < 10 {
        b'0' + digit as u8
    } else {
        b'a' + (digit as u8 - 10)
    }
}

/// The eight digits of a word.
pub fn hex_word(value: u32) -> [u8; 8]
    ensures { result ≡ hex 8 value }
{
    [
        hex_digit(bits(value, 28, 4)),
        hex_digit(bits(value, 24, 4)),
        hex_digit(bits(value, 20, 4)),
        hex_digit(bits(value, 16, 4)),
        hex_digit(bits(value, 12, 4)),
        hex_digit(bits(value, 8, 4)),
        hex_digit(bits(value, 4, 4)),
        hex_digit(bits(value, 0, 4)),
    ]
}

/// The six digits of an offset in a memory: its low 24 bits.
pub fn hex_offset(value: u32) -> [u8; 6]
    ensures { result ≡ hex 6 value }
{
    [
        hex_digit(bits(value, 20, 4)),
        hex_digit(bits(value, 16, 4)),
        hex_digit(bits(value, 12, 4)),
        hex_digit(bits(value, 8, 4)),
        hex_digit(bits(value, 4, 4)),
        hex_digit(bits(value, 0, 4)),
    ]
}

/// The four digits of a halfword: the low 16 bits.
pub fn hex_half(value: u32) -> [u8; 4]
    ensures { result ≡ hex 4 value }
{
    [
        hex_digit(bits(value, 12, 4)),
        hex_digit(bits(value, 8, 4)),
        hex_digit(bits(value, 4, 4)),
        hex_digit(bits(value, 0, 4)),
    ]
}

/// The two digits of the low byte.
pub fn hex_low_byte(value: u32) -> [u8; 2]
    ensures { result ≡ hex 2 value }
{
    [hex_digit(bits(value, 4, 4)), hex_digit(bits(value, 0, 4))]
}

/// The two digits of a byte.
pub fn hex_byte(value: u8) -> [u8; 2]
    ensures { result ≡ hex 2 value }
{
    hex_low_byte(u32::from(value))
}
