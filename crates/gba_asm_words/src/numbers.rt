//! Numbers.

ghost use Rattle.std.specs.Prelude.{◌≡◌};
ghost use Rattle.gba_asm_words.specs.Numbers.{begins_as_hexadecimal as begins_as_hexadecimal_of, decimal_of, hexadecimal_of, number_of};

use gba_text::{are_digits, are_hex_digits, ascii_text};

#[tactic(auto, unfolding(crate::specs::Numbers::decimal_of))]
fn decimal_in(word: &[u8]) -> Option<u32>
    ensures { result ≡ decimal_of word.now }
{
    if word.is_empty() || !are_digits(word) {
        return None;
    }
    ascii_text(word).parse::<u32>().ok()
}

#[tactic(auto, unfolding(crate::specs::Numbers::hexadecimal_of))]
fn hexadecimal_in(digits: &[u8]) -> Option<u32>
    ensures { result ≡ hexadecimal_of digits.now }
{
    if digits.is_empty() || !are_hex_digits(digits) {
        return None;
    }
    u32::from_str_radix(ascii_text(digits), 16).ok()
}

fn begins_as_hexadecimal(word: &[u8]) -> bool
    ensures { result ≡ begins_as_hexadecimal_of word.now }
{
    word.len() >= 2 && &word[..2] == b"0x".as_slice()
}

/// The number that a word spells: decimal digits, or `0x` and hexadecimal digits in either case, of at most 32 bits.
#[tactic(auto, unfolding(crate::specs::Numbers::number_of))]
pub fn number_in(word: &[u8]) -> Option<u32>
    ensures { result ≡ number_of word.now }
{
    if begins_as_hexadecimal(word) {
        return hexadecimal_in(&word[2..]);
    }
    decimal_in(word)
}
