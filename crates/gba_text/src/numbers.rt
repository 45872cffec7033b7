//! Words that spell numbers.

ghost use Rattle.std.specs.Prelude.{◌≡◌, ◌≤◌};
ghost use Rattle.std.specs.Str.{IsAscii};
ghost use Rattle.gba_text.specs.Numbers.{all_digits, all_hex_digits, hex_number_of, number_of};

/// The most digits of a number.
const MOST_DIGITS: usize = 20;

/// Bytes below 128 as text.
pub fn ascii_text(bytes: &[u8]) -> &str
    requires { IsAscii bytes.now }
    ensures { result.now ≡ bytes.now }
{
    match str::from_utf8(bytes) {
        Ok(text) => text,
        Err(_) => unreachable!(),
    }
}

/// Whether each byte is a decimal digit.
pub fn are_digits(word: &[u8]) -> bool
    ensures { result ≡ all_digits word.now }
{
    word.iter().all(|byte| byte.is_ascii_digit())
}

/// Whether each byte is a hexadecimal digit, in either case.
pub fn are_hex_digits(word: &[u8]) -> bool
    ensures { result ≡ all_hex_digits word.now }
{
    word.iter().all(|byte| byte.is_ascii_hexdigit())
}

/// The number that a word spells, if it spells one from `least` to `most` with 1 to 20 decimal digits.
#[tactic(auto, unfolding(crate::specs::Numbers::number_of))]
pub fn number_in(word: &[u8], least: u64, most: u64) -> Option<u64>
    ensures { result ≡ number_of least most word.now }
{
    if word.is_empty() || word.len() > MOST_DIGITS || !are_digits(word) {
        return None;
    }
    match ascii_text(word).parse::<u64>() {
        Ok(number) if least <= number && number <= most => Some(number),
        _ => None,
    }
}

/// The number that a word of just so many hexadecimal digits spells, if it is one.
#[tactic(auto, unfolding(crate::specs::Numbers::hex_number_of))]
pub(crate) fn hex_number_in(word: &[u8], digits: u32) -> Option<u64>
    requires some { 1 ≤ digits }
    requires few { digits ≤ 16 }
    ensures { result ≡ hex_number_of digits word.now }
{
    if word.len() != digits as usize || !are_hex_digits(word) {
        return None;
    }
    u64::from_str_radix(ascii_text(word), 16).ok()
}
