//! Readers of the words of a line.

ghost use Rattle.std.specs.Prelude.{◌≡◌, ◌+◌, ◌*◌, ◌/◌, ◌%◌, ◌^◌, ◌<◌, ◌≤◌, ◌==◌, true, [], length, take, drop, min, IfOk, IfSome};
ghost use Rattle.std.specs.List.{list_all};
ghost use Rattle.std.specs.Str.Parse.{digits_value};
ghost use Rattle.arrayvec.specs.ArrayVec.{array_vec_len};
ghost use Rattle.gba_text.specs.Answers.{Agrees, Takes};
ghost use Rattle.gba_text.specs.Numbers.{is_number as is_number_of};
ghost use Rattle.gba_frozen.specs.Spelling.{decimal_said as decimal_said_of, has_digits as has_digits_of, hex_said as hex_said_of, is_digit as is_digit_of, is_plain as is_plain_of, number_said as number_said_of, numbers_in};
ghost use Rattle.gba_frozen.specs.Words.{decimal_at as decimal_at_of, end_at as end_at_of, exact as exact_of, hex_at as hex_at_of, memory_at as memory_at_of, memory_named as memory_named_of, number_behind as number_behind_of, numbers_at, value_at as value_at_of, values_at as values_at_of, word_at as word_at_of};

use crate::kinds::ThawKind;
use crate::pieces::Words;
use crate::rows::Spelling;
use arrayvec::ArrayVec;
use gba_numbers::MemoryName;
use gba_text::{are_digits, ascii_text, number_in};
use itoa::Buffer;

/// The most digits of a decimal number.
const LONGEST_NUMBER: usize = 20;

/// The digits of the colours of a line.
const COLOUR_DIGITS: usize = 960;

/// The digits of a word.
const WORD_DIGITS: usize = 8;

/// The next word.
pub(crate) fn word_at<'a>(words: &mut Words<'a>) -> Result<&'a [u8], ThawKind>
    ensures { Takes (λ w. w.now) result words.new (word_at_of words.old) }
{
    match words.next() {
        Some(word) => Ok(word),
        None => Err(ThawKind::Spelling),
    }
}

/// Takes just this word.
#[tactic(auto, unfolding(crate::specs::Words::exact))]
pub(crate) fn exact(words: &mut Words<'_>, text: &[u8]) -> Result<(), ThawKind>
    ensures { Takes (λ _. true) result words.new (exact_of text.now words.old) }
{
    let word = word_at(words)?;
    if word != text {
        return Err(ThawKind::Spelling);
    }
    Ok(())
}

/// Nothing follows.
pub(crate) fn end_at(words: &mut Words<'_>) -> Result<(), ThawKind>
    ensures { Agrees (λ _. true) result (end_at_of words.old) }
{
    match words.next() {
        Some(_) => Err(ThawKind::Spelling),
        None => Ok(()),
    }
}

fn is_number(word: &[u8]) -> bool
    ensures { result ≡ is_number_of word.now }
{
    1 <= word.len() && word.len() <= LONGEST_NUMBER && are_digits(word)
}

/// Whether a word has 1 to 20 decimal digits, and no zero in front.
fn is_plain(word: &[u8]) -> bool
    ensures { result ≡ is_plain_of word.now }
{
    if !is_number(word) {
        return false;
    }
    word.len() == 1 || word[0] != b'0'
}

/// The number that a decimal word spells; one that 64 bits don't hold counts as the greatest that they do.
#[tactic(auto, unfolding(crate::specs::Spelling::decimal_said, gba_text::specs::Numbers::number_of))]
fn decimal_said(word: &[u8]) -> Option<u64>
    ensures { result ≡ decimal_said_of word.now }
{
    if !is_plain(word) {
        return None;
    }
    match number_in(word, 0, u64::MAX) {
        Some(number) => Some(number),
        None => Some(u64::MAX),
    }
}

fn is_digit(byte: u8) -> bool
    ensures { result ≡ is_digit_of byte }
{
    (48 <= byte && byte <= 57) || (97 <= byte && byte <= 102)
}

/// Whether a word has just so many lower case hexadecimal digits.
fn has_digits(word: &[u8], count: usize) -> bool
    ensures { result ≡ has_digits_of count word.now }
{
    word.len() == count && are_hex_digits(word)
}

/// Whether each byte is a lower case hexadecimal digit.
pub(crate) fn are_hex_digits(word: &[u8]) -> bool
    ensures { result ≡ list_all is_digit_of word.now }
{
    word.iter().all(|byte| is_digit(*byte))
}

/// The number of 1 to 16 hexadecimal digits.
fn hex_number(digits: &[u8]) -> u64
    requires some { 1 ≤ length digits.now }
    requires few { length digits.now ≤ 16 }
    requires digits { list_all is_digit_of digits.now ≡ true }
    ensures value { result ≡ digits_value 16 digits.now }
    ensures small { result < 16 ^ length digits.now }
{
    match u64::from_str_radix(ascii_text(digits), 16) {
        Ok(number) => number,
        Err(_) => unreachable!(),
    }
}

/// The number of just so many hexadecimal digits, 16 at most.
#[tactic(auto, unfolding(crate::specs::Spelling::hex_said))]
fn hex_said(word: &[u8], count: usize) -> Option<u64>
    requires some { 1 ≤ count }
    requires few { count ≤ 16 }
    ensures value { result ≡ hex_said_of count word.now }
    ensures small { IfSome result (λ n. n < 16 ^ count) }
{
    if !has_digits(word, count) {
        return None;
    }
    Some(hex_number(word))
}

/// The next word as a decimal number.
#[tactic(auto, unfolding(crate::specs::Words::decimal_at))]
pub(crate) fn decimal_at(words: &mut Words<'_>) -> Result<u64, ThawKind>
    ensures { Takes (λ n. n) result words.new (decimal_at_of words.old) }
{
    let word = word_at(words)?;
    decimal_said(word).ok_or(ThawKind::Spelling)
}

/// The next word as a number of just so many hexadecimal digits.
#[tactic(auto, unfolding(crate::specs::Words::hex_at))]
pub(crate) fn hex_at(words: &mut Words<'_>, count: usize) -> Result<u64, ThawKind>
    requires some { 1 ≤ count }
    requires few { count ≤ 16 }
    ensures word { Takes (λ n. n) result words.new (hex_at_of count words.old) }
    ensures small { IfOk result (λ n. n < 16 ^ count) }
{
    let word = word_at(words)?;
    hex_said(word, count).ok_or(ThawKind::Spelling)
}

/// The next word as a byte of two digits.
pub(crate) fn byte_at(words: &mut Words<'_>) -> Result<u8, ThawKind>
    ensures { Takes (λ n. n) result words.new (hex_at_of 2 words.old) }
{
    let number = hex_at(words, 2)?;
    Ok(number as u8)
}

/// The next word as an offset of six digits.
pub(crate) fn offset_at(words: &mut Words<'_>) -> Result<u32, ThawKind>
    ensures { Takes (λ n. n) result words.new (hex_at_of 6 words.old) }
{
    let number = hex_at(words, 6)?;
    Ok(number as u32)
}

fn number_said(word: &[u8], spelling: Spelling) -> Option<u64>
    ensures { result ≡ number_said_of spelling word.now }
{
    match spelling {
        Spelling::Decimal => decimal_said(word),
        Spelling::Word => hex_said(word, WORD_DIGITS),
    }
}

/// The next word as a number so written.
#[tactic(auto, unfolding(crate::specs::Words::value_at))]
fn value_at(words: &mut Words<'_>, spelling: Spelling) -> Result<u64, ThawKind>
    ensures { Takes (λ n. n) result words.new (value_at_of spelling words.old) }
{
    let word = word_at(words)?;
    number_said(word, spelling).ok_or(ThawKind::Spelling)
}

/// The number behind a row's first word, where there is one.
#[tactic(auto, unfolding(crate::specs::Words::number_behind))]
pub(crate) fn number_behind(words: &mut Words<'_>, number: Option<u32>) -> Result<(), ThawKind>
    ensures { Takes (λ _. true) result words.new (number_behind_of number words.old) }
{
    match number {
        Some(number) => exact(words, Buffer::new().format(number).as_bytes()),
        None => Ok(()),
    }
}

/// The memory of a name.
#[tactic(auto, unfolding(crate::specs::Words::memory_named))]
fn memory_named(word: &[u8]) -> Option<MemoryName>
    ensures { result ≡ memory_named_of word.now }
{
    if word == b"io".as_slice() {
        Some(MemoryName::Io)
    } else if word == b"wram".as_slice() {
        Some(MemoryName::Wram)
    } else if word == b"iwram".as_slice() {
        Some(MemoryName::Iwram)
    } else if word == b"palette".as_slice() {
        Some(MemoryName::Palette)
    } else if word == b"vram".as_slice() {
        Some(MemoryName::Vram)
    } else if word == b"oam".as_slice() {
        Some(MemoryName::Oam)
    } else if word == b"backup".as_slice() {
        Some(MemoryName::Backup)
    } else {
        None
    }
}

/// The next word as the name of a memory.
#[tactic(auto, unfolding(crate::specs::Words::memory_at))]
pub(crate) fn memory_at(words: &mut Words<'_>) -> Result<MemoryName, ThawKind>
    ensures { Takes (λ name. name) result words.new (memory_at_of words.old) }
{
    let word = word_at(words)?;
    memory_named(word).ok_or(ThawKind::Spelling)
}

/// Two digits of a word as a byte.
fn byte_in(digits: &[u8], place: usize) -> u8
    requires inside { 2 * place + 2 ≤ length digits.now }
    requires digits { list_all is_digit_of digits.now ≡ true }
    ensures { result ≡ digits_value 16 (take 2 (drop (2 * place) digits.now)) }
{
    hex_number(&digits[2 * place..2 * place + 2]) as u8
}

/// Bytes of two digits each.
pub(crate) fn bytes_in(digits: &[u8], count: usize) -> ArrayVec<u8, 32>
    requires few { count ≤ 32 }
    requires inside { 2 * count ≤ length digits.now }
    requires digits { list_all is_digit_of digits.now ≡ true }
    ensures items { result.items ≡ numbers_in 2 count digits.now }
    ensures len { array_vec_len result ≡ count }
{
    let mut bytes = ArrayVec::new();
    for place in 0..count {
        bytes.push(byte_in(digits, place));
    }
    bytes
}

/// Four digits of a word as a halfword.
fn half_in(digits: &[u8], place: usize) -> u16
    requires inside { 4 * place + 4 ≤ length digits.now }
    requires digits { list_all is_digit_of digits.now ≡ true }
    ensures { result ≡ digits_value 16 (take 4 (drop (4 * place) digits.now)) }
{
    hex_number(&digits[4 * place..4 * place + 4]) as u16
}

/// The colours of a line, of four digits each.
fn halves_in(digits: &[u8]) -> ArrayVec<u16, 240>
    requires inside { 960 ≤ length digits.now }
    requires digits { list_all is_digit_of digits.now ≡ true }
    ensures { result.items ≡ numbers_in 4 240 digits.now }
{
    let mut halves = ArrayVec::new();
    for place in 0..240 {
        halves.push(half_in(digits, place));
    }
    halves
}

/// The next word as just so many bytes, of two digits each.
#[tactic(auto, unfolding(crate::specs::Words::numbers_at, crate::specs::Spelling::numbers_said))]
pub(crate) fn bytes_at(words: &mut Words<'_>, count: usize) -> Result<ArrayVec<u8, 32>, ThawKind>
    requires { count ≤ 32 }
    ensures { Takes (λ bytes. bytes.items) result words.new (numbers_at 2 count words.old) }
{
    let word = word_at(words)?;
    if !has_digits(word, 2 * count) {
        return Err(ThawKind::Spelling);
    }
    Ok(bytes_in(word, count))
}

/// The next word as the 240 colours of a line, of four digits each.
#[tactic(auto, unfolding(crate::specs::Words::numbers_at, crate::specs::Spelling::numbers_said))]
pub(crate) fn colours_at(words: &mut Words<'_>) -> Result<ArrayVec<u16, 240>, ThawKind>
    ensures { Takes (λ colours. colours.items) result words.new (numbers_at 4 240 words.old) }
{
    let word = word_at(words)?;
    if !has_digits(word, COLOUR_DIGITS) {
        return Err(ThawKind::Spelling);
    }
    Ok(halves_in(word))
}

/// The next words as so many numbers so written.
pub(crate) fn values_at(
    words: &mut Words<'_>,
    spelling: Spelling,
    count: u32,
) -> Result<ArrayVec<u64, 8>, ThawKind>
    requires { count ≤ 8 }
    ensures words { Takes (λ values. values.items) result words.new (values_at_of spelling count [] words.old) }
    ensures number { IfOk result (λ values. array_vec_len values ≡ count) }
{
    let mut values = ArrayVec::new();
    for _ in 0..count {
        match value_at(words, spelling) {
            Ok(value) => values.push(value),
            Err(kind) => return Err(kind),
        }
    }
    Ok(values)
}
