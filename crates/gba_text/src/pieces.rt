//! The first line of some bytes, and the first word of a line.

ghost use Rattle.std.specs.Prelude.{◌≡◌, ◌<◌, ◌≤◌, ◌==◌, [], ◌∷◌, not, length, MatchOption};
ghost use Rattle.std.specs.List.{list_all, prefix_len};
ghost use Rattle.std.specs.Str.Lines.{strip_carriage_return};
ghost use Rattle.gba_text.specs.Lines.{lines};
ghost use Rattle.gba_text.specs.Words.{fault_of, has_text_alone, is_blank as is_blank_of, is_text_byte as is_text_byte_of, words};

use crate::kinds::TextKind;

/// The most bytes of a line that is read as words.
pub const LONGEST_LINE: usize = 400;

/// Whether a byte parts words: a space or a tab.
pub fn is_blank(byte: u8) -> bool
    ensures { result ≡ is_blank_of byte }
{
    byte == b' ' || byte == b'\t'
}

fn is_text_byte(byte: u8) -> bool
    ensures { result ≡ is_text_byte_of byte }
{
    is_blank(byte) || (b'!' <= byte && byte <= b'~')
}

fn is_text(line: &[u8]) -> bool
    ensures { result ≡ has_text_alone line.now }
{
    line.iter().all(|byte| is_text_byte(*byte))
}

/// Why no word of the line can be read, if so.
#[tactic(auto, unfolding(crate::specs::Words::fault_of))]
pub(crate) fn fault_in(line: &[u8]) -> Option<TextKind>
    ensures { result ≡ fault_of line.now }
{
    if line.len() > LONGEST_LINE {
        return Some(TextKind::Long);
    }
    if is_text(line) {
        return None;
    }
    Some(TextKind::Byte)
}

/// The line less the carriage return at its end, if it has one.
fn without_return(line: &[u8]) -> &[u8]
    ensures { result.now ≡ strip_carriage_return line.now }
{
    match line.split_last() {
        Some((last, front)) if *last == b'\r' => front,
        _ => line,
    }
}

fn length_before_feed(bytes: &[u8]) -> usize
    ensures value { result ≡ prefix_len (λ b. not (b == 10)) bytes.now }
    ensures within { result ≤ length bytes.now }
{
    bytes.iter().take_while(|byte| **byte != b'\n').count()
}

/// The first line, without its end, and what follows it.
pub(crate) fn split_line(bytes: &[u8]) -> (&[u8], &[u8])
    requires { 0 < length bytes.now }
    ensures pieces { lines bytes.now ≡ result.0.now ∷ lines result.1.now }
    ensures shorter { length result.1.now < length bytes.now }
{
    let (line, rest) = bytes.split_at(length_before_feed(bytes));
    if rest.is_empty() {
        return (line, rest);
    }
    (without_return(line), &rest[1..])
}

fn blank_count(line: &[u8]) -> usize
    ensures value { result ≡ prefix_len is_blank_of line.now }
    ensures within { result ≤ length line.now }
{
    line.iter().take_while(|byte| is_blank(**byte)).count()
}

fn word_length(line: &[u8]) -> usize
    ensures value { result ≡ prefix_len (λ b. not (is_blank_of b)) line.now }
    ensures within { result ≤ length line.now }
{
    line.iter().take_while(|byte| !is_blank(**byte)).count()
}

/// The first word, and what follows it in the line.
pub(crate) fn split_word(line: &[u8]) -> Option<(&[u8], &[u8])>
    ensures { MatchOption result (words line.now ≡ []) (λ pieces. words line.now ≡ pieces.0.now ∷ words pieces.1.now) }
{
    let text = &line[blank_count(line)..];
    if text.is_empty() {
        return None;
    }
    Some(text.split_at(word_length(text)))
}
