//! The tokens of a line.

ghost use Rattle.std.specs.Prelude.{◌≡◌, ◌≤◌, [], ◌∷◌, not, length, drop, option_map, MatchOption};
ghost use Rattle.std.specs.List.{list_all, prefix_len};
ghost use Rattle.gba_text.specs.Words.{is_blank as is_blank_of};
ghost use Rattle.gba_asm_words.specs.Readers.{after_mark, begins, first_token, other_tokens};
ghost use Rattle.gba_asm_words.specs.Tokens.{code_of as code_of_line, fault_of, is_mark as is_mark_of, is_source_byte as is_source_byte_of, is_word_byte as is_word_byte_of, no_semicolon, token_value, tokens};

use crate::kinds::AsmKind;
use gba_text::{LONGEST_LINE, is_blank};
use std::marker::Model;

/// A token of a line.
#[derive(Clone, Copy, Debug, PartialEq, Eq)]
pub enum Token<'a> {
    /// Letters, digits, `.` and `_` that stand together.
    Word(&'a [u8]),
    /// One other byte that is no blank.
    Mark(u8),
}

/// The tokens of a line that aren't read yet.
#[derive(Drop)]
pub struct Tokens<'a> {
    left: &'a [u8],
}

impl<'a> Model for Tokens<'a> {
    ghost use Rattle.std.specs.Prelude.{List};
    ghost use Rattle.gba_asm_words.specs.Tokens.{Token, tokens};

    ghost Value = { List Token };

    ghost view = { λ t. tokens t.left.now };
}

fn is_word_byte(byte: u8) -> bool
    ensures { result ≡ is_word_byte_of byte }
{
    byte.is_ascii_alphanumeric() || byte == b'.' || byte == b'_'
}

fn is_mark(byte: u8) -> bool
    ensures { result ≡ is_mark_of byte }
{
    matches!(
        byte,
        b'!' | b'#' | b',' | b'-' | b':' | b'[' | b']' | b'^' | b'{' | b'}'
    )
}

fn is_source_byte(byte: u8) -> bool
    ensures { result ≡ is_source_byte_of byte }
{
    is_blank(byte) || is_word_byte(byte) || is_mark(byte)
}

fn is_source(code: &[u8]) -> bool
    ensures { result ≡ list_all is_source_byte_of code.now }
{
    code.iter().all(|byte| is_source_byte(*byte))
}

fn length_before_comment(line: &[u8]) -> usize
    ensures value { result ≡ prefix_len no_semicolon line.now }
    ensures within { result ≤ length line.now }
{
    line.iter().take_while(|byte| **byte != b';').count()
}

/// A line without its comment, which begins at the first `;`.
pub fn code_of(line: &[u8]) -> &[u8]
    ensures { result.now ≡ code_of_line line.now }
{
    &line[..length_before_comment(line)]
}

/// Why no token of a line can be read, if so: `Size` where it has more than 400 bytes, else `Unknown` where it has,
/// outside its comment, a byte that no form uses.
#[tactic(auto, unfolding(crate::specs::Tokens::fault_of))]
pub fn fault_in(line: &[u8]) -> Option<AsmKind>
    ensures { result ≡ fault_of line.now }
{
    if line.len() > LONGEST_LINE {
        return Some(AsmKind::Size);
    }
    if is_source(code_of(line)) {
        return None;
    }
    Some(AsmKind::Unknown)
}

fn blank_count(bytes: &[u8]) -> usize
    ensures value { result ≡ prefix_len is_blank_of bytes.now }
    ensures within { result ≤ length bytes.now }
{
    bytes.iter().take_while(|byte| is_blank(**byte)).count()
}

fn word_length(bytes: &[u8]) -> usize
    ensures value { result ≡ prefix_len is_word_byte_of bytes.now }
    ensures within { result ≤ length bytes.now }
{
    bytes.iter().take_while(|byte| is_word_byte(**byte)).count()
}

/// The first of these bytes that isn't blank, with those after it.
fn without_blanks(bytes: &[u8]) -> &[u8]
    ensures { result.now ≡ drop (prefix_len is_blank_of bytes.now) bytes.now }
{
    &bytes[blank_count(bytes)..]
}

/// The first token, and the bytes after it.
fn split_token(bytes: &[u8]) -> Option<(Token<'_>, &[u8])>
    ensures { MatchOption result (tokens bytes.now ≡ [])
        (λ pieces. tokens bytes.now ≡ token_value pieces.0 ∷ tokens pieces.1.now) }
{
    let text = without_blanks(bytes);
    let Some((first, others)) = text.split_first() else {
        return None;
    };
    if !is_word_byte(*first) {
        return Some((Token::Mark(*first), others));
    }
    let (word, rest) = text.split_at(word_length(text));
    Some((Token::Word(word), rest))
}

impl<'a> Tokens<'a> {
    /// The tokens of these bytes.
    pub fn new(bytes: &'a [u8]) -> Tokens<'a>
        ensures { result ≡ tokens bytes.now }
    {
        Tokens { left: bytes }
    }

    /// The bytes whose tokens are left.
    pub fn rest(&self) -> &'a [u8]
        ensures { tokens result.now ≡ self.now }
    {
        self.left
    }

    /// The next token; None at the end.
    pub fn next(&mut self) -> Option<Token<'a>>
        ensures token { option_map token_value result ≡ first_token self.old }
        ensures rest { self.new ≡ other_tokens self.old }
    {
        match split_token(self.left) {
            Some((token, rest)) => {
                self.left = rest;
                Some(token)
            }
            None => None,
        }
    }

    /// Whether the next token is this mark.
    pub fn begins(&self, mark: u8) -> bool
        ensures { result ≡ begins mark self.now }
    {
        match split_token(self.left) {
            Some((Token::Mark(first), _)) => first == mark,
            _ => false,
        }
    }

    /// Takes the next token if it is this mark, and says whether it was.
    pub fn takes(&mut self, mark: u8) -> bool
        ensures taken { result ≡ begins mark self.old }
        ensures rest { self.new ≡ after_mark mark self.old }
    {
        if let Some((Token::Mark(first), rest)) = split_token(self.left) {
            if first == mark {
                self.left = rest;
                return true;
            }
        }
        false
    }
}
