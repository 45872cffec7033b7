//! A cursor over the lines of a text, and over the words of the line that was given last.

ghost use Rattle.std.specs.Prelude.{◌≡◌, ◌<◌, ◌≤◌, ◌^◌, IfOk, option_map};
ghost use Rattle.gba_text.specs.Answers.{AgreesAt};
ghost use Rattle.gba_text.specs.Lines.{lines};
ghost use Rattle.gba_text.specs.Words.{words};
ghost use Rattle.gba_text.specs.Reading.{before_first_line, first_of, after_answer, next_hex_number, next_line, next_number, next_word, rest_of};

use crate::kinds::{TextError, TextKind};
use crate::numbers::{hex_number_in, number_in};
use crate::pieces::{fault_in, split_line, split_word};
use std::marker::Model;

/// A text that is read line by line. A line is ended by LF, by CR LF, or by the end of the text.
#[derive(Drop)]
pub struct Cursor<'a> {
    rest: &'a [u8],
    current: &'a [u8],
    left: &'a [u8],
    number: u64,
    fault: Option<TextKind>,
}

impl<'a> Model for Cursor<'a> {
    ghost use Rattle.std.specs.Prelude.{◌≡◌, ◌+◌, ◌<◌, ◌^◌, length};
    ghost use Rattle.gba_text.specs.Lines.{lines};
    ghost use Rattle.gba_text.specs.Reading.{Reading};
    ghost use Rattle.gba_text.specs.Words.{fault_of, words};

    ghost Value = { Reading };

    ghost view = { λ c. record {
      number = c.number;
      line = c.current.now;
      words = words c.left.now;
      lines = lines c.rest.now;
    } };

    ghost invariant = { λ c. (c.fault ≡ fault_of c.current.now) × (c.number + length c.rest.now < 2 ^ 64) };
}

impl<'a> Cursor<'a> {
    /// A cursor before the first line.
    pub fn new(bytes: &'a [u8]) -> Cursor<'a>
        ensures { result ≡ before_first_line (lines bytes.now) }
    {
        let end = bytes.len();
        let current = &bytes[end..];
        Cursor {
            rest: bytes,
            current,
            left: current,
            number: 0,
            fault: None,
        }
    }

    /// The number of the line that was given last, from 1; 0 before the first line.
    pub fn line_number(&self) -> u64
        ensures { result ≡ self.now.number }
    {
        self.number
    }

    /// The next line, without its end, whatever bytes it has; None at the end.
    pub fn line(&mut self) -> Option<&'a [u8]>
        ensures line { option_map (λ l. l.now) result ≡ first_of self.old.lines }
        ensures state { self.new ≡ next_line self.old }
        ensures counted { self.new.number < 2 ^ 64 }
    {
        if self.rest.is_empty() {
            return None;
        }
        let (line, rest) = split_line(self.rest);
        self.rest = rest;
        self.current = line;
        self.left = line;
        self.number += 1;
        self.fault = fault_in(line);
        Some(line)
    }

    fn refusal(&self, kind: TextKind) -> TextError
        ensures { result ≡ record { line = self.now.number; kind = kind } }
    {
        TextError {
            line: self.number,
            kind,
        }
    }

    /// The next word, and what follows it in the line.
    #[tactic(auto, unfolding(crate::specs::Reading::next_word))]
    fn piece(&self) -> Result<(&'a [u8], &'a [u8]), TextError>
        ensures answer { AgreesAt (λ p. p.0.now) self.now.number result (next_word self.now) }
        ensures rest { IfOk result (λ p. rest_of self.now.words ≡ words p.1.now) }
    {
        if let Some(kind) = self.fault {
            return Err(self.refusal(kind));
        }
        match split_word(self.left) {
            Some(pieces) => Ok(pieces),
            None => Err(self.refusal(TextKind::Missing)),
        }
    }

    /// The next word of the line that was given last, which stays to be taken. Refused is what `word` refuses.
    pub fn peek(&self) -> Result<&'a [u8], TextError>
        requires { 0 < self.now.number }
        ensures { AgreesAt (λ w. w.now) self.now.number result (next_word self.now) }
    {
        let (word, _) = self.piece()?;
        Ok(word)
    }

    /// The next word of the line that was given last. Refused are, in this order: a line of more than 400 bytes, a line
    /// with a byte that isn't of words, and the end of the line. A refused call leaves the cursor as it was.
    pub fn word(&mut self) -> Result<&'a [u8], TextError>
        requires { 0 < self.old.number }
        ensures answer { AgreesAt (λ w. w.now) self.old.number result (next_word self.old) }
        ensures state { self.new ≡ after_answer (next_word self.old) self.old }
    {
        let (word, left) = self.piece()?;
        self.left = left;
        Ok(word)
    }

    /// The next word as a number from `least` to `most`, spelled with 1 to 20 decimal digits. Refused is what `word`
    /// refuses, and then a word that spells no such number.
    #[tactic(auto, unfolding(crate::specs::Reading::next_number))]
    pub fn number(&mut self, least: u64, most: u64) -> Result<u64, TextError>
        requires { 0 < self.old.number }
        ensures answer { AgreesAt (λ n. n) self.old.number result (next_number least most self.old) }
        ensures state { self.new ≡ after_answer (next_number least most self.old) self.old }
    {
        let (word, left) = self.piece()?;
        match number_in(word, least, most) {
            Some(number) => {
                self.left = left;
                Ok(number)
            }
            None => Err(self.refusal(TextKind::Number)),
        }
    }

    /// The next word as a number of exactly `digits` hexadecimal digits, in either case. Refused is what `word`
    /// refuses, and then a word that spells no such number.
    #[tactic(auto, unfolding(crate::specs::Reading::next_hex_number))]
    pub fn hex_number(&mut self, digits: u32) -> Result<u64, TextError>
        requires line { 0 < self.old.number }
        requires some { 1 ≤ digits }
        requires few { digits ≤ 16 }
        ensures answer { AgreesAt (λ n. n) self.old.number result (next_hex_number digits self.old) }
        ensures state { self.new ≡ after_answer (next_hex_number digits self.old) self.old }
    {
        let (word, left) = self.piece()?;
        match hex_number_in(word, digits) {
            Some(number) => {
                self.left = left;
                Ok(number)
            }
            None => Err(self.refusal(TextKind::Number)),
        }
    }
}
