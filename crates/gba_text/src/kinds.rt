//! Why a word or a number can't be read, and why a file is refused.

ghost use Rattle.std.specs.Prelude.{Some};
ghost use Rattle.gba_text.specs.Told.{error_text, refusal_text};

use std::error::Error;
use std::fmt;

/// What is wrong with a line, or with its next word.
#[derive(Clone, Copy, Debug, PartialEq, Eq)]
pub enum TextKind {
    /// The line has a byte that is neither a space, a tab, nor one of `!` to `~`.
    Byte,
    /// No word is left in the line.
    Missing,
    /// The word doesn't spell a number, or not one in the range.
    Number,
    /// The line has more than 400 bytes.
    Long,
}

/// Where a text can't be read, and why.
#[derive(Clone, Copy, Debug, PartialEq, Eq)]
pub struct TextError {
    /// The line's number, from 1.
    pub line: u64,
    pub kind: TextKind,
}

impl fmt::Display for TextError {
    ghost output = { λ e. Some (error_text e) };

    fn fmt<W: fmt::Write>(&self, f: &mut fmt::Formatter<W>) -> fmt::Result {
        let line = self.line;
        match self.kind {
            TextKind::Byte => write!(f, "line {line}: a byte that may not stand there"),
            TextKind::Missing => write!(f, "line {line}: a word is missing"),
            TextKind::Number => write!(f, "line {line}: no number in the range"),
            TextKind::Long => write!(f, "line {line}: more than 400 bytes"),
        }
    }
}

impl Error for TextError {}

/// The first refused line of a file of a language, and why it is refused.
#[derive(Clone, Copy, Debug, PartialEq, Eq)]
pub struct LineError<K> {
    /// The line's number, from 1; one past the last line where the file ends too early; 0 where the file is too long.
    pub line: u64,
    pub kind: K,
}

impl<K: fmt::Display> fmt::Display for LineError<K> {
    ghost output = { refusal_text K.output };

    fn fmt<W: fmt::Write>(&self, f: &mut fmt::Formatter<W>) -> fmt::Result {
        let line = self.line;
        let kind = &self.kind;
        write!(f, "line {line} {kind}")
    }
}

impl<K: fmt::Debug + fmt::Display + Drop> Error for LineError<K> {}
