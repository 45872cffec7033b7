//! Why a source is refused.

ghost use Rattle.std.specs.Prelude.{◌≡◌, Some};
ghost use Rattle.gba_asm_words.specs.Kinds.{kind_name};

use gba_text::LineError;
use std::fmt;

/// What is wrong with a line, in the order in which it is tested.
#[derive(Clone, Copy, Debug, PartialEq, Eq)]
pub enum AsmKind {
    /// The line has more than 400 bytes, the image would pass 33,554,432 bytes, or the source has more than
    /// 1,073,741,824.
    Size,
    /// A byte, a statement or a directive isn't of the language.
    Unknown,
    /// The operands aren't one of the statement's forms.
    Operand,
    /// An earlier line has the label.
    Repeated,
    /// No line has the label that an operand names.
    Label,
    /// A number has no encoding, or the statement stands at an address that it may not have.
    Range,
}

impl AsmKind {
    /// The kind's name in reports, as `Repeated`.
    pub fn name(self) -> &'static str
        ensures { result.now ≡ kind_name self }
    {
        match self {
            AsmKind::Size => "Size",
            AsmKind::Unknown => "Unknown",
            AsmKind::Operand => "Operand",
            AsmKind::Repeated => "Repeated",
            AsmKind::Label => "Label",
            AsmKind::Range => "Range",
        }
    }
}

impl fmt::Display for AsmKind {
    ghost output = { λ kind. Some (kind_name kind) };

    fn fmt<W: fmt::Write>(&self, f: &mut fmt::Formatter<W>) -> fmt::Result {
        f.write_str(self.name())
    }
}

/// The first refused line of a source, and why it is refused. The line is 0 where the source is too long.
pub type AsmError = LineError<AsmKind>;
