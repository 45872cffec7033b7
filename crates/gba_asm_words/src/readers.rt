//! The readers of tokens. A refused call leaves the tokens anywhere.

ghost use Rattle.std.specs.Prelude.{◌≡◌, ◌<◌, true, IfOk, option_map};
ghost use Rattle.gba_text.specs.Answers.{Agrees, Takes};
ghost use Rattle.gba_asm_words.specs.Readers.{after_mark, begins, end_at, immediate_at, mark_at, next_immediate_at, next_register_at, number_at, register_at, target_at, target_of, target_value, word_at};

use crate::kinds::AsmKind;
use crate::numbers::number_in;
use crate::registers::{is_label, register_in};
use crate::tokens::{Token, Tokens};

/// Where a statement leads.
#[derive(Clone, Copy, Debug, PartialEq, Eq)]
pub enum Target<'a> {
    /// To the label of this name.
    Label(&'a [u8]),
    /// To this address.
    Address(u32),
}

/// What a word leads to: it spells a number or a label.
#[tactic(auto, unfolding(crate::specs::Readers::target_of))]
pub fn target_in(word: &[u8]) -> Option<Target<'_>>
    ensures { option_map target_value result ≡ target_of word.now }
{
    match number_in(word) {
        Some(address) => Some(Target::Address(address)),
        None => {
            if is_label(word) {
                Some(Target::Label(word))
            } else {
                None
            }
        }
    }
}

impl<'a> Tokens<'a> {
    /// The next token, a word.
    pub fn word(&mut self) -> Result<&'a [u8], AsmKind>
        ensures { Takes (λ w. w.now) result self.new (word_at self.old) }
    {
        match self.next() {
            Some(Token::Word(word)) => Ok(word),
            _ => Err(AsmKind::Operand),
        }
    }

    /// The next token, this mark.
    pub fn mark(&mut self, mark: u8) -> Result<(), AsmKind>
        ensures { Takes (λ _. true) result self.new (mark_at mark self.old) }
    {
        if self.takes(mark) {
            Ok(())
        } else {
            Err(AsmKind::Operand)
        }
    }

    /// The end of the line.
    pub fn end(&mut self) -> Result<(), AsmKind>
        ensures { Agrees (λ _. true) result (end_at self.old) }
    {
        match self.next() {
            Some(_) => Err(AsmKind::Operand),
            None => Ok(()),
        }
    }

    /// A register.
    #[tactic(auto, unfolding(crate::specs::Readers::register_at))]
    pub fn register(&mut self) -> Result<u8, AsmKind>
        ensures register { Takes (λ r. r) result self.new (register_at self.old) }
        ensures small { IfOk result (λ r. r < 16) }
    {
        let word = self.word()?;
        match register_in(word) {
            Some(register) => Ok(register),
            None => Err(AsmKind::Operand),
        }
    }

    /// A comma and a register.
    #[tactic(auto, unfolding(crate::specs::Readers::next_register_at))]
    pub fn next_register(&mut self) -> Result<u8, AsmKind>
        ensures register { Takes (λ r. r) result self.new (next_register_at self.old) }
        ensures small { IfOk result (λ r. r < 16) }
    {
        self.mark(b',')?;
        self.register()
    }

    /// A number.
    #[tactic(auto, unfolding(crate::specs::Readers::number_at))]
    pub fn number(&mut self) -> Result<u32, AsmKind>
        ensures { Takes (λ n. n) result self.new (number_at self.old) }
    {
        let word = self.word()?;
        match number_in(word) {
            Some(number) => Ok(number),
            None => Err(AsmKind::Operand),
        }
    }

    /// `#` and a number.
    #[tactic(auto, unfolding(crate::specs::Readers::immediate_at))]
    pub fn immediate(&mut self) -> Result<u32, AsmKind>
        ensures { Takes (λ n. n) result self.new (immediate_at self.old) }
    {
        self.mark(b'#')?;
        self.number()
    }

    /// A comma, `#` and a number.
    #[tactic(auto, unfolding(crate::specs::Readers::next_immediate_at))]
    pub fn next_immediate(&mut self) -> Result<u32, AsmKind>
        ensures { Takes (λ n. n) result self.new (next_immediate_at self.old) }
    {
        self.mark(b',')?;
        self.immediate()
    }

    /// A target.
    #[tactic(auto, unfolding(crate::specs::Readers::target_at))]
    pub fn target(&mut self) -> Result<Target<'a>, AsmKind>
        ensures { Takes target_value result self.new (target_at self.old) }
    {
        let word = self.word()?;
        match target_in(word) {
            Some(target) => Ok(target),
            None => Err(AsmKind::Operand),
        }
    }
}
