//! Where lines stand.

ghost use Rattle.std.specs.Prelude.{◌≡◌, ◌<◌, ◌^◌, Result, IfOk};
ghost use Rattle.gba_asm.specs.Answers.{SaysSized};
ghost use Rattle.gba_asm.specs.Places.{fits as fits_in, past_statement, start, state_after as state_after_of};
ghost use Rattle.gba_asm.specs.Statements.{Statement as StatementValue, statement_value};
ghost use Rattle.gba_asm_words.specs.declared.kinds.AsmKind.{AsmKind as Kind};

use crate::statements::{SizedStatement, Statement};
use gba_asm_words::AsmKind;
use gba_image::LONGEST_CARTRIDGE;

/// Where a line stands: its address, and whether Thumb code stands there.
#[derive(Clone, Copy)]
pub(crate) struct Place {
    pub(crate) address: u32,
    pub(crate) thumb: bool,
}

/// Whether so many bytes at this address are in an image.
pub(crate) fn fits(address: u32, size: u64) -> bool
    requires { size < 2 ^ 32 }
    ensures { result ≡ fits_in address size }
{
    u64::from(address) + size <= LONGEST_CARTRIDGE as u64
}

fn state_after(state: bool, statement: Statement<'_>) -> bool
    ensures { result ≡ state_after_of state (statement_value statement.entry) }
{
    match statement {
        Statement::Mode { thumb } => thumb,
        _ => state,
    }
}

impl Place {
    /// A source begins at address 0 in ARM state.
    pub(crate) fn start() -> Place
        ensures { result ≡ start }
    {
        Place {
            address: 0,
            thumb: false,
        }
    }

    /// Where the line after one stands that says this.
    pub(crate) fn after(self, statement: Result<SizedStatement<'_>, AsmKind>) -> Place
        requires { IfOk statement (λ s. s.size < 2 ^ 32) }
        ensures { (defined : Result StatementValue Kind) → SaysSized self.address statement.entry defined
            → result ≡ past_statement self defined }
    {
        let Ok(sized) = statement else {
            return self;
        };
        if !fits(self.address, sized.size) {
            return self;
        }
        Place {
            address: self.address + sized.size as u32,
            thumb: state_after(self.thumb, sized.statement),
        }
    }
}
