//! Why a source can't be assembled.

use gba_asm_words::{AsmError, AsmKind};
use std::alloc::AllocError;

/// Why a source can't be assembled: a line isn't of the language, or memory is wanting.
#[derive(Clone, Copy, Debug, PartialEq, Eq)]
pub enum AsmRefused {
    Source(AsmError),
    NoMemory,
}

impl From<AllocError> for AsmRefused {
    ghost from_gives = { λ _ refusal. refusal ≡ NoMemory };

    ghost use Rattle.std.specs.Prelude.{◌≡◌};
    ghost use Rattle.gba_asm.specs.declared.kinds.AsmRefused.TheVariants.{NoMemory};

    fn from(_refusal: AllocError) -> AsmRefused {
        AsmRefused::NoMemory
    }
}

/// Why the bytes of a line can't be added.
#[derive(Clone, Copy)]
pub(crate) enum LineRefused {
    Kind(AsmKind),
    NoMemory,
}

impl From<AllocError> for LineRefused {
    ghost from_gives = { λ _ refusal. refusal ≡ NoMemory };

    ghost use Rattle.std.specs.Prelude.{◌≡◌};
    ghost use Rattle.gba_asm.specs.declared.kinds.LineRefused.TheVariants.{NoMemory};

    fn from(_refusal: AllocError) -> LineRefused {
        LineRefused::NoMemory
    }
}

impl From<AsmKind> for LineRefused {
    ghost from_gives = { λ kind refusal. refusal ≡ Kind kind };

    ghost use Rattle.std.specs.Prelude.{◌≡◌};
    ghost use Rattle.gba_asm.specs.declared.kinds.LineRefused.TheVariants.{Kind};

    fn from(kind: AsmKind) -> LineRefused {
        LineRefused::Kind(kind)
    }
}
