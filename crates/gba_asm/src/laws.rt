//! Laws of the assembly language. Each function takes no value and answers nothing; its contract is its law.

ghost use Rattle.gba_asm.specs.Language.{HasOneAnswer, IsAnswered};

/// Every source gives bytes or has a refusal, what the function `assembly_of` gives.
pub fn answered()
    ensures law { IsAnswered }
{}

/// No source gives two lists of bytes, or bytes and a refusal, or has two refusals.
pub fn one_answer()
    ensures law { HasOneAnswer }
{}
