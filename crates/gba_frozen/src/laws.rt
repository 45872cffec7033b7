//! Laws of frozen files. Each function takes no value and answers nothing; its contract is its law.

ghost use Rattle.gba_frozen.specs.Answered.{HasOneAnswer, IsAnswered};

/// Every file comes to something or has a refusal, whatever the test of the whole is.
pub fn answered()
    ensures { IsAnswered }
{}

/// No file comes to two things, or to something and a refusal, or has two refusals.
pub fn one_answer()
    ensures { HasOneAnswer }
{}
