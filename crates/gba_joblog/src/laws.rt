//! Laws of the job language and of key files. Each function takes no value and answers nothing; its
//! contract is its law.

ghost use Rattle.gba_joblog.specs.Digests.{DigestsAreSound};
ghost use Rattle.gba_joblog.specs.KeyFile.{KeysAreAnswered, KeysHaveOneAnswer};
ghost use Rattle.gba_joblog.specs.Language.{HasOneAnswer, IsAnswered};
ghost use Rattle.gba_joblog.specs.LogLaw.{JobsAreReadAgain};
ghost use Rattle.gba_joblog.specs.Soundness.{IsSoundLanguage, KeysAreSound};

/// Every file says a job or has a refusal, the one that the function `job_of` gives.
pub fn answered()
    ensures law { IsAnswered }
{}

/// No file says two jobs, or a job and a refusal, or has two refusals.
pub fn one_answer()
    ensures law { HasOneAnswer }
{}

/// Every job that is read is in the ranges of the language and has one to four consoles, each with its BIOS image.
pub fn sound()
    ensures law { IsSoundLanguage }
{}

/// Every key file says changes or has a refusal, the one that the function `keys_of` gives.
pub fn keys_answered()
    ensures law { KeysAreAnswered }
{}

/// No key file says two lists of changes, or changes and a refusal, or has two refusals.
pub fn keys_one_answer()
    ensures law { KeysHaveOneAnswer }
{}

/// A key file that is read has at most 1,000,000 changes, of keys below 400h, and their clocks don't fall and are below
/// 2^38.
pub fn keys_sound()
    ensures law { KeysAreSound }
{}

/// A SHA-256 digest is 32 bytes.
pub fn digests_sound()
    ensures law { DigestsAreSound }
{}

/// The log of a job that was read is read as the same job, but for the numbers of its lines and for its key files,
/// which a log doesn't name.
pub fn jobs_again()
    ensures law { JobsAreReadAgain }
{}
