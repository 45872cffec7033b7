//! Laws of the generator. Each function takes no value and answers nothing; its contract is its law.

ghost use Rattle.gba_generator.specs.Law.{IsRead, IsAssembled};

/// The source of every player is of the assembly language, and its code has less than 16,384 bytes.
pub fn assembled()
    ensures law { IsAssembled }
{}

/// The lines of the job are read as that job.
pub fn read()
    ensures law { IsRead }
{}
