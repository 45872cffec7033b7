//! Laws of the inputs of a job. Each function takes no value and answers nothing; its contract is its law.

ghost use Rattle.gba_inputs.specs.Law.{FilledIsSound, InputsAreSound, LogsAreReplayed};

/// What is read for the consoles of a sound job is sound: each image passes its check, and the key changes are in the
/// ranges of the language.
pub fn inputs_sound()
    ensures law { InputsAreSound }
{}

/// A sound job is sound with its inputs written in.
pub fn filled_sound()
    ensures law { FilledIsSound }
{}

/// The log of a run says a job that is run again: over files that have the same images it has the same inputs, each
/// with the digest that the log states, and its own log is this log. The key files aren't needed again.
pub fn inputs_again()
    ensures law { LogsAreReplayed }
{}
