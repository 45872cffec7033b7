//! Laws of frozen files.

ghost use Rattle.gba_snapshot.specs.Laws.{FrozenIsText};

/// The frozen file of consoles on their cable is the text of what it says, which the reader of frozen files takes back.
pub fn frozen_is_text()
    ensures { FrozenIsText }
{}
