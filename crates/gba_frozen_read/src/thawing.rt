//! Who keeps what the lines of a frozen file say.

use gba_frozen::{FrozenLine, Place, Setup};

/// What is thawed, line by line. It keeps what each line says, so that nothing is kept twice.
///
/// Contracts see it by what the lines so far come to, as far as it keeps that (`Holds`), and by what a whole file comes
/// to where it is sound (`Whole`).
pub trait Thawing {
    ghost use Rattle.gba_frozen.specs.Reading.{Draft};
    ghost use Rattle.gba_frozen.specs.Views.{said_value};
    ghost use Rattle.gba_frozen.specs.declared.kinds.Setup.{Setup};
    ghost use Rattle.gba_frozen_read.specs.Thawed.{IsNext, with_next};

    ghost Whole: { Type 0 };

    ghost Holds: { Self → Setup → Draft → Type 0 };

    /// Keeps what a line says, behind which the file is read on at a place: its player is that of the line. What is
    /// said is in its ranges (`SaidFits`), and as many consoles have begun as the place says (`CountedAt`).
    fn take(&mut self, setup: &Setup, at: Place, said: &FrozenLine)
        requires { (d : Draft) × Holds self.old setup.now d × IsNext setup.now d at (said_value said.now) }
        ensures { (d : Draft) → Holds self.old setup.now d → IsNext setup.now d at (said_value said.now)
            → Holds self.new setup.now (with_next at (said_value said.now) d) };
}
