//! What the lines of a frozen file say, taken line by line.

ghost use Rattle.std.specs.Prelude.{◌≡◌, ◌≤◌, [], IfOk, length};
ghost use Rattle.gba_filling.specs.Consoles.{AreFilled};

use crate::loose::Loose;
use crate::signals::Signals;
use gba_frozen::{FrozenLine, Place, Setup};
use gba_frozen_read::Thawing;
use gba_terms::NoMemory;
use std::alloc::{AllocError, Global};
use std::marker::Model;

/// The consoles of a job, of which nothing was said.
fn consoles_at_first(alloc: Global, setup: &Setup) -> Result<Vec<Loose>, AllocError>
    requires { setup.now.consoles ≤ 4 }
    ensures count { IfOk result (λ consoles. length consoles.items ≡ setup.now.consoles) }
    ensures filled { IfOk result (λ consoles. AreFilled setup.now [] consoles.items) }
{
    let mut consoles = Vec::new(alloc);
    for player in 0..setup.consoles {
        consoles.push(Loose::new(alloc, setup.backups[player as usize])?)?;
    }
    Ok(consoles)
}

/// What a frozen file says of a job: its consoles by player, and the live signals.
#[derive(Drop)]
pub struct FilledParts {
    pub consoles: Vec<Loose>,
    pub signals: Signals,
}

/// What the lines of a frozen file say, as far as they are read. Contracts see the record `FilledJob`.
#[derive(Drop)]
pub struct Filling {
    consoles: Vec<Loose>,
    signals: Signals,
}

impl Model for Filling {
    ghost use Rattle.gba_filling.specs.Filling.{FilledJob};

    ghost Value = { FilledJob };

    ghost view = { λ f. record { consoles = f.consoles.items; signals = f.signals } };
}

impl Filling {
    ghost use Rattle.gba_frozen.specs.Reading.{nothing_read};
    ghost use Rattle.gba_filling.specs.Filling.{IsFilledJob};

    /// Before the first line. It takes the memory of all that a file may say: for each console about 600 kilobytes, and
    /// for the signals about 800 kilobytes. No line takes more.
    pub fn new(alloc: Global, setup: &Setup) -> Result<Filling, NoMemory>
        requires { setup.now.consoles ≤ 4 }
        ensures { IfOk result (λ filling. IsFilledJob filling setup.now nothing_read) }
    {
        Ok(Filling {
            consoles: consoles_at_first(alloc, setup)?,
            signals: Signals::new(alloc)?,
        })
    }

    /// The consoles by player.
    pub fn consoles(&self) -> &[Loose]
        ensures { result.now ≡ self.now.consoles }
    {
        self.consoles.as_slice()
    }

    /// The live signals.
    pub fn signals(&self) -> &Signals
        ensures { result.now ≡ self.now.signals }
    {
        &self.signals
    }

    /// Everything by value.
    pub fn part(self) -> FilledParts
        ensures consoles { result.consoles.items ≡ self.consoles }
        ensures signals { result.signals ≡ self.signals }
    {
        FilledParts {
            consoles: self.consoles,
            signals: self.signals,
        }
    }
}

impl Thawing for Filling {
    ghost use Rattle.gba_frozen.specs.Reading.{Draft};
    ghost use Rattle.gba_filling.specs.Filling.{IsFilledJob};

    ghost Whole = { Draft };

    ghost Holds = { IsFilledJob };

    fn take(&mut self, _setup: &Setup, at: Place, said: &FrozenLine) {
        match said {
            FrozenLine::Nothing => {}
            FrozenLine::Live { sender, signal } => self.signals.keep(*sender, *signal),
            _ => self.consoles[at.player as usize].keep(said),
        }
    }
}
