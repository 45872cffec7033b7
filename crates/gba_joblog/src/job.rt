//! What a job says.

ghost use Rattle.std.specs.Prelude.{◌≡◌};
ghost use Rattle.gba_joblog.specs.Outputs.{per_kind};
ghost use Rattle.gba_joblog.specs.Statements.{asks_for as asks_for_of, output_of};
ghost use Rattle.gba_joblog.specs.Views.{console_value};

use crate::outputs::{OutKind, PerKind};
use gba_image::Backup;
use link_node::Delays;

/// From a clock on, these keys are pressed and no others.
#[derive(Clone, Copy, Debug, PartialEq, Eq)]
pub struct KeyChange {
    /// In cycles of 16,777,216 Hz since reset; below 2^38 where it is read.
    pub clock: u64,
    /// One bit for each key in the order of KEYINPUT (GBATEK, GBA Keypad Input), but 1 for pressed; below 400h where it
    /// is read.
    pub keys: u16,
}

/// A file that a job names.
#[derive(Debug, Drop)]
pub struct FileLine {
    pub name: String,
    /// The SHA-256 digest that is stated with the name: the 32 bytes, the first digits first.
    pub digest: Option<[u8; 32]>,
    /// The number of the line, from 1.
    pub line: u64,
}

/// An output that a console is asked for.
#[derive(Clone, Copy, Debug, PartialEq, Eq)]
pub struct OutLine {
    /// The SHA-256 digest that is stated for the output.
    pub digest: Option<[u8; 32]>,
}

/// What a job says of one console.
#[derive(Debug, Drop)]
pub struct JobConsole {
    /// The BIOS image.
    pub bios: FileLine,
    pub cart: Option<FileLine>,
    pub save: Option<FileLine>,
    /// The key file, where the job names one; then `changes` is empty as the job is read.
    pub keys: Option<FileLine>,
    /// The key changes of the job's own lines, in their order, by clocks that don't fall; at most 1,000,000. Those of a
    /// key file may be written in, once the job names it no longer.
    pub changes: Vec<KeyChange>,
    /// What the cartridge keeps its saves in: SRAM where no line says it.
    pub backup: Backup,
    /// From this clock on, in cycles of 16,777,216 Hz, the console is on: 0 where no line says one, else from 1 to
    /// 274,877,906,943.
    pub off: u64,
    /// What the console is asked for.
    pub outs: PerKind<Option<OutLine>>,
}

/// A job: consoles, and how long they run.
#[derive(Debug, Drop)]
pub struct Job {
    /// In cycles of 16,777,216 Hz, from 1 to 274,877,906,944, in version 1 of the language to 2,147,483,648.
    pub cycles: u64,
    /// How long a signal takes from each player to each other one, in cycles, from 1 to 1,024; 512 where no line says
    /// it. It is 512 also for a pair with a player that the cable hasn't, and for a player with itself. The cable of
    /// one console has two players.
    pub delays: Delays,
    /// The consoles in the order of their numbers, from 0; one to four.
    pub consoles: Vec<JobConsole>,
}

/// The four inputs of a console.
#[derive(Clone, Copy, Debug, PartialEq, Eq)]
pub(crate) enum FileKind {
    Bios,
    Cart,
    Save,
    Keys,
}

impl JobConsole {
    /// What the console is asked for of an output, if it is.
    pub fn output(&self, out: OutKind) -> Option<OutLine>
        ensures { result ≡ output_of (console_value self.now) out }
    {
        *self.outs.at(out)
    }

    /// Whether the console is asked for an output.
    pub fn asks_for(&self, out: OutKind) -> bool
        ensures { result ≡ asks_for_of (console_value self.now) out }
    {
        self.outs.at(out).is_some()
    }

    /// Which outputs the console is asked for.
    pub fn asks(&self) -> PerKind<bool>
        ensures { result ≡ per_kind (asks_for_of (console_value self.now)) }
    {
        PerKind {
            frames: self.outs.frames.is_some(),
            samples: self.outs.samples.is_some(),
            words: self.outs.words.is_some(),
            state: self.outs.state.is_some(),
            save: self.outs.save.is_some(),
        }
    }
}
