//! A console as far as its lines are read.

ghost use Rattle.std.specs.Prelude.{◌≡◌, is_some, option_map};
ghost use Rattle.gba_joblog.specs.Draft.{silent_console, with_image};
ghost use Rattle.gba_joblog.specs.Outputs.{at_kind};
ghost use Rattle.gba_joblog.specs.Statements.{asked_output, with_file, with_output};
ghost use Rattle.gba_joblog.specs.Views.{console_value, draft_console_value, file_value};

use crate::job::{FileKind, FileLine, JobConsole, KeyChange, OutLine};
use crate::outputs::{OutKind, PerKind};
use gba_image::Backup;
use std::alloc::Global;

/// What the lines of a console have said as far as they are read.
#[derive(Drop)]
pub(crate) struct DraftConsole {
    pub(crate) bios: Option<FileLine>,
    pub(crate) cart: Option<FileLine>,
    pub(crate) save: Option<FileLine>,
    pub(crate) keys: Option<FileLine>,
    pub(crate) changes: Vec<KeyChange>,
    /// What the cartridge keeps its saves in, where a line says it.
    pub(crate) backup: Option<Backup>,
    /// The console is off before this clock; 0 where no line says one.
    pub(crate) off: u64,
    pub(crate) outs: PerKind<Option<OutLine>>,
}

impl DraftConsole {
    /// A console of which nothing is said.
    pub(crate) fn silent(alloc: Global) -> DraftConsole
        ensures { draft_console_value result ≡ silent_console }
    {
        DraftConsole {
            bios: None,
            cart: None,
            save: None,
            keys: None,
            changes: Vec::new(alloc),
            backup: None,
            off: 0,
            outs: PerKind::all(None),
        }
    }

    /// The console with the line of an input.
    pub(crate) fn put_file(&mut self, kind: FileKind, file: FileLine)
        ensures { draft_console_value self.new ≡ with_file kind (file_value file) (draft_console_value self.old) }
    {
        match kind {
            FileKind::Bios => self.bios = Some(file),
            FileKind::Cart => self.cart = Some(file),
            FileKind::Save => self.save = Some(file),
            FileKind::Keys => self.keys = Some(file),
        }
    }

    /// Asks for an output, with the digest that is stated for it.
    pub(crate) fn ask_for(&mut self, out: OutKind, digest: Option<[u8; 32]>)
        ensures { draft_console_value self.new ≡ with_output out (asked_output digest) (draft_console_value self.old) }
    {
        self.outs.put(out, Some(OutLine { digest }));
    }

    /// Whether the console is asked for an output.
    pub(crate) fn asks_for(&self, out: OutKind) -> bool
        ensures { result ≡ is_some (at_kind self.now.outs out) }
    {
        self.outs.at(out).is_some()
    }

    /// The whole console, where its BIOS image is named.
    pub(crate) fn whole(self) -> Option<JobConsole>
        ensures { option_map console_value result
            ≡ option_map (with_image (draft_console_value self)) (draft_console_value self).bios }
    {
        let bios = self.bios?;
        Some(JobConsole {
            bios,
            cart: self.cart,
            save: self.save,
            keys: self.keys,
            changes: self.changes,
            backup: self.backup.unwrap_or(Backup::Sram),
            off: self.off,
            outs: self.outs,
        })
    }
}
