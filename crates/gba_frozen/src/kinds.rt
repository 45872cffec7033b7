//! Why a frozen file is refused, what keeps the memories, and where a file may be read on.

ghost use Rattle.std.specs.Prelude.{Some};
ghost use Rattle.gba_frozen.specs.Told.{kind_text};

use gba_image::Backup;
use gba_text::LineError;
use std::fmt;

/// What is wrong with the first refused line of a frozen file.
#[derive(Clone, Copy, Debug, PartialEq, Eq)]
pub enum ThawKind {
    /// The line isn't one that may stand there, or isn't spelled as it would be printed.
    Spelling,
    /// A number isn't in its range.
    Number,
    /// The file is of another job.
    Job,
    /// The whole isn't the state of a run.
    Unsound,
}

impl fmt::Display for ThawKind {
    ghost output = { λ kind. Some (kind_text kind) };

    fn fmt<W: fmt::Write>(&self, f: &mut fmt::Formatter<W>) -> fmt::Result {
        match self {
            ThawKind::Spelling => f.write_str("Spelling"),
            ThawKind::Number => f.write_str("Number"),
            ThawKind::Job => f.write_str("Job"),
            ThawKind::Unsound => f.write_str("Unsound"),
        }
    }
}

/// The first refused line of a frozen file, and why it is refused. A file that is too long has line 0, and one that
/// ends before its last line the number of its lines plus 1.
pub type ThawError = LineError<ThawKind>;

/// What a frozen file is read for: how many consoles the job has, 1 to 4, what keeps the saves of each, the digest of
/// the job, and the cycles to which it runs.
#[derive(Clone, Copy)]
pub struct Setup {
    pub consoles: u32,
    /// By players; only those of the job's consoles matter.
    pub backups: [Backup; 4],
    pub digest: [u8; 32],
    pub until: u64,
}
