//! Why a job or a key file is refused.

ghost use Rattle.std.specs.Prelude.{◌≡◌, Some};
ghost use Rattle.gba_joblog.specs.Kinds.{kind_name, kind_of_text};

use gba_text::{LineError, TextKind};
use std::alloc::AllocError;
use std::fmt;

/// What is wrong with a line of a job or a key file. On one line the tests come in this order: `Long`; `Byte`; in a job
/// for the first word `Word`, `Order` and `Repeated`; the other words from left to right; `Missing` or `Extra`; and
/// `Long` once more for a key change too many.
#[derive(Clone, Copy, Debug, PartialEq, Eq)]
pub enum JobKind {
    /// A byte may not stand there.
    Byte,
    /// A word isn't one of those that may stand there.
    Word,
    /// A number or a change's keys aren't spelled so, or are out of their range.
    Number,
    /// A name isn't a name.
    Name,
    /// The word after `sha256` isn't 64 hexadecimal digits.
    Digest,
    /// A line stands where it may not, a console isn't the next one, `key` meets `keys`, or a change's clock is less
    /// than the one before it.
    Order,
    /// A line that may stand once stands again.
    Repeated,
    /// A line ends before its words do, a console ends without `bios`, or the file ends without `end`.
    Missing,
    /// A word follows a whole line, or a line follows `end`.
    Extra,
    /// A line has more than 400 bytes, a job more than 134,217,728, a key file more than 33,554,432, or a console more
    /// than 1,000,000 key changes.
    Long,
    /// An output file would be the job or one of its inputs.
    Clash,
}

impl JobKind {
    /// The kind's name in reports, as `Repeated`.
    pub fn name(self) -> &'static str
        ensures { result.now ≡ kind_name self }
    {
        match self {
            JobKind::Byte => "Byte",
            JobKind::Word => "Word",
            JobKind::Number => "Number",
            JobKind::Name => "Name",
            JobKind::Digest => "Digest",
            JobKind::Order => "Order",
            JobKind::Repeated => "Repeated",
            JobKind::Missing => "Missing",
            JobKind::Extra => "Extra",
            JobKind::Long => "Long",
            JobKind::Clash => "Clash",
        }
    }

    pub(crate) fn of_text(kind: TextKind) -> JobKind
        ensures { result ≡ kind_of_text kind }
    {
        match kind {
            TextKind::Byte => JobKind::Byte,
            TextKind::Missing => JobKind::Missing,
            TextKind::Number => JobKind::Number,
            TextKind::Long => JobKind::Long,
        }
    }
}

impl fmt::Display for JobKind {
    ghost output = { λ kind. Some (kind_name kind) };

    fn fmt<W: fmt::Write>(&self, f: &mut fmt::Formatter<W>) -> fmt::Result {
        f.write_str(self.name())
    }
}

/// The first refused line of a job or a key file, and why it is refused. The line is one past the last where the file
/// ends too early, and 0 where it is too long.
pub type JobError = LineError<JobKind>;

/// Why a job or a key file can't be read: it isn't of its language, or memory is wanting.
#[derive(Clone, Copy, Debug, PartialEq, Eq)]
pub enum ParseRefused {
    Job(JobError),
    NoMemory,
}

impl From<AllocError> for ParseRefused {
    ghost from_gives = { λ _ refusal. refusal ≡ NoMemory };

    ghost use Rattle.gba_joblog.specs.declared.kinds.ParseRefused.TheVariants.{NoMemory};

    fn from(_refusal: AllocError) -> ParseRefused {
        ParseRefused::NoMemory
    }
}
