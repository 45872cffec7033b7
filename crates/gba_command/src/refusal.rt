//! Why a command stops before anything is written.

ghost use Rattle.std.specs.Prelude.{◌≡◌, ◌+◌, ◌≤◌, ◌++◌, length};
ghost use Rattle.arrayvec.specs.ArrayVec.{array_vec_len};

use crate::cause::Cause;
use arrayvec::ArrayVec;
use gba_text::{Line, add_text, line_of};

/// A file's name in a report: at most 200 bytes.
pub type Name = ArrayVec<u8, 200>;

/// Why a command stops before anything is written. Each refusal has a status and one line of report.
#[derive(Drop)]
pub enum Refusal {
    /// The words or the files say so.
    Refused(Cause),
    /// There is no such file: 3.
    Absent(Name),
    /// The store failed in the read of this file: 4.
    StoreFault(Name),
    /// Memory was wanting: 10.
    NoMemory,
}

/// A name for a report.
pub fn name_in_report(name: &str) -> Name
    requires { length name.now ≤ 200 }
    ensures { result.items ≡ name.now }
{
    let mut copy = Name::new();
    if copy.try_extend_from_slice(name.as_bytes()).is_err() {
        unreachable!()
    }
    copy
}

/// A name between two texts.
pub(crate) fn line_about(before: &[u8], name: &Name, after: &[u8]) -> Line
    requires { length before.now + length after.now ≤ 56 }
    ensures items { result.items ≡ before.now ++ name.now.items ++ after.now }
    ensures short { array_vec_len result ≤ length before.now + length after.now + 200 }
{
    let mut line = Line::new();
    add_text(&mut line, before);
    add_text(&mut line, name.as_slice());
    add_text(&mut line, after);
    line
}

impl Refusal {
    ghost use Rattle.std.specs.Prelude.{◌≡◌};
    ghost use Rattle.gba_command.specs.Cause.{stop_status, stop_report};
    ghost use Rattle.gba_command.specs.Views.{stop_value};

    /// The exit status.
    pub(crate) fn status(&self) -> u8
        ensures { result ≡ stop_status (stop_value self.now) }
    {
        match self {
            Refusal::Refused(cause) => cause.status(),
            Refusal::Absent(_) => 3,
            Refusal::StoreFault(_) => 4,
            Refusal::NoMemory => 10,
        }
    }

    /// The line of report, with its line feed.
    pub(crate) fn report(&self) -> Line
        ensures { result.items ≡ stop_report (stop_value self.now) }
    {
        match self {
            Refusal::Refused(cause) => cause.report(),
            Refusal::Absent(name) => line_about(b"absent ", name, b"\n"),
            Refusal::StoreFault(name) => line_about(b"store ", name, b"\n"),
            Refusal::NoMemory => line_of(b"memory\n"),
        }
    }
}
