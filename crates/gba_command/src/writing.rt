//! The calls of a sink.

ghost use Rattle.std.specs.Prelude.{◌≡◌, ◌≤◌, ◌++◌, length, map, codes};
ghost use Rattle.gba_command.specs.Answer.{Reported};
ghost use Rattle.gba_command.specs.Views.{conclusion_value, output_value, write_end};
ghost use Rattle.gba_command.specs.Writing.{Create, Append, Performs, PerformsAll, addition, creation, summary_calls};

use crate::cause::Cause;
use crate::outputs::OutputFile;
use crate::refusal::{Name, line_about, name_in_report};
use gba_store::{Sink, WriteError};
use gba_text::{Line, line_of};

/// Why the writing of a run stopped.
#[derive(Drop)]
pub enum WriteStop {
    /// The sink failed at this file: 9.
    Fault(Name),
    /// Memory was wanting: 10.
    NoMemory,
}

impl WriteStop {
    ghost use Rattle.std.specs.Prelude.{◌≡◌};
    ghost use Rattle.gba_command.specs.Answer.{end_status, end_report};
    ghost use Rattle.gba_command.specs.Views.{write_stop_value};

    /// The exit status.
    pub(crate) fn status(&self) -> u8
        ensures { result ≡ end_status (write_stop_value self.now) }
    {
        match self {
            WriteStop::Fault(_) => 9,
            WriteStop::NoMemory => 10,
        }
    }

    /// The line of report, with its line feed.
    pub(crate) fn report(&self) -> Line
        ensures { result.items ≡ end_report (write_stop_value self.now) }
    {
        match self {
            WriteStop::Fault(name) => line_about(b"sink ", name, b"\n"),
            WriteStop::NoMemory => line_of(b"memory\n"),
        }
    }
}

/// Makes a file empty. The name has at most 200 bytes.
#[tactic(auto, unfolding(crate::specs::Writing::Performs))]
pub fn create<O: Sink>(out: &mut O, name: &str) -> Result<(), WriteStop>
    requires { length name.now ≤ 200 }
    ensures { Performs O.Tells (Create name.now)
        (O.state out.old) (O.state out.new) (write_end result) }
{
    match out.create(name) {
        Ok(()) => Ok(()),
        Err(WriteError::Failed) => Err(WriteStop::Fault(name_in_report(name))),
        Err(WriteError::NoMemory) => Err(WriteStop::NoMemory),
    }
}

/// Adds bytes at the end of a file. The name has at most 200 bytes.
#[tactic(auto, unfolding(crate::specs::Writing::Performs))]
pub fn append<O: Sink>(out: &mut O, name: &str, piece: &[u8]) -> Result<(), WriteStop>
    requires { length name.now ≤ 200 }
    ensures { Performs O.Tells (Append name.now piece.now)
        (O.state out.old) (O.state out.new) (write_end result) }
{
    match out.append(name, piece) {
        Ok(()) => Ok(()),
        Err(WriteError::Failed) => Err(WriteStop::Fault(name_in_report(name))),
        Err(WriteError::NoMemory) => Err(WriteStop::NoMemory),
    }
}

/// Makes files empty, one after another.
pub fn create_files<O: Sink>(out: &mut O, files: &[OutputFile]) -> Result<(), WriteStop>
    ensures { PerformsAll O.Tells (map creation (map output_value files.now))
        (O.state out.old) (O.state out.new) (write_end result) }
{
    for file in files {
        create(out, file.name.as_str())?;
    }
    Ok(())
}

/// Adds the bytes of files to them, one after another.
pub fn append_files<O: Sink>(out: &mut O, files: &[OutputFile]) -> Result<(), WriteStop>
    ensures { PerformsAll O.Tells (map addition (map output_value files.now))
        (O.state out.old) (O.state out.new) (write_end result) }
{
    for file in files {
        append(out, file.name.as_str(), file.bytes.as_slice())?;
    }
    Ok(())
}

/// Makes all files empty, and then adds their bytes.
pub(crate) fn write_files<O: Sink>(out: &mut O, files: &[OutputFile]) -> Result<(), WriteStop>
    ensures { PerformsAll O.Tells
        (map creation (map output_value files.now) ++ map addition (map output_value files.now))
        (O.state out.old) (O.state out.new) (write_end result) }
{
    create_files(out, files)?;
    append_files(out, files)
}

/// The summary goes to standard output, if there is one.
pub(crate) fn write_summary<O: Sink>(
    out: &mut O,
    end: &Result<Line, Cause>,
) -> Result<(), WriteStop>
    ensures { PerformsAll O.Tells (summary_calls (conclusion_value end.now))
        (O.state out.old) (O.state out.new) (write_end result) }
{
    match end {
        Ok(summary) => append(out, "-", summary.as_slice()),
        Err(_) => Ok(()),
    }
}

/// Reports a line on standard output. Where that is refused, nothing more is done.
pub(crate) fn report<O: Sink>(out: &mut O, line: &Line)
    ensures { Reported O.Tells line.now.items
        (O.state out.old) (O.state out.new) }
{
    let _ = append(out, "-", line.as_slice());
}
