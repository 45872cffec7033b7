//! What a command that isn't refused writes.

ghost use Rattle.std.specs.Prelude.{◌≤◌, string_len};

use crate::cause::Cause;
use gba_text::Line;

/// A file to be written: its name of at most 200 bytes, and its bytes.
#[derive(Drop)]
pub struct OutputFile {
    pub name: String,
    pub bytes: Vec<u8>,
    pub ghost named: { string_len name ≤ 200 },
}

/// What a run writes: its files in their order, each of another name, and then the summary on standard output; or why
/// it is refused once all its files are whole.
#[derive(Drop)]
pub struct Outputs {
    pub files: Vec<OutputFile>,
    pub end: Result<Line, Cause>,
}
