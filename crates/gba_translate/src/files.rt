//! The one file that is written.

ghost use Rattle.std.specs.Prelude.{◌≡◌, ◌≤◌, ◌++◌, ◌∷◌, [], IfOk, Ok, codes, decimal, length, string_bytes, string_len};
ghost use Rattle.arrayvec.specs.ArrayVec.{array_vec_len};
ghost use Rattle.gba_command.specs.Views.{run_value};
ghost use Rattle.gba_command.specs.Writing.{at_once};
ghost use Rattle.gba_translate.specs.Translation.{count_line as count_line_of, one_file};

use gba_command::{OutputFile, Outputs};
use gba_text::{Line, add_text};
use itoa::Buffer;
use std::alloc::{AllocError, Global};

/// A line of a word of at most 8 bytes and a number.
pub fn count_line(word: &[u8], count: u64) -> Line
    requires { length word.now ≤ 8 }
    ensures { result.items ≡ count_line_of word.now count }
{
    let mut buffer = Buffer::new();
    let mut line = Line::new();
    add_text(&mut line, word);
    add_text(&mut line, b" ");
    add_text(&mut line, buffer.format(count).as_bytes());
    add_text(&mut line, b"\n");
    line
}

/// One file of this name with these bytes, and this summary.
pub fn write_file(
    alloc: Global,
    name: String,
    bytes: Vec<u8>,
    summary: Line,
) -> Result<Outputs, AllocError>
    requires { string_len name ≤ 200 }
    ensures { IfOk result (λ outputs. run_value outputs
        ≡ at_once (record { name = string_bytes name; bytes = bytes.items } ∷ []) (Ok summary.items)) }
{
    let mut files = Vec::with_capacity(alloc, 1)?;
    files.push(OutputFile { name, bytes })?;
    Ok(Outputs {
        files,
        end: Ok(summary),
    })
}

/// One file of these bytes, and the summary with their number after this word.
pub(crate) fn write_one(
    alloc: Global,
    name: &str,
    bytes: Vec<u8>,
    word: &[u8],
) -> Result<Outputs, AllocError>
    requires name { length name.now ≤ 180 }
    requires word { length word.now ≤ 8 }
    ensures { IfOk result (λ outputs. run_value outputs ≡ one_file name.now word.now bytes.items) }
{
    let summary = count_line(word, bytes.len() as u64);
    let name = String::from_str(alloc, name)?;
    write_file(alloc, name, bytes, summary)
}
