//! The state file, the save and the summary.

ghost use Rattle.std.specs.Prelude.{◌≡◌, ◌+◌, ◌≤◌, ◌++◌, [], decimal, length, vec_len, vec_capacity};
ghost use Rattle.arrayvec.specs.ArrayVec.{array_vec_len};
ghost use Rattle.gba_output.specs.StateFile.{save_file, state_file, summary_line};

use gba_console::Console;
use gba_io::MemoryName;
use gba_snapshot::add_state;
use gba_text::{Line, add_text};
use itoa::Buffer;

/// The bytes of a save.
pub const SAVE_ROOM: usize = 131_072;

/// Adds bytes where there is room for them.
pub(crate) fn add(into: &mut Vec<u8>, bytes: &[u8])
    requires { vec_len into.old + length bytes.now ≤ vec_capacity into.old }
    ensures items { into.new.items ≡ into.old.items ++ bytes.now }
    ensures len { vec_len into.new ≡ vec_len into.old + length bytes.now }
    ensures room { vec_capacity into.old ≤ vec_capacity into.new }
{
    if into.extend_from_slice(bytes).is_err() {
        unreachable!()
    }
}

/// Writes the state file of a console into an empty buffer with room for it: 1,051,937 bytes are enough for any.
pub fn write_state(into: &mut Vec<u8>, console: &Console)
    requires empty { into.old.items ≡ [] }
    requires room { 1051937 ≤ vec_capacity into.old }
    ensures items { into.new.items ≡ state_file console.now }
    ensures room { vec_capacity into.old ≤ vec_capacity into.new }
{
    add_state(into, console);
}

/// Writes the save of a console, the bytes of its SRAM or of its flash, into an empty buffer with room for it: 131,072
/// bytes are enough for any.
#[tactic(auto, using(gba_image::proofs::Lengths::longest_backup))]
pub fn write_save(into: &mut Vec<u8>, console: &Console)
    requires empty { into.old.items ≡ [] }
    requires room { 131072 ≤ vec_capacity into.old }
    ensures items { into.new.items ≡ save_file console.now }
    ensures room { vec_capacity into.old ≤ vec_capacity into.new }
{
    add(into, console.board().core.memory(MemoryName::Backup));
}

/// Adds a number between texts to a summary.
fn add_count(line: &mut Line, name: &[u8], count: u64)
    requires name { length name.now ≤ 9 }
    requires room { array_vec_len line.old + 29 ≤ 1024 }
    ensures items { line.new.items ≡ line.old.items ++ (name.now ++ decimal count) }
    ensures len { array_vec_len line.new ≤ array_vec_len line.old + 29 }
{
    let mut buffer = Buffer::new();
    add_text(line, name);
    add_text(line, buffer.format(count).as_bytes());
}

/// Adds the line of a console to a summary that has room for it.
#[tactic(auto, unfolding(crate::specs::StateFile::summary_line))]
pub fn add_summary(line: &mut Line, console: &Console)
    requires { array_vec_len line.old + 146 ≤ 1024 }
    ensures items { line.new.items ≡ line.old.items ++ summary_line console.now }
    ensures len { array_vec_len line.new ≤ array_vec_len line.old + 146 }
{
    let counts = console.counts();
    add_count(
        line,
        b"console ",
        u64::from(console.board().core.serial().player()),
    );
    add_count(line, b" clock ", console.clock());
    add_count(line, b" frames ", counts.frames);
    add_count(line, b" samples ", counts.samples);
    add_count(line, b" words ", counts.words);
    add_text(line, b"\n");
}
