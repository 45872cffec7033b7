//! The lines of a memory.

ghost use Rattle.std.specs.Prelude.{◌≡◌, ◌+◌, ◌*◌, ◌/◌, ◌≤◌, ◌++◌, length, vec_len, vec_capacity};
ghost use Rattle.gba_frozen.specs.Lines.{all_zero};
ghost use Rattle.gba_frozen_text.specs.Memories.{memory_lines_text, row_text};

use gba_frozen::MemoryPlace;
use gba_frozen_print::add_memory;
use gba_numbers::MemoryName;

/// The bytes of a line.
const ROW: usize = 32;

fn is_zero(bytes: &[u8]) -> bool
    ensures { result ≡ all_zero bytes.now }
{
    bytes.iter().all(|byte| *byte == 0)
}

/// Adds the line of 32 bytes of a memory, where they aren't all 0.
#[tactic(auto, unfolding(crate::specs::Memories::row_text))]
fn add_memory_row(into: &mut Vec<u8>, place: MemoryPlace, bytes: &[u8])
    requires whole { length bytes.now ≡ 32 }
    requires room { vec_len into.old + 84 ≤ vec_capacity into.old }
    ensures items { into.new.items ≡ into.old.items ++ row_text place bytes.now }
    ensures len { vec_len into.new ≤ vec_len into.old + 84 }
    ensures room { vec_capacity into.old ≤ vec_capacity into.new }
{
    if !is_zero(bytes) {
        add_memory(into, place, bytes);
    }
}

/// Adds the lines of a memory of at most 262,144 bytes, without those of 32 bytes 0: 84 bytes for each 32 are enough.
pub fn add_memory_lines(into: &mut Vec<u8>, name: MemoryName, bytes: &[u8])
    requires most { length bytes.now ≤ 262144 }
    requires room { vec_len into.old + 84 * (length bytes.now / 32) ≤ vec_capacity into.old }
    ensures items { into.new.items ≡ into.old.items ++ memory_lines_text name bytes.now }
    ensures len { vec_len into.new ≤ vec_len into.old + 84 * (length bytes.now / 32) }
    ensures room { vec_capacity into.old ≤ vec_capacity into.new }
{
    for line in 0..bytes.len() / ROW {
        let place = line * ROW;
        let offset = place as u32;
        add_memory_row(
            into,
            MemoryPlace { name, offset },
            &bytes[place..place + ROW],
        );
    }
}
