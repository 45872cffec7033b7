//! The lines of a console's memories.

ghost use Rattle.std.specs.Prelude.{◌≡◌, ◌+◌, ◌≤◌, ◌++◌, vec_len, vec_capacity};
ghost use Rattle.gba_frozen_text.specs.Memories.{memory_lines_text};
ghost use Rattle.gba_numbers.specs.declared.names.MemoryName.TheVariants as memory;
ghost use Rattle.gba_snapshot.specs.Console.{HaveLengths, lines_of_memories, memory_bytes};

use crate::io::io_bytes;
use gba_frozen_text::add_memory_lines;
use gba_io::Core;
use gba_numbers::MemoryName;

/// Adds the lines of the I/O registers.
fn add_io_lines(into: &mut Vec<u8>, core: &Core)
    requires { vec_len into.old + 2688 ≤ vec_capacity into.old }
    ensures items { into.new.items ≡ into.old.items ++ memory_lines_text memory.Io (memory_bytes core.now memory.Io) }
    ensures len { vec_len into.new ≤ vec_len into.old + 2688 }
    ensures room { vec_capacity into.old ≤ vec_capacity into.new }
{
    let bytes = io_bytes(core);
    add_memory_lines(into, MemoryName::Io, bytes.as_slice());
}

/// Adds the lines of the memories that a state file has: 84 bytes for each of their 12,384 lines are enough.
pub(crate) fn add_memories(into: &mut Vec<u8>, core: &Core)
    requires { vec_len into.old + 1040256 ≤ vec_capacity into.old }
    ensures items { into.new.items ≡ into.old.items ++ lines_of_memories core.now }
    ensures len { vec_len into.new ≤ vec_len into.old + 1040256 }
    ensures room { vec_capacity into.old ≤ vec_capacity into.new }
{
    add_io_lines(into, core);
    add_memory_lines(into, MemoryName::Wram, core.memory(MemoryName::Wram));
    add_memory_lines(into, MemoryName::Iwram, core.memory(MemoryName::Iwram));
    add_memory_lines(into, MemoryName::Palette, core.memory(MemoryName::Palette));
    add_memory_lines(into, MemoryName::Vram, core.memory(MemoryName::Vram));
    add_memory_lines(into, MemoryName::Oam, core.memory(MemoryName::Oam));
}

/// Adds those of the backup: 84 bytes for each of its at most 4,096 lines are enough.
#[tactic(auto, using(gba_image::proofs::Lengths::longest_backup))]
pub(crate) fn add_backup(into: &mut Vec<u8>, core: &Core)
    requires { vec_len into.old + 344064 ≤ vec_capacity into.old }
    ensures items { into.new.items
        ≡ into.old.items ++ memory_lines_text memory.Backup (memory_bytes core.now memory.Backup) }
    ensures len { vec_len into.new ≤ vec_len into.old + 344064 }
    ensures room { vec_capacity into.old ≤ vec_capacity into.new }
{
    add_memory_lines(into, MemoryName::Backup, core.memory(MemoryName::Backup));
}

/// The memories have their lengths. It does nothing.
pub(crate) fn have_lengths(core: &Core)
    ensures { HaveLengths core.now }
{
    let _io = io_bytes(core);
    let _work = core.memory(MemoryName::Wram);
    let _inner = core.memory(MemoryName::Iwram);
    let _palette = core.memory(MemoryName::Palette);
    let _vram = core.memory(MemoryName::Vram);
    let _oam = core.memory(MemoryName::Oam);
    let _backup = core.memory(MemoryName::Backup);
}
