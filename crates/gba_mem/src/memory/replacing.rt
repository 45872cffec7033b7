//! Bytes of the memories that are replaced at once, whatever they were.

ghost use Rattle.std.specs.Prelude.{◌≡◌, ◌+◌, ◌≤◌, length};
ghost use Rattle.gba_flash.specs.Replacing.{with_bytes};

use super::Memory;
use crate::MemoryPart;

/// Replaces bytes from a place on.
fn replace(memory: &mut [u8], place: usize, bytes: &[u8])
    requires { place + length bytes.now ≤ length memory.old }
    ensures bytes { memory.new ≡ with_bytes place bytes.now memory.old }
    ensures length { length memory.new ≡ length memory.old }
{
    memory[place..place + bytes.len()].copy_from_slice(bytes);
}

impl Memory {
    ghost use Rattle.std.specs.Prelude.{◌≡◌, ◌+◌, ◌≤◌, length};
    ghost use Rattle.gba_mem.specs.Replacing.{cleared, part_length, with_part};

    /// Replaces bytes of a memory from a place on, which is no write of a program: what a write would drop is taken,
    /// and a flash takes them for no command.
    pub fn set_bytes(&mut self, part: MemoryPart, place: usize, bytes: &[u8])
        requires { place + length bytes.now ≤ part_length part self.old }
        ensures { self.new ≡ with_part part place bytes.now self.old }
    {
        match part {
            MemoryPart::Work => replace(self.work.as_mut_slice(), place, bytes),
            MemoryPart::Inner => replace(self.inner.as_mut_slice(), place, bytes),
            MemoryPart::Palette => replace(self.palette.as_mut_slice(), place, bytes),
            MemoryPart::Vram => replace(self.vram.as_mut_slice(), place, bytes),
            MemoryPart::Oam => replace(self.oam.as_mut_slice(), place, bytes),
            MemoryPart::Backup => self.backup.set_bytes(place, bytes),
        }
    }

    /// Makes every byte of the memories that are written 0, also those of the SRAM or the flash, which aren't 0
    /// at the start.
    pub fn clear(&mut self)
        ensures { self.new ≡ cleared self.old }
    {
        self.work.as_mut_slice().fill(0);
        self.inner.as_mut_slice().fill(0);
        self.palette.as_mut_slice().fill(0);
        self.vram.as_mut_slice().fill(0);
        self.oam.as_mut_slice().fill(0);
        self.backup.clear();
    }
}
