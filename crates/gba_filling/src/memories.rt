//! The memories of a console.

ghost use Rattle.std.specs.Prelude.{◌≡◌, ℕ, ◌+◌, ◌≤◌, IfOk, length, replicate, vec_len};
ghost use Rattle.gba_flash.specs.Replacing.{with_bytes};
ghost use Rattle.gba_frozen.specs.Places.{memory_length as memory_length_of};

use gba_frozen::MemoryPlace;
use gba_image::Backup;
use gba_numbers::MemoryName;
use std::alloc::{AllocError, Global};
use std::marker::Model;

/// How many bytes a memory has.
fn memory_length(backup: Backup, name: MemoryName) -> usize
    ensures { result ≡ memory_length_of backup name }
{
    match name {
        MemoryName::Io => 0x400,
        MemoryName::Wram => 0x4_0000,
        MemoryName::Iwram => 0x8000,
        MemoryName::Palette => 0x400,
        MemoryName::Vram => 0x1_8000,
        MemoryName::Oam => 0x400,
        MemoryName::Backup => backup.length(),
    }
}

/// A memory whose bytes are 0.
fn zeros(alloc: Global, backup: Backup, name: MemoryName) -> Result<Vec<u8>, AllocError>
    ensures { IfOk result (λ bytes. bytes.items ≡ replicate (memory_length_of backup name) 0) }
{
    vec![in alloc; 0; memory_length(backup, name)]
}

/// Puts bytes into a memory from an offset on.
fn put_at(memory: &mut Vec<u8>, offset: usize, bytes: &[u8])
    requires { offset + length bytes.now ≤ vec_len memory.old }
    ensures { memory.new.items ≡ with_bytes offset bytes.now memory.old.items }
{
    memory.as_mut_slice()[offset..offset + bytes.len()].copy_from_slice(bytes);
}

/// The bytes of a console's I/O registers as its file says them, and of the memories that it writes: the work RAM, the
/// inner RAM, the palette, the VRAM, the OAM, and the SRAM or the flash. Contracts see the list of them in the order of
/// a frozen file.
#[derive(Drop)]
pub struct Memories {
    io: Vec<u8>,
    work: Vec<u8>,
    inner: Vec<u8>,
    palette: Vec<u8>,
    vram: Vec<u8>,
    oam: Vec<u8>,
    backup: Vec<u8>,
}

impl Model for Memories {
    ghost use Rattle.std.specs.Prelude.{ℕ, List, [], ◌∷◌};

    ghost Value = { List (List ℕ) };

    ghost view = { λ m.
        m.io.items ∷ m.work.items ∷ m.inner.items ∷ m.palette.items ∷ m.vram.items ∷ m.oam.items
        ∷ m.backup.items ∷ [] };
}

impl Memories {
    ghost use Rattle.std.specs.Prelude.{List, []};
    ghost use Rattle.gba_frozen.specs.declared.places.MemoryPlace.{MemoryPlace};
    ghost use Rattle.gba_frozen_text.specs.Memories.{with_row};
    ghost use Rattle.gba_filling.specs.Memories.{AreFrom, bytes_of, with_memory};

    /// Of a console whose saves are kept so: every byte is 0.
    pub fn new(alloc: Global, backup: Backup) -> Result<Memories, AllocError>
        ensures { IfOk result (λ memories. AreFrom backup [] memories) }
    {
        Ok(Memories {
            io: zeros(alloc, backup, MemoryName::Io)?,
            work: zeros(alloc, backup, MemoryName::Wram)?,
            inner: zeros(alloc, backup, MemoryName::Iwram)?,
            palette: zeros(alloc, backup, MemoryName::Palette)?,
            vram: zeros(alloc, backup, MemoryName::Vram)?,
            oam: zeros(alloc, backup, MemoryName::Oam)?,
            backup: zeros(alloc, backup, MemoryName::Backup)?,
        })
    }

    /// The bytes of a memory.
    pub fn bytes(&self, name: MemoryName) -> &[u8]
        ensures { result.now ≡ bytes_of name self.now }
    {
        match name {
            MemoryName::Io => self.io.as_slice(),
            MemoryName::Wram => self.work.as_slice(),
            MemoryName::Iwram => self.inner.as_slice(),
            MemoryName::Palette => self.palette.as_slice(),
            MemoryName::Vram => self.vram.as_slice(),
            MemoryName::Oam => self.oam.as_slice(),
            MemoryName::Backup => self.backup.as_slice(),
        }
    }

    /// Puts bytes into a memory.
    pub fn put(&mut self, place: MemoryPlace, bytes: &[u8])
        requires { place.offset + length bytes.now ≤ length (bytes_of place.name self.old) }
        ensures { self.new ≡ with_memory place bytes.now self.old }
    {
        let offset = place.offset as usize;
        match place.name {
            MemoryName::Io => put_at(&mut self.io, offset, bytes),
            MemoryName::Wram => put_at(&mut self.work, offset, bytes),
            MemoryName::Iwram => put_at(&mut self.inner, offset, bytes),
            MemoryName::Palette => put_at(&mut self.palette, offset, bytes),
            MemoryName::Vram => put_at(&mut self.vram, offset, bytes),
            MemoryName::Oam => put_at(&mut self.oam, offset, bytes),
            MemoryName::Backup => put_at(&mut self.backup, offset, bytes),
        }
    }
}
