//! The memories at the start.

ghost use Rattle.std.specs.Prelude.{◌≡◌, IfOk, replicate};
ghost use Rattle.gba_mem.specs.Memories.{
  inner_length,
  oam_length,
  palette_length,
  vram_length,
  work_length,
};

use std::alloc::{AllocError, Global};

/// So many bytes of one value.
pub(crate) fn filled(alloc: Global, length: usize, byte: u8) -> Result<Vec<u8>, AllocError>
    ensures { IfOk result (λ bytes. bytes.items ≡ replicate length byte) }
{
    vec![in alloc; byte; length]
}

// The lengths, whose numbers the proofs above don't see.

#[tactic(auto, unfolding(crate::specs::Memories::work_length))]
pub(crate) fn length_of_work() -> usize
    ensures length { result ≡ work_length }
    ensures number { result ≡ 0x40000 }
{
    0x40000
}

#[tactic(auto, unfolding(crate::specs::Memories::inner_length))]
pub(crate) fn length_of_inner() -> usize
    ensures length { result ≡ inner_length }
    ensures number { result ≡ 0x8000 }
{
    0x8000
}

#[tactic(auto, unfolding(crate::specs::Memories::palette_length))]
pub(crate) fn length_of_palette() -> usize
    ensures length { result ≡ palette_length }
    ensures number { result ≡ 0x400 }
{
    0x400
}

#[tactic(auto, unfolding(crate::specs::Memories::vram_length))]
pub(crate) fn length_of_vram() -> usize
    ensures length { result ≡ vram_length }
    ensures number { result ≡ 0x18000 }
{
    0x18000
}

#[tactic(auto, unfolding(crate::specs::Memories::oam_length))]
pub(crate) fn length_of_oam() -> usize
    ensures length { result ≡ oam_length }
    ensures number { result ≡ 0x400 }
{
    0x400
}
