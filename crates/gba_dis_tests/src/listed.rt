//! What the disassembler lists, compared with what is wanted.

use gba_asm::assemble;
use gba_dis::{Set, disassemble};
use gba_image::LONGEST_CARTRIDGE;
use std::alloc::{AllocError, Global};

/// Whether bytes have this listing.
pub fn lists(alloc: Global, set: Set, bytes: &[u8], want: &[u8]) -> bool {
    if bytes.len() > LONGEST_CARTRIDGE {
        return false;
    }
    match disassemble(alloc, bytes, set) {
        Ok(text) => text.as_slice() == want,
        Err(_) => false,
    }
}

/// Whether an ARM word at address 0 has this line.
pub fn lists_word(alloc: Global, word: u32, line: &[u8]) -> Result<bool, AllocError> {
    let mut want = Vec::from_slice(alloc, line)?;
    want.extend_from_slice(b"\n")?;
    Ok(lists(alloc, Set::Arm, &word.to_le_bytes(), &want))
}

/// Whether a Thumb halfword at address 0 has this line.
pub fn lists_half(alloc: Global, half: u16, line: &[u8]) -> Result<bool, AllocError> {
    let mut want = Vec::from_slice(alloc, b".thumb\n")?;
    want.extend_from_slice(line)?;
    want.extend_from_slice(b"\n")?;
    Ok(lists(alloc, Set::Thumb, &half.to_le_bytes(), &want))
}

/// Whether the assembler turns the listing of bytes into the same bytes.
pub fn comes_back(alloc: Global, set: Set, bytes: &[u8]) -> bool {
    if bytes.len() > LONGEST_CARTRIDGE {
        return false;
    }
    let Ok(text) = disassemble(alloc, bytes, set) else {
        return false;
    };
    match assemble(alloc, &text) {
        Ok(image) => image.as_slice() == bytes,
        Err(_) => false,
    }
}
