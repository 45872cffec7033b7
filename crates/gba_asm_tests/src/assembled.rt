//! What the assembler gives, compared with what is wanted.

use gba_asm::{AsmError, AsmKind, AsmRefused, assemble};
use std::alloc::{AllocError, Global};

/// Whether a source gives these bytes.
pub fn gives(alloc: Global, source: &[u8], want: &[u8]) -> bool {
    match assemble(alloc, source) {
        Ok(image) => image.as_slice() == want,
        Err(_) => false,
    }
}

/// Whether an ARM source gives this word alone.
pub fn gives_word(alloc: Global, source: &[u8], word: u32) -> bool {
    gives(alloc, source, &word.to_le_bytes())
}

/// Whether a source gives these words.
pub fn gives_words(alloc: Global, source: &[u8], words: &[u32]) -> Result<bool, AllocError> {
    let mut want = Vec::new(alloc);
    for word in words {
        want.extend_from_slice(&word.to_le_bytes())?;
    }
    Ok(gives(alloc, source, &want))
}

fn thumb_source(alloc: Global, source: &[u8]) -> Result<Vec<u8>, AllocError> {
    let mut whole = Vec::from_slice(alloc, b".thumb\n")?;
    whole.extend_from_slice(source)?;
    Ok(whole)
}

/// Whether a Thumb statement gives this halfword alone.
pub fn gives_half(alloc: Global, source: &[u8], half: u16) -> bool {
    match thumb_source(alloc, source) {
        Ok(whole) => gives(alloc, &whole, &half.to_le_bytes()),
        Err(_) => false,
    }
}

/// Whether a Thumb statement gives these two halfwords.
pub fn gives_halves(alloc: Global, source: &[u8], halves: [u16; 2]) -> bool {
    let [first, second] = halves;
    let word = u32::from(first) + u32::from(second) * 0x1_0000;
    match thumb_source(alloc, source) {
        Ok(whole) => gives(alloc, &whole, &word.to_le_bytes()),
        Err(_) => false,
    }
}

/// Whether a source is refused at this line for this cause.
pub fn refuses(alloc: Global, source: &[u8], line: u64, kind: AsmKind) -> bool {
    match assemble(alloc, source) {
        Err(AsmRefused::Source(refusal)) => refusal == AsmError { line, kind },
        _ => false,
    }
}

/// Whether a Thumb statement is refused for this cause.
pub fn refuses_thumb(alloc: Global, source: &[u8], kind: AsmKind) -> bool {
    match thumb_source(alloc, source) {
        Ok(whole) => refuses(alloc, &whole, 2, kind),
        Err(_) => false,
    }
}
