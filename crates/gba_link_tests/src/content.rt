//! Files of tests: what they have, and what they are expected to have.

use crate::calls::{image_of, padded, stored};
use gba_store::StoredFile;
use std::alloc::{AllocError, Global};

/// The bytes of a file.
#[derive(Clone, Copy)]
pub enum Content<'a> {
    Text(&'a str),
    /// A BIOS that begins with these words.
    Code(&'a [u32]),
    /// The same of another length.
    Padded(&'a [u32], usize),
    /// A cartridge of this length, with these two bytes of its header.
    Cartridge { length: usize, fixed: u8, check: u8 },
    /// So many bytes, each of them this one.
    Filled(usize, u8),
}

/// The two bytes of the header of a cartridge stand at B2h and BDh, and all others are 0.
fn cartridge(alloc: Global, length: usize, fixed: u8, check: u8) -> Result<Vec<u8>, AllocError> {
    let mut bytes = Vec::new(alloc);
    for place in 0..length {
        bytes.push(match place {
            0xB2 => fixed,
            0xBD => check,
            _ => 0,
        })?;
    }
    Ok(bytes)
}

/// The bytes of this content.
pub fn bytes_of(alloc: Global, content: Content<'_>) -> Result<Vec<u8>, AllocError> {
    match content {
        Content::Text(text) => Vec::from_slice(alloc, text.as_bytes()),
        Content::Code(code) => image_of(alloc, code),
        Content::Padded(code, length) => padded(alloc, code, length),
        Content::Cartridge {
            length,
            fixed,
            check,
        } => cartridge(alloc, length, fixed, check),
        Content::Filled(length, byte) => vec![in alloc; byte; length],
    }
}

/// A job under its name, and the files beside it.
pub fn stored_all(
    alloc: Global,
    job: StoredFile,
    beside: &[(&str, Content<'_>)],
) -> Result<Vec<StoredFile>, AllocError> {
    let mut files = vec![in alloc; job]?;
    for &(name, content) in beside {
        files.push(stored(alloc, name, bytes_of(alloc, content)?)?)?;
    }
    Ok(files)
}

/// What has become of a file.
#[derive(Clone, Copy)]
pub enum Expected<'a> {
    /// There is no such file.
    Absent,
    /// There is one.
    Present,
    /// It has this content.
    Is(Content<'a>),
    /// These pieces stand in its text, which ends so.
    Holds { pieces: &'a [&'a str], end: &'a str },
}

/// Whether these pieces stand in a text, which ends so.
fn holds(bytes: &[u8], pieces: &[&str], end: &str) -> bool {
    let Ok(text) = str::from_utf8(bytes) else {
        return false;
    };
    for &piece in pieces {
        if !text.contains(piece) {
            return false;
        }
    }
    text.ends_with(end)
}

/// Whether what is found of a file is as expected.
pub fn is_as_expected(
    alloc: Global,
    found: Option<&[u8]>,
    expected: Expected<'_>,
) -> Result<bool, AllocError> {
    let Some(bytes) = found else {
        return Ok(matches!(&expected, Expected::Absent));
    };
    match expected {
        Expected::Absent => Ok(false),
        Expected::Present => Ok(true),
        Expected::Is(content) => Ok(bytes == bytes_of(alloc, content)?.as_slice()),
        Expected::Holds { pieces, end } => Ok(holds(bytes, pieces, end)),
    }
}
