//! A transfer.

use gba_bus::Width;

/// One transfer of a channel: it reads 16 or 32 bits at `source` and writes them at `target`, both aligned.
#[derive(Clone, Copy, Debug, PartialEq, Eq)]
pub struct Unit {
    /// The channel, from 0 to 3.
    pub channel: u32,
    pub source: u32,
    pub target: u32,
    /// Half or Word.
    pub width: Width,
    /// Whether it is the first of its run: its accesses are non-sequential, and it costs 2 cycles more (this project's
    /// profile).
    pub first: bool,
}
