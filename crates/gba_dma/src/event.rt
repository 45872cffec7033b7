//! What triggers channels.

/// An event that triggers the channels that wait for it (GBATEK, GBA DMA Transfers, Start Timing): the beginning of
/// VBlank, that of HBlank in a visible line, or a request of a sound queue.
#[derive(Clone, Copy, Debug, PartialEq, Eq)]
pub enum DmaEvent {
    VBlank,
    HBlank,
    QueueA,
    QueueB,
}
